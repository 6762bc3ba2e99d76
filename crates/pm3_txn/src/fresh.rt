//! The fresh pages of a pass: free pages of the space, or ones that are drawn for it.
ghost use Rattle.std.specs.Prelude.{◌≡◌, ◌⊎◌, ◌+◌, ◌<◌, ◌≤◌, ℕ, true, false, is_some, IfOk, IfErr, OnOk, OnErr};
ghost use Rattle.std.specs.FinMap as map;
ghost use Rattle.pm3_access.specs.Parting.{joined};
ghost use Rattle.pm3_table.specs.Deeds.{marks_of};
ghost use Rattle.pm3_txn.specs.PassSteps.{AreAllFresh, AreFresh, HasDrawn, HasMoreRoom, IsNewFree, IsOutOfFresh, IsPassing, is_free};

use crate::commit_fault::CommitRefusal;
use crate::heap::Heap;
use crate::mutator::Mutator;
use pm3_access::Parted;
use pm3_disk::Disk;
use pm3_page::{Image, PageNo, Pages};
use pm3_table::Memory;
use std::alloc::Global;

/// Blank images of so many free pages of the space: the least ones, and where these are too few, ones that are drawn for it.
pub(crate) fn fresh_pages<D: Disk>(
    heap: &Heap<D>,
    mutator: &mut Mutator<D>,
    parted: &mut Parted,
    wanted: u32,
) -> Result<Pages, CommitRefusal>
    requires ready { IsPassing D.Reader.content heap.now mutator.old (joined parted.old) }
    requires marks { (p : ℕ) → marks_of mutator.old.pass.1.log p ≡ true → map.contains_key parted.old.volatile.images p ≡ true }
    ensures ready { IsPassing D.Reader.content heap.now mutator.new (joined parted.new) }
    ensures parts { HasMoreRoom parted.old parted.new }
    ensures fresh { IfOk result (λ fresh. AreFresh parted.new.rest.space fresh.images × (map.len fresh.images ≡ wanted)) }
    ensures drawn { (n : ℕ) × HasDrawn mutator.old mutator.new n × (n ≤ wanted) }
    ensures calm { OnOk result (mutator.new.pass.1.filled ≡ mutator.old.pass.1.filled) }
    ensures refused { IfErr result (λ cause. IsOutOfFresh heap.now.1 mutator.old mutator.new cause) }
{
    heap.page_count();
    let alloc = mutator.allocator();
    let mut fresh = Pages::new(alloc);
    let Ok(()) = fresh.reserve(wanted) else {
        return Err(CommitRefusal::Memory);
    };
    let Ok(()) = blank_free(alloc, parted, wanted, &mut fresh) else {
        return Err(CommitRefusal::Memory);
    };
    while fresh.len() < wanted {
        let page = match draw_free(heap, mutator, parted) {
            Ok(page) => page,
            Err(cause) => return Err(cause),
        };
        let Ok(image) = Image::blank(alloc, page) else {
            return Err(CommitRefusal::Memory);
        };
        fresh.put(image);
    }
    Ok(fresh)
}

/// Adds blank images of the least free pages, until there are as many as are wanted or no page is left.
fn blank_free(alloc: Global, parted: &Parted, wanted: u32, fresh: &mut Pages) -> Result<(), Memory>
    requires space { is_some parted.now.rest.space ≡ true }
    requires low { (q : ℕ) → is_free parted.now.rest.space q ≡ true → (3 ≤ q) × (q < 16384) }
    requires none { fresh.old.images ≡ map.empty }
    requires room { wanted ≤ fresh.old.spare }
    ensures fresh { OnOk result (AreFresh parted.now.rest.space fresh.new.images) }
    ensures room { fresh.new.spare + map.len fresh.new.images ≡ fresh.old.spare }
    ensures most { map.len fresh.new.images ≤ wanted }
    ensures enough { OnOk result ((map.len fresh.new.images ≡ wanted) ⊎ AreAllFresh parted.now.rest.space fresh.new.images) }
{
    let mut from = 0;
    while fresh.len() < wanted {
        let Some(page) = parted.next_free(from) else {
            return Ok(());
        };
        let Ok(image) = Image::blank(alloc, page) else {
            return Err(Memory);
        };
        fresh.put(image);
        from = page + 1;
    }
    Ok(())
}

/// Draws a page for the space, which is a free one then.
fn draw_free<D: Disk>(
    heap: &Heap<D>,
    mutator: &mut Mutator<D>,
    parted: &mut Parted,
) -> Result<PageNo, CommitRefusal>
    requires ready { IsPassing D.Reader.content heap.now mutator.old (joined parted.old) }
    requires marks { (p : ℕ) → marks_of mutator.old.pass.1.log p ≡ true → map.contains_key parted.old.volatile.images p ≡ true }
    ensures ready { IsPassing D.Reader.content heap.now mutator.new (joined parted.new) }
    ensures parts { HasMoreRoom parted.old parted.new }
    ensures drawn { OnOk result (HasDrawn mutator.old mutator.new 1) }
    ensures calm { OnOk result (mutator.new.pass.1.filled ≡ mutator.old.pass.1.filled) }
    ensures page { IfOk result (λ page. IsNewFree parted.old.rest.space parted.new.rest.space page × (3 ≤ page) × (page < 16384)) }
    ensures kept { OnErr result (HasDrawn mutator.old mutator.new 0) }
    ensures refused { IfErr result (λ cause. IsOutOfFresh heap.now.1 mutator.old mutator.new cause) }
{
    heap.page_count();
    let Ok(()) = parted.reserve_free(1) else {
        return Err(CommitRefusal::Memory);
    };
    match mutator.draw_own_page(heap) {
        Ok(page) => {
            parted.add_free(page);
            Ok(page)
        }
        Err(full) => Err(CommitRefusal::Full {
            what: full.what,
            limit: full.limit,
        }),
    }
}
