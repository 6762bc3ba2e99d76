//! A pass is prepared: its plan, its fresh pages, and the room for all that it leaves.
ghost use Rattle.std.specs.Prelude.{◌≡◌, ◌+◌, ◌<◌, ◌≤◌, ◌⊎◌, ◌↔◌, ℕ, List, true, false, is_some, slice_index_or, IfOk, IfErr, OnOk};
ghost use Rattle.std.specs.FinMap as map;
ghost use Rattle.std.specs.FinSet as set;
ghost use Rattle.pm3_access.specs.Parting.{joined};
ghost use Rattle.pm3_access.specs.Holding.{by_space, with_free};
ghost use Rattle.pm3_core.specs.Naming.{Names};
ghost use Rattle.pm3_table.specs.Deeds.{marks_of, word_of};
ghost use Rattle.pm3_txn.specs.Committing.{HasMadeRoom, IsParted};
ghost use Rattle.pm3_txn.specs.PassSteps.{AreNamed, HasDrawn, HasMoreRoom, IsPassing, IsPassRefusal, IsPrepared, IsRoomy, IsUnprepared, is_free, space_room};
ghost use Rattle.pm3_txn.specs.Pinning.{HasOnlyLogged, HasScanned};
ghost use Rattle.pm3_txn.specs.Underway.{IsMutatorOf};

use crate::commit_fault::CommitRefusal;
use crate::fresh::fresh_pages;
use crate::heap::Heap;
use crate::mutator::Mutator;
use crate::pinning::{pin, pins, unmark_all};
use crate::prepared::Prepared;
use crate::values::Turn;
use pm3_access::Parted;
use pm3_copy::{Plan, plan};
use pm3_disk::Disk;
use pm3_journal::FilePages;
use pm3_page::{PageSet, Pages};
use pm3_table::Memory;
use std::alloc::Global;

/// The places of a row.
const ROW_PLACES: usize = 512;

/// Marks the pages of the space, reads every place of all rows, and plans the pass. Where the space has too few free pages for it, pages
/// are drawn, and room is made for all that it leaves. A refusal takes the marks off again.
pub(crate) fn prepare<D: Disk>(
    heap: &Heap<D>,
    mutator: &mut Mutator<D>,
    turn: &mut Turn<D>,
    parted: &mut Parted,
) -> Result<Prepared, CommitRefusal>
    requires ready { IsPassing D.Reader.content heap.now mutator.old (joined parted.old) }
    requires bare { (p : ℕ) → marks_of mutator.old.pass.1.log p ≡ false }
    requires parted { IsParted parted.old }
    ensures prepared { IfOk result (λ prepared. IsPrepared D.Reader.content heap.now mutator.old mutator.new parted.old parted.new turn.new.journal.room prepared) }
    ensures refused { IfErr result (λ cause. IsUnprepared D.Reader.content heap.now mutator.old mutator.new parted.old parted.new cause) }
    ensures room { HasMadeRoom turn.old turn.new }
{
    heap.page_count();
    let Ok(named) = named_pages(mutator, heap, &parted.volatile) else {
        return Err(CommitRefusal::Memory);
    };
    let Ok(pins) = pins(mutator, heap, &parted.volatile) else {
        return Err(CommitRefusal::Memory);
    };
    match planned(heap, mutator, turn, parted, &named, pins) {
        Ok(prepared) => Ok(prepared),
        Err(cause) => {
            unmark_all(mutator, heap, &parted.volatile);
            Err(cause)
        }
    }
}

/// Plans the pass for these pinned pages, once they are marked, and makes room for it.
fn planned<D: Disk>(
    heap: &Heap<D>,
    mutator: &mut Mutator<D>,
    turn: &mut Turn<D>,
    parted: &mut Parted,
    named: &PageSet,
    pins: PageSet,
) -> Result<Prepared, CommitRefusal>
    requires ready { IsPassing D.Reader.content heap.now mutator.old (joined parted.old) }
    requires parted { IsParted parted.old }
    requires scanned { (words : List ℕ) × HasScanned heap.now.1.pages mutator.old.pass.1.log (map.contains_key parted.old.volatile.images) words pins }
    requires named { AreNamed heap.now.1.pages mutator.old (map.contains_key parted.old.volatile.images) named.now }
    ensures prepared { IfOk result (λ prepared. IsPrepared D.Reader.content heap.now mutator.old mutator.new parted.old parted.new turn.new.journal.room prepared) }
    ensures ready { IsPassing D.Reader.content heap.now mutator.new (joined parted.new) }
    ensures parts { HasMoreRoom parted.old parted.new }
    ensures drawn { (n : ℕ) × HasDrawn mutator.old mutator.new n }
    ensures refused { IfErr result (λ cause. IsPassRefusal heap.now.1 mutator.old mutator.new (map.contains_key parted.old.volatile.images) cause) }
    ensures room { HasMadeRoom turn.old turn.new }
{
    heap.page_count();
    let alloc = mutator.allocator();
    let Ok(plan) = plan(
        alloc,
        &heap.catalog,
        &parted.volatile,
        &parted.written,
        &pins,
    ) else {
        return Err(CommitRefusal::Memory);
    };
    if !turns_all(&plan, named) {
        return Err(CommitRefusal::Later);
    }
    let wanted = plan.persistent + plan.volatile;
    let fresh = match fresh_pages(heap, mutator, parted, wanted) {
        Ok(fresh) => fresh,
        Err(cause) => return Err(cause),
    };
    fresh.len();
    pins.len();
    let Ok(pages) = room_for(alloc, turn, parted, &plan) else {
        return Err(CommitRefusal::Memory);
    };
    Ok(Prepared {
        plan,
        pins,
        fresh,
        pages,
    })
}

/// The pages of the space to which references of the row lead.
fn named_pages<D: Disk>(
    mutator: &mut Mutator<D>,
    heap: &Heap<D>,
    volatile: &Pages,
) -> Result<PageSet, Memory>
    requires of { IsMutatorOf D.Reader.content heap.now mutator.old }
    ensures only { HasOnlyLogged mutator.old mutator.new }
    ensures kept { IsMutatorOf D.Reader.content heap.now mutator.new }
    ensures named { IfOk result (λ named. AreNamed heap.now.1.pages mutator.old (map.contains_key volatile.now.images) named) }
{
    let pages = heap.page_count();
    let mut named = PageSet::new(mutator.allocator());
    for j in 0..ROW_PLACES {
        let Ok(()) = name_place(mutator, heap, j, volatile, pages, &mut named) else {
            return Err(Memory);
        };
    }
    Ok(named)
}

/// Adds the page to which a place of the row leads, where it is a reference to a page of the space.
fn name_place<D: Disk>(
    mutator: &mut Mutator<D>,
    heap: &Heap<D>,
    j: usize,
    volatile: &Pages,
    pages: u32,
    named: &mut PageSet,
) -> Result<(), Memory>
    requires of { IsMutatorOf D.Reader.content heap.now mutator.old }
    requires low { (j < 512) × (pages ≡ heap.now.1.pages) × (pages ≤ 16384) }
    ensures only { HasOnlyLogged mutator.old mutator.new }
    ensures kept { IsMutatorOf D.Reader.content heap.now mutator.new }
    ensures named { OnOk result ((p : ℕ) → (set.contains named.new p ≡ true) ↔ ((set.contains named.old p ≡ true) ⊎ ((map.contains_key volatile.now.images p ≡ true) × (slice_index_or mutator.old.refs j false ≡ true) × Names pages (word_of mutator.old.pass.1.log j) p))) }
{
    if !mutator.refs[j] {
        return Ok(());
    }
    let word = mutator.read_word(heap, j);
    let Ok(()) = pin(named, word, volatile, pages) else {
        return Err(Memory);
    };
    Ok(())
}

/// Whether each of the pages turns persistent by the plan.
fn turns_all(plan: &Plan, named: &PageSet) -> bool
    ensures all { result ≡ true → (p : ℕ) → set.contains named.now p ≡ true → set.contains plan.now.turned p ≡ true }
    ensures some { result ≡ false → (p : ℕ) × (set.contains named.now p ≡ true) × (set.contains plan.now.turned p ≡ false) }
{
    let mut from = 0;
    while let Some(page) = named.next(from) {
        if !plan.turns(page) {
            return false;
        }
        from = page + 1;
    }
    true
}

/// Makes room for what the pass leaves, in the parts, in the journal, and in a list for its record.
fn room_for<D: Disk>(
    alloc: Global,
    turn: &mut Turn<D>,
    parted: &mut Parted,
    plan: &Plan,
) -> Result<FilePages, Memory>
    requires space { is_some parted.old.rest.space ≡ true }
    requires few { (plan.now.persistent ≤ 16384) × (plan.now.pins ≤ 16384) × (set.len plan.now.turned ≤ plan.now.pins) }
    ensures room { HasMadeRoom turn.old turn.new }
    ensures parts { HasMoreRoom parted.old parted.new }
    ensures same { joined parted.new ≡ by_space (λ s. with_free s s.free (space_room parted.new.rest.space)) (joined parted.old) }
    ensures free { (q : ℕ) → is_free parted.new.rest.space q ≡ is_free parted.old.rest.space q }
    ensures enough { IfOk result (λ pages. IsRoomy parted.new turn.new.journal.room plan.now pages) }
{
    let more = plan.persistent + plan.pins;
    let Ok(()) = parted.volatile.reserve(plan.volatile) else {
        return Err(Memory);
    };
    let Ok(()) = parted.written.reserve(more) else {
        return Err(Memory);
    };
    let Ok(()) = parted.reserve_free(plan.freed_count()) else {
        return Err(Memory);
    };
    let count = parted.written.len() + more;
    let Ok(()) = turn.journal.reserve(count) else {
        return Err(Memory);
    };
    let mut pages = FilePages::new(alloc);
    let Ok(()) = pages.reserve(count) else {
        return Err(Memory);
    };
    Ok(pages)
}
