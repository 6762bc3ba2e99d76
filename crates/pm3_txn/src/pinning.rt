//! The pages of a space that the words of all rows pin: marks, and the scan that follows them.
ghost use Rattle.std.specs.Prelude.{◌≡◌, ◌⊎◌, ◌↔◌, ◌≤◌, ◌<◌, ℕ, List, [], true, false, length, slice_index, Some, IfOk, OnOk, OnErr};
ghost use Rattle.std.specs.FinMap as map;
ghost use Rattle.std.specs.FinSet as set;
ghost use Rattle.pm3_core.specs.declared.events.TheConstants.{PLACES};
ghost use Rattle.pm3_core.specs.Naming.{Names};
ghost use Rattle.pm3_rows.specs.Scans.{scanned};
ghost use Rattle.pm3_table.specs.declared.view.Deed.TheVariants.{Marked, Unmarked};
ghost use Rattle.pm3_table.specs.Deeds.{IsClearedIn, marks_of};
ghost use Rattle.pm3_table.specs.Ops.{did};
ghost use Rattle.pm3_table.specs.Reads.{marked_then, read_of};
ghost use Rattle.pm3_table.specs.Telling.{HasInSpace};
ghost use Rattle.pm3_txn.specs.Pinning.{AreOwnPages, ArePinned, HasMarked, HasPinned};
ghost use Rattle.pm3_txn.specs.Takes.{with_view};
ghost use Rattle.pm3_txn.specs.Underway.{IsMutatorOf};

use crate::heap::Heap;
use crate::mutator::Mutator;
use pm3_core::{PLACES, ROW_PLACES, page_of};
use pm3_disk::Disk;
use pm3_page::{PageSet, Pages};
use pm3_rows::{Words, mark, scan, unmark};
use pm3_table::Memory;
use std::alloc::Global;

impl<D: Disk> Mutator<D> {
    /// Marks a page of the space, which it has not marked.
    fn mark(&mut self, heap: &Heap<D>, page: u32)
        requires of { self.old.pass.0 ≡ heap.now.0 }
        requires own { (page < heap.now.1.pages) × HasInSpace heap.now.1 self.old.pass.1 self.old.space page }
        requires bare { marks_of self.old.pass.1.log page ≡ false }
        ensures { self.new ≡ with_view self.old (did self.old.pass.1 (Marked page)) }
    {
        mark(&heap.shared, &mut self.pass, page);
    }

    /// Takes its mark off a page of the space.
    pub(crate) fn unmark(&mut self, heap: &Heap<D>, page: u32)
        requires of { self.old.pass.0 ≡ heap.now.0 }
        requires own { (page < heap.now.1.pages) × HasInSpace heap.now.1 self.old.pass.1 self.old.space page }
        requires held { marks_of self.old.pass.1.log page ≡ true }
        ensures { self.new ≡ with_view self.old (did self.old.pass.1 (Unmarked page)) }
    {
        unmark(&heap.shared, &mut self.pass, page);
    }

    /// Reads every place of all rows into an empty list.
    fn scan(&mut self, heap: &Heap<D>, words: &mut Words)
        requires of { self.old.pass.0 ≡ heap.now.0 }
        requires empty { words.old ≡ [] }
        ensures full { length words.new ≡ PLACES }
        ensures log { self.new ≡ with_view self.old (record self.old.pass.1 { log = scanned 0 words.new self.old.pass.1.log }) }
        ensures read { (n : ℕ) → n < PLACES → read_of self.new.pass.1.log n ≡ Some (slice_index words.new n) }
        ensures marks { (page : ℕ) → marked_then self.new.pass.1.log page ≡ marks_of self.old.pass.1.log page }
        ensures cleared { (page : ℕ) → marks_of self.old.pass.1.log page ≡ true → ((n : ℕ) → n < PLACES → Names heap.now.1.pages (slice_index words.new n) page → ⊥) → IsClearedIn heap.now.1.pages self.new.pass.1.log page }
    {
        scan(&heap.shared, &mut self.pass, words);
    }
}

/// Marks the pages of these images, which are all of the mutator's space, reads every place of all rows, and tells which of the pages a
/// word names. Without memory no page is marked in the end.
pub(crate) fn pins<D: Disk>(
    mutator: &mut Mutator<D>,
    heap: &Heap<D>,
    volatile: &Pages,
) -> Result<PageSet, Memory>
    requires of { IsMutatorOf D.Reader.content heap.now mutator.old }
    requires own { AreOwnPages heap.now.1 mutator.old.pass.1 mutator.old.space volatile.now.images }
    ensures pinned { IfOk result (λ pinned. (words : List ℕ) × HasPinned heap.now.1.pages mutator.old mutator.new (map.contains_key volatile.now.images) words pinned) }
    ensures refused { OnErr result (HasMarked mutator.old mutator.new (λ p. false)) }
{
    let Ok(mut words) = Words::room(mutator.allocator()) else {
        return Err(Memory);
    };
    let pages = heap.page_count();
    mark_all(mutator, heap, volatile);
    mutator.scan(heap, &mut words);
    match pinned_by(mutator.allocator(), &words, volatile, pages) {
        Ok(pinned) => Ok(pinned),
        Err(Memory) => {
            unmark_all(mutator, heap, volatile);
            Err(Memory)
        }
    }
}

/// Marks the pages of these images.
fn mark_all<D: Disk>(mutator: &mut Mutator<D>, heap: &Heap<D>, volatile: &Pages)
    requires of { mutator.old.pass.0 ≡ heap.now.0 }
    requires bare { (p : ℕ) → marks_of mutator.old.pass.1.log p ≡ false }
    requires own { AreOwnPages heap.now.1 mutator.old.pass.1 mutator.old.space volatile.now.images }
    ensures marked { HasMarked mutator.old mutator.new (map.contains_key volatile.now.images) }
{
    let mut from = 0;
    while let Some(page) = volatile.next(from) {
        mutator.mark(heap, page);
        from = page + 1;
    }
}

/// Takes the marks off the pages of these images.
pub(crate) fn unmark_all<D: Disk>(mutator: &mut Mutator<D>, heap: &Heap<D>, volatile: &Pages)
    requires of { mutator.old.pass.0 ≡ heap.now.0 }
    requires marked { (p : ℕ) → marks_of mutator.old.pass.1.log p ≡ map.contains_key volatile.now.images p }
    requires own { AreOwnPages heap.now.1 mutator.old.pass.1 mutator.old.space volatile.now.images }
    ensures unmarked { HasMarked mutator.old mutator.new (λ p. false) }
{
    let mut from = 0;
    while let Some(page) = volatile.next(from) {
        mutator.unmark(heap, page);
        from = page + 1;
    }
}

/// The pages of these images that one of the words names, in a store of so many pages.
fn pinned_by(alloc: Global, words: &Words, volatile: &Pages, pages: u32) -> Result<PageSet, Memory>
    requires full { length words.now ≡ PLACES }
    requires low { pages ≤ 16384 }
    ensures { IfOk result (ArePinned pages (map.contains_key volatile.now.images) words.now) }
{
    let mut pinned = PageSet::new(alloc);
    for n in 0..PLACES {
        let word = words.get(n as u32 / ROW_PLACES, n % ROW_PLACES as usize);
        let Ok(()) = pin(&mut pinned, word, volatile, pages) else {
            return Err(Memory);
        };
    }
    Ok(pinned)
}

/// Adds the page that a word names, if it is one of these images.
pub(crate) fn pin(
    pinned: &mut PageSet,
    word: u64,
    volatile: &Pages,
    pages: u32,
) -> Result<(), Memory>
    requires low { pages ≤ 16384 }
    ensures { OnOk result ((p : ℕ) → (set.contains pinned.new p ≡ true) ↔ ((set.contains pinned.old p ≡ true) ⊎ ((map.contains_key volatile.now.images p ≡ true) × Names pages word p))) }
{
    let Some(page) = page_of(word, pages) else {
        return Ok(());
    };
    let Some(_) = volatile.get(page) else {
        return Ok(());
    };
    let Ok(()) = pinned.add(page) else {
        return Err(Memory);
    };
    Ok(())
}
