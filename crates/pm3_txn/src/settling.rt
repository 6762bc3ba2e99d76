//! Pages that a pass promoted become persistent, and the marks of the others are taken off.
ghost use Rattle.std.specs.Prelude.{◌≡◌, ◌<◌, ◌&&◌, ℕ, not, true, false};
ghost use Rattle.std.specs.FinMap.{contains_key};
ghost use Rattle.std.specs.FinSet as set;
ghost use Rattle.pm3_table.specs.Deeds.{marks_of};
ghost use Rattle.pm3_table.specs.Ops.{settled_held};
ghost use Rattle.pm3_table.specs.Settles.{unmark_log};
ghost use Rattle.pm3_table.specs.Telling.{HasInSpace};
ghost use Rattle.pm3_txn.specs.PassEnds.{HasSettled, is_other, is_promoted};
ghost use Rattle.pm3_txn.specs.Pinning.{HasOnlyLogged};
ghost use Rattle.pm3_txn.specs.Takes.{with_view};

use crate::heap::Heap;
use crate::mutator::Mutator;
use pm3_access::Parted;
use pm3_disk::Disk;
use pm3_locks::{PageState, settle};
use pm3_page::PageSet;

impl<D: Disk> Mutator<D> {
    /// Settles a page of the space as a persistent one, which the mutator holds then.
    fn promote(&mut self, heap: &Heap<D>, page: u32)
        requires of { self.old.pass.0 ≡ heap.now.0 }
        requires own { (page < heap.now.1.pages) × HasInSpace heap.now.1 self.old.pass.1 self.old.space page }
        ensures { self.new ≡ with_view self.old (settled_held self.old.pass.1 page (unmark_log self.old.pass.1.log page)) }
    {
        settle(&heap.shared, &mut self.pass, page, PageState::Held);
    }
}

/// Settles as persistent the pages that a pass promoted.
pub(crate) fn promote_all<D: Disk>(mutator: &mut Mutator<D>, heap: &Heap<D>, parted: &Parted)
    requires of { mutator.old.pass.0 ≡ heap.now.0 }
    requires own { (q : ℕ) → is_promoted parted.now q ≡ true → (q < heap.now.1.pages) × HasInSpace heap.now.1 mutator.old.pass.1 mutator.old.space q }
    ensures { HasSettled heap.now.1.pages mutator.old mutator.new (is_promoted parted.now) }
{
    let mut from = 0;
    while let Some(page) = parted.written.next(from) {
        if !parted.has_found(page) {
            mutator.promote(heap, page);
        }
        from = page + 1;
    }
}

/// Takes the marks off the pages of a set, but for those of another.
pub(crate) fn unmark_others<D: Disk>(
    mutator: &mut Mutator<D>,
    heap: &Heap<D>,
    pages: &PageSet,
    but: &PageSet,
)
    requires of { mutator.old.pass.0 ≡ heap.now.0 }
    requires own { (q : ℕ) → is_other pages.now but.now q ≡ true → (q < heap.now.1.pages) × HasInSpace heap.now.1 mutator.old.pass.1 mutator.old.space q }
    requires marked { (q : ℕ) → is_other pages.now but.now q ≡ true → marks_of mutator.old.pass.1.log q ≡ true }
    ensures only { HasOnlyLogged mutator.old mutator.new }
    ensures marks { (q : ℕ) → marks_of mutator.new.pass.1.log q ≡ (marks_of mutator.old.pass.1.log q && not (is_other pages.now but.now q)) }
{
    let mut from = 0;
    while let Some(page) = pages.next(from) {
        if !but.has(page) {
            mutator.unmark(heap, page);
        }
        from = page + 1;
    }
}
