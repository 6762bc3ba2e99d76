//! The end of a transaction that changes nothing.
ghost use Rattle.std.specs.Prelude.{◌≡◌, ℕ, ◌<◌, true, false, slice_index_or};
ghost use Rattle.std.specs.FinMap.{contains_key};
ghost use Rattle.pm3_table.specs.Holds.{holds_of};
ghost use Rattle.pm3_txn.specs.Aborting.{AreAll, AreAllOf, AreOwed, HasCleared, HasOnlyGiven, IsSpaceOwed, RemembersUnwritten, was_written};
ghost use Rattle.pm3_txn.specs.Underway.{Belongs, HoldsNothing, IsMutatorOf};

use crate::heap::Heap;
use crate::mutator::Mutator;
use crate::transaction::Txn;
use crate::values::Value;
use pm3_access::Undone;
use pm3_disk::Disk;
use pm3_page::Pages;

/// The places of a row.
const ROW_PLACES: usize = 512;

impl<D: Disk> Txn<'_, D> {
    /// Ends the transaction, whose objects are as they were found. Each place of the row that it wrote is a nil reference, and each
    /// other place is as it was. It takes no memory.
    pub fn abort(self) -> Mutator<D>
        ensures bare { HoldsNothing result }
        ensures row { HasCleared self.entry.mutator result (was_written self.entry.mutator) }
        ensures belongs { Belongs D.Reader.content self.entry.heap result }
    {
        let Txn {
            heap,
            mutator,
            held,
            tag: _,
        } = self;
        restored(heap, mutator, held.undo())
    }
}

/// Makes each place that the mutator wrote a nil reference, and then gives all that it holds back as it was found: no word of
/// the row names an object of the space once others may have that.
pub(crate) fn restored<D: Disk>(heap: &Heap<D>, mutator: Mutator<D>, undone: Undone) -> Mutator<D>
    requires of { IsMutatorOf D.Reader.content heap.now mutator }
    requires known { RemembersUnwritten heap.now.1 mutator }
    requires owed { AreOwed heap.now.1 mutator.pass.1 undone.pages.images }
    requires space { IsSpaceOwed heap.now.1 mutator.pass.1 mutator.space undone.space }
    requires all { AreAll heap.now.1 mutator.pass.1 mutator.space undone.pages.images undone.space }
    ensures cleared { HasCleared mutator result (was_written mutator) }
    ensures bare { HoldsNothing result }
    ensures kept { Belongs D.Reader.content heap.now result }
{
    heap.page_count();
    let Undone {
        pages,
        written: _,
        space,
    } = undone;
    let mut mutator = mutator;
    clear_written(&mut mutator, heap);
    give_all(&mut mutator, heap, pages);
    let Some(space) = space else {
        return mutator;
    };
    mutator.give_space(heap, space);
    mutator
}

/// Gives all that is held back as it is, pages and a space.
pub(crate) fn give_undone<D: Disk>(
    heap: &Heap<D>,
    mutator: Mutator<D>,
    undone: Undone,
) -> Mutator<D>
    requires of { Belongs D.Reader.content heap.now mutator }
    requires pages { AreOwed heap.now.1 mutator.pass.1 undone.pages.images }
    requires written { AreOwed heap.now.1 mutator.pass.1 undone.written.images }
    requires apart { (u : ℕ) → contains_key undone.written.images u ≡ true → contains_key undone.pages.images u ≡ false }
    requires space { IsSpaceOwed heap.now.1 mutator.pass.1 mutator.space undone.space }
    requires all { AreAllOf heap.now.1 mutator.pass.1 mutator.space undone.pages.images undone.written.images undone.space }
    ensures given { HasOnlyGiven mutator result }
    ensures bare { HoldsNothing result }
    ensures kept { Belongs D.Reader.content heap.now result }
{
    let Undone {
        pages,
        written,
        space,
    } = undone;
    let mut mutator = mutator;
    give_all(&mut mutator, heap, pages);
    give_all(&mut mutator, heap, written);
    let Some(space) = space else {
        return mutator;
    };
    mutator.give_space(heap, space);
    mutator
}

/// Gives pages back, each with its image.
pub(crate) fn give_all<D: Disk>(mutator: &mut Mutator<D>, heap: &Heap<D>, pages: Pages)
    requires of { Belongs D.Reader.content heap.now mutator.old }
    requires owed { AreOwed heap.now.1 mutator.old.pass.1 pages.images }
    ensures given { HasOnlyGiven mutator.old mutator.new }
    ensures gone { (u : ℕ) → contains_key pages.images u ≡ true → holds_of mutator.new.pass.1.holds u ≡ false }
    ensures others { (u : ℕ) → contains_key pages.images u ≡ false → holds_of mutator.new.pass.1.holds u ≡ holds_of mutator.old.pass.1.holds u }
    ensures kept { Belongs D.Reader.content heap.now mutator.new }
{
    let mut pages = pages;
    let mut from = 0;
    while let Some(page) = pages.next(from) {
        let Some(image) = pages.take(page) else {
            unreachable!()
        };
        mutator.give(heap, page, Some(Value::Page(image)));
        from = page + 1;
    }
}

/// Makes each place that was written since the transaction began a nil reference.
fn clear_written<D: Disk>(mutator: &mut Mutator<D>, heap: &Heap<D>)
    requires of { IsMutatorOf D.Reader.content heap.now mutator.old }
    requires known { RemembersUnwritten heap.now.1 mutator.old }
    ensures cleared { HasCleared mutator.old mutator.new (was_written mutator.old) }
    ensures held { mutator.new.pass.1.holds ≡ mutator.old.pass.1.holds }
    ensures kept { Belongs D.Reader.content heap.now mutator.new }
{
    for j in 0..ROW_PLACES {
        if mutator.has_written(j) {
            mutator.clear_word(heap, j);
        }
    }
}

impl<D: Disk> Mutator<D> {
    /// Whether a place was written since the transaction began.
    fn has_written(&self, j: usize) -> bool
        requires { j < 512 }
        ensures { result ≡ was_written self.now j }
    {
        self.wrote[j]
    }
}
