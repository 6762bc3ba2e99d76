//! The calls of a mutator on units.
ghost use Rattle.std.specs.Prelude.{◌≡◌, ◌≢◌, ℕ, ◌<◌, true, false, Some, IfOk, IfErr};
ghost use Rattle.pm3_table.specs.declared.unit.Unit.TheVariants as unit;
ghost use Rattle.pm3_table.specs.Holds.{holds_of};
ghost use Rattle.pm3_table.specs.Ops.{refused, gave};
ghost use Rattle.pm3_table.specs.Telling.{Good, is_steady};
ghost use Rattle.pm3_table.specs.Words.{space_unit};
ghost use Rattle.pm3_txn.specs.declared.values.Value.TheVariants as value;
ghost use Rattle.pm3_txn.specs.Aborting.{IsSpaceOwed};
ghost use Rattle.pm3_txn.specs.Slots.{stands_for};
ghost use Rattle.pm3_txn.specs.Takes.{HasTaken, with_view};
ghost use Rattle.pm3_txn.specs.Underway.{IsMutatorOf};

use crate::heap::Heap;
use crate::mutator::Mutator;
use crate::values::Value;
use pm3_access::Space;
use pm3_disk::Disk;
use pm3_table::{Busy, Unit};

impl<D: Disk> Mutator<D> {
    /// Takes a page that the mutator does not hold, with its value where it is loaded, in a single try.
    pub(crate) fn take(&mut self, heap: &Heap<D>, page: u32) -> Result<Option<Value<D>>, Busy>
        requires of { IsMutatorOf D.Reader.content heap.now self.old }
        requires low { page < heap.now.1.pages }
        requires free { holds_of self.old.pass.1.holds page ≡ false }
        requires steady { is_steady heap.now.1 self.old.pass.1 page ≡ true }
        ensures taken { IfOk result (λ slot. HasTaken D.Disk heap.now.1 self.old self.new page slot) }
        ensures busy { IfErr result (λ busy. (busy.unit ≡ unit.Page page) × (busy.word ≢ 0) × (self.new ≡ with_view self.old (refused self.old.pass.1 page busy.word))) }
        ensures kept { IsMutatorOf D.Reader.content heap.now self.new }
    {
        pm3_locks::take(&heap.shared, &mut self.pass, Unit::Page(page))
    }

    /// Gives a page back, with the value that stands for it after all that the mutator has seen.
    pub(crate) fn give(&mut self, heap: &Heap<D>, page: u32, slot: Option<Value<D>>)
        requires of { IsMutatorOf D.Reader.content heap.now self.old }
        requires low { page < heap.now.1.pages }
        requires held { holds_of self.old.pass.1.holds page ≡ true }
        requires good { Good (stands_for D.Disk) heap.now.1 self.old.pass.1.lost self.old.pass.1.seen page slot }
        ensures given { self.new ≡ with_view self.old (gave self.old.pass.1 page) }
        ensures kept { IsMutatorOf D.Reader.content heap.now self.new }
    {
        pm3_locks::give(&heap.shared, &mut self.pass, Unit::Page(page), slot);
    }

    /// Takes the mutator's space, with its value, in a single try.
    pub(crate) fn take_space(&mut self, heap: &Heap<D>) -> Result<Space, Busy>
        requires of { IsMutatorOf D.Reader.content heap.now self.old }
        requires free { holds_of self.old.pass.1.holds (space_unit heap.now.1.pages self.old.space) ≡ false }
        ensures taken { IfOk result (λ space. HasTaken D.Disk heap.now.1 self.old self.new (space_unit heap.now.1.pages self.old.space) (Some (value.Space space))) }
        ensures busy { IfErr result (λ busy. (busy.unit ≡ unit.Space self.old.space) × (busy.word ≢ 0) × (self.new ≡ with_view self.old (refused self.old.pass.1 (space_unit heap.now.1.pages self.old.space) busy.word))) }
        ensures kept { IsMutatorOf D.Reader.content heap.now self.new }
    {
        match pm3_locks::take(&heap.shared, &mut self.pass, Unit::Space(self.space)) {
            Ok(Some(Value::Space(space))) => Ok(space),
            Ok(_) => unreachable!(),
            Err(busy) => Err(busy),
        }
    }

    /// Gives the space back, with the value that stands for it after all that the mutator has seen.
    pub(crate) fn give_space(&mut self, heap: &Heap<D>, space: Space)
        requires of { IsMutatorOf D.Reader.content heap.now self.old }
        requires owed { IsSpaceOwed heap.now.1 self.old.pass.1 self.old.space (Some space) }
        ensures given { self.new ≡ with_view self.old (gave self.old.pass.1 (space_unit heap.now.1.pages self.old.space)) }
        ensures kept { IsMutatorOf D.Reader.content heap.now self.new }
    {
        pm3_locks::give(
            &heap.shared,
            &mut self.pass,
            Unit::Space(self.space),
            Some(Value::Space(space)),
        );
    }
}
