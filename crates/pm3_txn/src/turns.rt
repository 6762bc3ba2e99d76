//! The turn to commit.
ghost use Rattle.std.specs.Prelude.{◌≡◌, ◌≢◌, ℕ, ◌≤◌, List, ◌++◌, [], ◌∷◌, true, false, Some, IfOk, IfErr};
ghost use Rattle.pm3_history.specs.Entry.{Done};
ghost use Rattle.pm3_table.specs.declared.unit.Unit.TheVariants as unit;
ghost use Rattle.pm3_table.specs.Holds.{holds_of};
ghost use Rattle.pm3_table.specs.Ops.{refused, turned};
ghost use Rattle.pm3_table.specs.Words.{turn_unit};
ghost use Rattle.pm3_txn.specs.declared.values.Value.TheVariants as value;
ghost use Rattle.pm3_txn.specs.Committing.{MayGive, done_by, failed_by};
ghost use Rattle.pm3_txn.specs.Slots.{turn_state};
ghost use Rattle.pm3_txn.specs.Takes.{HasTaken, with_view};
ghost use Rattle.pm3_txn.specs.Underway.{Belongs, IsMutatorOf};

use crate::heap::Heap;
use crate::mutator::Mutator;
use crate::values::{Turn, Value};
use pm3_access::Parted;
use pm3_disk::Disk;
use pm3_journal::{AppendFault, Entry};
use pm3_locks::give_turn;
use pm3_table::{Busy, Unit};

impl<D: Disk> Mutator<D> {
    /// Takes the turn, in a single try.
    pub(crate) fn take_turn(&mut self, heap: &Heap<D>) -> Result<Turn<D>, Busy>
        requires of { IsMutatorOf D.Reader.content heap.now self.old }
        requires free { holds_of self.old.pass.1.holds (turn_unit heap.now.1.pages) ≡ false }
        ensures taken { IfOk result (λ turn. HasTaken D.Disk heap.now.1 self.old self.new (turn_unit heap.now.1.pages) (Some (value.Turn turn))) }
        ensures busy { IfErr result (λ busy. (busy.unit ≡ unit.Turn) × (busy.word ≢ 0) × (self.new ≡ with_view self.old (refused self.old.pass.1 (turn_unit heap.now.1.pages) busy.word))) }
        ensures kept { IsMutatorOf D.Reader.content heap.now self.new }
    {
        match pm3_locks::take(&heap.shared, &mut self.pass, Unit::Turn) {
            Ok(Some(Value::Turn(turn))) => Ok(turn),
            Ok(_) => unreachable!(),
            Err(busy) => Err(busy),
        }
    }

    /// Gives the turn back without a commit.
    pub(crate) fn keep_turn(&mut self, heap: &Heap<D>, turn: Turn<D>)
        requires of { Belongs D.Reader.content heap.now self.old }
        requires held { holds_of self.old.pass.1.holds (turn_unit heap.now.1.pages) ≡ true }
        requires may { MayGive D.Disk heap.now.1 self.old.pass.1 (turn_state turn) [] [] }
        ensures ended { self.new ≡ with_view self.old (turned (turn_unit heap.now.1.pages) self.old.pass.1 [] [] (D.faults turn.journal.disk)) }
        ensures kept { Belongs D.Reader.content heap.now self.new }
    {
        give_turn(&heap.shared, &mut self.pass, Value::Turn(turn));
    }

    /// Gives the turn back with commits that join the history, and others that failed, also while pages are marked.
    pub(crate) fn give_back(&mut self, heap: &Heap<D>, turn: Turn<D>)
        ghost commits: { List Done × List Done }
        requires of { self.old.pass.0 ≡ heap.now.0 }
        requires held { holds_of self.old.pass.1.holds (turn_unit heap.now.1.pages) ≡ true }
        requires may { MayGive D.Disk heap.now.1 self.old.pass.1 (turn_state turn) commits.0 commits.1 }
        ensures ended { self.new ≡ with_view self.old (turned (turn_unit heap.now.1.pages) self.old.pass.1 commits.0 commits.1 (D.faults turn.journal.disk)) }
    {
        give_turn(&heap.shared, &mut self.pass, Value::Turn(turn));
    }

    /// Gives the turn back with commits that join the history, and others that failed. The entry and what was held tell
    /// clauses which commit it is.
    pub(crate) fn end_turn(
        &mut self,
        heap: &Heap<D>,
        turn: Turn<D>,
        _entry: &Entry,
        _parted: &Parted,
    )
        ghost commits: { List Done × List Done }
        requires of { Belongs D.Reader.content heap.now self.old }
        requires held { holds_of self.old.pass.1.holds (turn_unit heap.now.1.pages) ≡ true }
        requires may { MayGive D.Disk heap.now.1 self.old.pass.1 (turn_state turn) commits.0 commits.1 }
        ensures ended { self.new ≡ with_view self.old (turned (turn_unit heap.now.1.pages) self.old.pass.1 commits.0 commits.1 (D.faults turn.journal.disk)) }
        ensures kept { Belongs D.Reader.content heap.now self.new }
    {
        self.give_back(heap, turn);
    }

    /// Gives the turn back after an append that was refused. Where the journal's device failed, the commit of the entry failed.
    pub(crate) fn fail_turn(
        &mut self,
        heap: &Heap<D>,
        turn: Turn<D>,
        entry: &Entry,
        parted: &Parted,
        fault: AppendFault,
    )
        requires of { Belongs D.Reader.content heap.now self.old }
        requires held { holds_of self.old.pass.1.holds (turn_unit heap.now.1.pages) ≡ true }
        requires may { MayGive D.Disk heap.now.1 self.old.pass.1 (turn_state turn) [] (failed_by fault (done_by self.old.pass.1.row entry.now parted.now)) }
        ensures ended { self.new ≡ with_view self.old (turned (turn_unit heap.now.1.pages) self.old.pass.1 [] (failed_by fault (done_by self.old.pass.1.row entry.now parted.now)) (D.faults turn.journal.disk)) }
        ensures kept { Belongs D.Reader.content heap.now self.new }
    {
        match fault {
            AppendFault::JournalFault => self.end_turn(heap, turn, entry, parted),
            AppendFault::Full { limit: _ } => self.keep_turn(heap, turn),
            AppendFault::Stopped { seq: _ } => self.keep_turn(heap, turn),
        }
    }
}
