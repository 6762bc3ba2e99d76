//! The end of a transaction that commits.
ghost use Rattle.std.specs.Prelude.{◌≡◌, ℕ, ◌∷◌, [], true};
ghost use Rattle.pm3_access.specs.Parting.{joined};
ghost use Rattle.pm3_table.specs.Holds.{holds_of};
ghost use Rattle.pm3_table.specs.Ops.{gave};
ghost use Rattle.pm3_table.specs.Words.{turn_unit};
ghost use Rattle.pm3_txn.specs.Aborting.{HasCleared, was_written};
ghost use Rattle.pm3_txn.specs.Committing.{HasFailed, HasGivenTurn, IsParted, MayGive, done_by, end_of, failed_by};
ghost use Rattle.pm3_txn.specs.Slots.{turn_state};
ghost use Rattle.pm3_txn.specs.Underway.{Belongs, HoldsNothing, IsUnder};

use crate::aborting::{give_all, restored};
use crate::commit_fault::CommitEnd;
use crate::heap::Heap;
use crate::mutator::Mutator;
use crate::values::Turn;
use pm3_access::{Parted, Undone};
use pm3_disk::Disk;
use pm3_journal::{AppendFault, Entry};
use pm3_page::PageSet;
use pm3_table::Limit;

/// Ends a transaction whose entry the journal has: the turn goes back with its commit, and each page as it is now.
pub(crate) fn concluded<D: Disk>(
    heap: &Heap<D>,
    mutator: Mutator<D>,
    turn: Turn<D>,
    entry: &Entry,
    parted: Parted,
) -> Mutator<D>
    requires of { Belongs D.Reader.content heap.now mutator }
    requires held { holds_of mutator.pass.1.holds (turn_unit heap.now.1.pages) ≡ true }
    requires under { IsUnder heap.now.1 (gave mutator.pass.1 (turn_unit heap.now.1.pages)) (joined parted) }
    requires parted { IsParted parted }
    requires may { MayGive D.Disk heap.now.1 mutator.pass.1 (turn_state turn) (done_by mutator.pass.1.row entry.now parted ∷ []) [] }
    ensures given { HasGivenTurn mutator result (done_by mutator.pass.1.row entry.now parted ∷ []) [] (D.faults turn.journal.disk) }
    ensures bare { HoldsNothing result }
    ensures kept { Belongs D.Reader.content heap.now result }
{
    let mut mutator = mutator;
    mutator.end_turn(heap, turn, entry, &parted);
    let freed = PageSet::new(mutator.allocator());
    let Undone {
        pages,
        written,
        space: _,
    } = parted.finish(&freed);
    give_all(&mut mutator, heap, pages);
    give_all(&mut mutator, heap, written);
    mutator
}

/// Ends a transaction whose append was refused, as an abort does. Where the journal's device failed its commit is kept as failed.
pub(crate) fn failed<D: Disk>(
    heap: &Heap<D>,
    mutator: Mutator<D>,
    turn: Turn<D>,
    entry: &Entry,
    parted: Parted,
    fault: AppendFault,
) -> Mutator<D>
    requires of { Belongs D.Reader.content heap.now mutator }
    requires held { holds_of mutator.pass.1.holds (turn_unit heap.now.1.pages) ≡ true }
    requires under { IsUnder heap.now.1 (gave mutator.pass.1 (turn_unit heap.now.1.pages)) (joined parted) }
    requires may { MayGive D.Disk heap.now.1 mutator.pass.1 (turn_state turn) [] (failed_by fault (done_by mutator.pass.1.row entry.now parted)) }
    ensures failed { HasFailed mutator result (failed_by fault (done_by mutator.pass.1.row entry.now parted)) }
    ensures heard { result.pass.1.faults ≡ D.faults turn.journal.disk }
    ensures bare { HoldsNothing result }
    ensures kept { Belongs D.Reader.content heap.now result }
{
    let mut mutator = mutator;
    mutator.fail_turn(heap, turn, entry, &parted, fault);
    restored(heap, mutator, parted.undo())
}

impl CommitEnd {
    /// The end of a commit whose append was refused.
    pub(crate) fn of_append(fault: AppendFault) -> CommitEnd
        ensures { result ≡ end_of fault }
    {
        match fault {
            AppendFault::Stopped { seq } => CommitEnd::Stopped { seq },
            AppendFault::Full { limit } => CommitEnd::Full {
                what: Limit::Journal,
                limit,
            },
            AppendFault::JournalFault => CommitEnd::JournalFault,
        }
    }
}
