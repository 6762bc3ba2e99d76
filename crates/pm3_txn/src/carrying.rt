//! The pass of a commit is carried out.
ghost use Rattle.std.specs.Prelude.{◌≡◌};
ghost use Rattle.std.specs.FinSet as set;
ghost use Rattle.pm3_access.specs.Parting.{joined};
ghost use Rattle.pm3_access.specs.Parts.{HasRoomFor};
ghost use Rattle.pm3_txn.specs.Committing.{IsParted};
ghost use Rattle.pm3_txn.specs.PassEnding.{HasLeft, IsPassCommit};
ghost use Rattle.pm3_txn.specs.PassSteps.{IsPassing, IsPlanned};
ghost use Rattle.pm3_txn.specs.Slots.{turn_state};
ghost use Rattle.pm3_txn.specs.SpaceCommits.{HasTurnValue, MayAppend, carried_of, commit_of};

use crate::heap::Heap;
use crate::mutator::Mutator;
use crate::prepared::Prepared;
use crate::recording::entry_of_pass;
use crate::values::Turn;
use pm3_access::Parted;
use pm3_copy::{Report, carry_out};
use pm3_disk::Disk;
use pm3_journal::Entry;
use pm3_page::PageSet;

/// Carries a pass out that was prepared, and makes the entry of its commit. It takes no memory. It answers the pinned pages, what the
/// pass reports, and the entry.
pub(crate) fn carry<D: Disk>(
    heap: &Heap<D>,
    mutator: &Mutator<D>,
    turn: &Turn<D>,
    parted: &mut Parted,
    prepared: Prepared,
    tag: u32,
) -> (PageSet, Report, Entry)
    requires ready { IsPassing D.Reader.content heap.now mutator.now (joined parted.old) }
    requires parted { IsParted parted.old }
    requires value { HasTurnValue D.Disk heap.now.1 mutator.now.pass.1 (turn_state turn.now) }
    requires planned { IsPlanned heap.now.1 mutator.now parted.old turn.now.journal.room prepared }
    ensures commit { IsPassCommit D.Reader.content heap.now mutator.now (carried_of parted.old prepared mutator.now.pass.1.log parted.new) (commit_of heap.now.1 mutator.now parted.old prepared parted.new result.2) }
    ensures left { HasLeft (carried_of parted.old prepared mutator.now.pass.1.log parted.new) parted.new result.0 result.1.promoted result.1.freed }
    ensures append { MayAppend heap.now.1 mutator.now.next_name tag (turn_state turn.now) parted.new result.2 (commit_of heap.now.1 mutator.now parted.old prepared parted.new result.2) }
    ensures room { HasRoomFor parted.new.rest.space (set.len result.1.freed) }
{
    heap.page_count();
    let Prepared {
        plan,
        pins,
        fresh,
        pages,
    } = prepared;
    let report = carry_out(
        plan,
        &heap.catalog,
        &mut parted.volatile,
        &mut parted.written,
        fresh,
    );
    let entry = entry_of_pass(
        &heap.catalog,
        turn,
        tag,
        mutator.next_name,
        &parted.written,
        pages,
        report.pins,
        report.moved,
    );
    (pins, report, entry)
}
