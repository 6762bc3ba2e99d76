//! The end of a commit whose pass was carried out.
ghost use Rattle.std.specs.Prelude.{◌≡◌, ◌≤◌, ◌++◌, List, [], ◌∷◌};
ghost use Rattle.std.specs.FinSet as set;
ghost use Rattle.pm3_access.specs.Parts.{HasRoomFor};
ghost use Rattle.pm3_history.specs.Entry.{Done};
ghost use Rattle.pm3_table.specs.Words.{turn_unit};
ghost use Rattle.pm3_txn.specs.CarriedPass.{Carried};
ghost use Rattle.pm3_txn.specs.Committing.{MayGive};
ghost use Rattle.pm3_txn.specs.PassEnding.{HasCarried, HasEndedPass, HasFailedPass, HasGivenPass, HasLeft, IsPassCommit};
ghost use Rattle.pm3_txn.specs.PassEnds.{is_promoted};
ghost use Rattle.pm3_txn.specs.Slots.{turn_state};
ghost use Rattle.pm3_txn.specs.Underway.{Belongs, HoldsNothing};
ghost use Rattle.pm3_txn.specs.Values.{IsTurnOf};

use crate::aborting::{give_undone, restored};
use crate::heap::Heap;
use crate::laws::pass_law;
use crate::mutator::Mutator;
use crate::settling::{promote_all, unmark_others};
use crate::values::Turn;
use pm3_access::Parted;
use pm3_copy::{Report, quiet_law};
use pm3_disk::Disk;
use pm3_journal::{AppendFault, Entry};
use pm3_page::PageSet;

/// Ends a transaction whose pass was carried out and whose entry the journal has: the pages that the pass promoted become persistent, the
/// turn goes back with the commit, the marks are taken off, and each page and the space go back as they are now. The entry tells clauses
/// which commit it is.
pub(crate) fn passed<D: Disk>(
    heap: &Heap<D>,
    mutator: Mutator<D>,
    turn: Turn<D>,
    parted: Parted,
    pins: PageSet,
    report: Report,
    _entry: &Entry,
) -> Mutator<D>
    ghost commit: { Done }
    requires commit { (c : Carried) × IsPassCommit D.Reader.content heap.now mutator c commit × HasLeft c parted pins report.promoted report.freed }
    requires good { IsTurnOf D.Disk heap.now.1 mutator.pass.1.lost (mutator.pass.1.seen ++ commit ∷ []) (turn_unit heap.now.1.pages) (turn_state turn) }
    requires heard { (mutator.pass.1.faults ≤ D.faults turn.journal.disk) × (mutator.pass.1.lost ≡ []) }
    requires room { HasRoomFor parted.rest.space (set.len report.freed) }
    ensures given { HasGivenPass mutator result (commit ∷ []) [] (D.faults turn.journal.disk) }
    ensures bare { HoldsNothing result }
    ensures kept { Belongs D.Reader.content heap.now result }
{
    quiet_law();
    let mut mutator = mutator;
    end_pass(heap, &mut mutator, turn, &parted, &pins, &report);
    give_undone(heap, mutator, parted.finish(&report.freed))
}

/// Settles as persistent the pages that the pass promoted, gives the turn back with the commit, and takes the other marks off.
fn end_pass<D: Disk>(
    heap: &Heap<D>,
    mutator: &mut Mutator<D>,
    turn: Turn<D>,
    parted: &Parted,
    pins: &PageSet,
    report: &Report,
)
    ghost commit: { Done }
    requires commit { (c : Carried) × IsPassCommit D.Reader.content heap.now mutator.old c commit × HasLeft c parted.now pins.now report.now.promoted report.now.freed }
    requires good { IsTurnOf D.Disk heap.now.1 mutator.old.pass.1.lost (mutator.old.pass.1.seen ++ commit ∷ []) (turn_unit heap.now.1.pages) (turn_state turn) }
    requires heard { (mutator.old.pass.1.faults ≤ D.faults turn.journal.disk) × (mutator.old.pass.1.lost ≡ []) }
    ensures ended { HasEndedPass heap.now.1 mutator.old mutator.new (is_promoted parted.now) commit (D.faults turn.journal.disk) }
    ensures kept { Belongs D.Reader.content heap.now mutator.new }
{
    heap.page_count();
    pass_law();
    quiet_law();
    let none = PageSet::new(mutator.allocator());
    promote_all(mutator, heap, parted);
    mutator.give_back(heap, turn);
    unmark_others(mutator, heap, &report.freed, &none);
    unmark_others(mutator, heap, pins, &report.promoted);
}

/// Ends a transaction whose pass was carried out and whose append was refused, as an abort does. The entry and the fault tell clauses which
/// commit failed, if one did.
pub(crate) fn pass_failed<D: Disk>(
    heap: &Heap<D>,
    mutator: Mutator<D>,
    turn: Turn<D>,
    parted: Parted,
    pins: PageSet,
    report: Report,
    _entry: &Entry,
    _fault: AppendFault,
) -> Mutator<D>
    ghost failed: { List Done }
    requires carried { (c : Carried) × HasCarried D.Reader.content heap.now mutator c × HasLeft c parted pins report.promoted report.freed }
    requires may { MayGive D.Disk heap.now.1 mutator.pass.1 (turn_state turn) [] failed }
    ensures failed { HasFailedPass mutator result failed }
    ensures heard { result.pass.1.faults ≡ D.faults turn.journal.disk }
    ensures bare { HoldsNothing result }
    ensures kept { Belongs D.Reader.content heap.now result }
{
    heap.page_count();
    let none = PageSet::new(mutator.allocator());
    let mut mutator = mutator;
    unmark_others(&mut mutator, heap, &report.freed, &none);
    unmark_others(&mut mutator, heap, &pins, &none);
    mutator.give_back(heap, turn);
    restored(heap, mutator, parted.undo())
}
