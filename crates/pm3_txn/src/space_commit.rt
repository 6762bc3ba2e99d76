//! The commit of a transaction that holds its space.
ghost use Rattle.std.specs.Prelude.{◌≡◌, ℕ, false, IfOk, IfErr};
ghost use Rattle.std.specs.FinSet as set;
ghost use Rattle.pm3_access.specs.declared.parted.Parted.{Parted as Parts};
ghost use Rattle.pm3_access.specs.Parting.{joined};
ghost use Rattle.pm3_access.specs.Parts.{HasRoomFor};
ghost use Rattle.pm3_history.specs.Entry.{Done};
ghost use Rattle.pm3_table.specs.Deeds.{marks_of};
ghost use Rattle.pm3_txn.specs.declared.prepared.Prepared.{Prepared as Ready};
ghost use Rattle.pm3_txn.specs.CarriedPass.{Carried};
ghost use Rattle.pm3_txn.specs.Committing.{IsParted};
ghost use Rattle.pm3_txn.specs.PassEnding.{HasLeft, IsPassCommit};
ghost use Rattle.pm3_txn.specs.PassSteps.{IsPassing, IsPlanned};
ghost use Rattle.pm3_txn.specs.Slots.{turn_state};
ghost use Rattle.pm3_txn.specs.SpaceCommits.{HasAppended, HasCommittedSpace, HasTurnValue, IsAppendFault, IsSpaceEnd, IsSpaceFault, MayAppend};
ghost use Rattle.pm3_txn.specs.Underway.{Belongs, HoldsNothing};

use crate::carrying::carry;
use crate::commit_fault::{CommitEnd, CommitFault};
use crate::ending::{pass_failed, passed};
use crate::heap::Heap;
use crate::laws::pass_law;
use crate::mutator::Mutator;
use crate::passing::prepare;
use crate::prepared::Prepared;
use crate::transaction::Txn;
use crate::values::Turn;
use pm3_access::{Held, Parted};
use pm3_copy::Report;
use pm3_disk::Disk;
use pm3_journal::{Entry, Receipt};
use pm3_page::PageSet;

/// Commits what a mutator holds that has the turn, with its space.
pub(crate) fn commit_space<'h, D: Disk>(
    heap: &'h Heap<D>,
    mutator: Mutator<D>,
    turn: Turn<D>,
    held: Held,
    tag: u32,
) -> Result<(Mutator<D>, Receipt), CommitFault<'h, D>>
    requires ready { IsPassing D.Reader.content heap.now mutator held }
    requires bare { (p : ℕ) → marks_of mutator.pass.1.log p ≡ false }
    requires value { HasTurnValue D.Disk heap.now.1 mutator.pass.1 (turn_state turn) }
    ensures committed { IfOk result (λ done. HasCommittedSpace heap.now.1 held tag (turn_state turn) mutator done.0 done.1) }
    ensures bare { IfOk result (λ done. HoldsNothing done.0) }
    ensures belongs { IfOk result (λ done. Belongs D.Reader.content heap.now done.0) }
    ensures fault { IfErr result (λ fault. IsSpaceFault D.Reader.content heap.now held tag (turn_state turn) mutator fault) }
{
    heap.page_count();
    let mut mutator = mutator;
    let mut turn = turn;
    let Ok(mut parted) = held.part() else {
        unreachable!()
    };
    match prepare(heap, &mut mutator, &mut turn, &mut parted) {
        Ok(prepared) => carried(heap, mutator, turn, parted, prepared, tag),
        Err(cause) => {
            mutator.give_back(heap, turn);
            Err(CommitFault::Refused {
                cause,
                txn: Txn {
                    heap,
                    mutator,
                    held: parted.rejoin(),
                    tag,
                },
            })
        }
    }
}

/// Carries out a pass that was prepared, and appends its entry. What the parts and the pass were before it tells clauses which commit it
/// is.
fn carried<'h, D: Disk>(
    heap: &'h Heap<D>,
    mutator: Mutator<D>,
    turn: Turn<D>,
    parted: Parted,
    prepared: Prepared,
    tag: u32,
) -> Result<(Mutator<D>, Receipt), CommitFault<'h, D>>
    ghost before: { Parts × Ready }
    requires before { (before.0 ≡ parted) × (before.1 ≡ prepared) }
    requires ready { IsPassing D.Reader.content heap.now mutator (joined parted) }
    requires parted { IsParted parted }
    requires value { HasTurnValue D.Disk heap.now.1 mutator.pass.1 (turn_state turn) }
    requires planned { IsPlanned heap.now.1 mutator parted turn.journal.room prepared }
    ensures committed { IfOk result (λ done. HasCommittedSpace heap.now.1 (joined parted) tag (turn_state turn) mutator done.0 done.1) }
    ensures bare { IfOk result (λ done. HoldsNothing done.0) }
    ensures belongs { IfOk result (λ done. Belongs D.Reader.content heap.now done.0) }
    ensures fault { IfErr result (λ fault. IsSpaceEnd D.Reader.content heap.now (joined parted) tag (turn_state turn) mutator fault) }
{
    heap.page_count();
    pass_law();
    pm3_graph::frame_of_runs();
    let mut parted = parted;
    let (pins, report, entry) = carry(heap, &mutator, &turn, &mut parted, prepared, tag);
    appended(heap, mutator, turn, parted, pins, report, entry)
}

/// Appends the entry of a pass that was carried out, and ends the transaction.
fn appended<'h, D: Disk>(
    heap: &'h Heap<D>,
    mutator: Mutator<D>,
    turn: Turn<D>,
    parted: Parted,
    pins: PageSet,
    report: Report,
    entry: Entry,
) -> Result<(Mutator<D>, Receipt), CommitFault<'h, D>>
    ghost commit: { Done }
    requires commit { (c : Carried) × IsPassCommit D.Reader.content heap.now mutator c commit × HasLeft c parted pins report.promoted report.freed }
    requires value { HasTurnValue D.Disk heap.now.1 mutator.pass.1 (turn_state turn) }
    requires append { MayAppend heap.now.1 mutator.next_name entry.tag (turn_state turn) parted entry commit }
    requires room { HasRoomFor parted.rest.space (set.len report.freed) }
    ensures appended { IfOk result (λ done. HasAppended (turn_state turn) mutator done.0 commit done.1) }
    ensures bare { IfOk result (λ done. HoldsNothing done.0) }
    ensures belongs { IfOk result (λ done. Belongs D.Reader.content heap.now done.0) }
    ensures fault { IfErr result (λ fault. IsAppendFault D.Reader.content heap.now (turn_state turn) mutator commit fault) }
{
    heap.page_count();
    pass_law();
    let mut turn = turn;
    turn.journal.next();
    match turn.journal.append(&entry) {
        Ok(receipt) => {
            turn.next_name = entry.next_name;
            turn.high_page = entry.high_page;
            let mutator = passed(heap, mutator, turn, parted, pins, report, &entry);
            Ok((mutator, receipt))
        }
        Err(fault) => {
            let mutator = pass_failed(heap, mutator, turn, parted, pins, report, &entry, fault);
            Err(CommitFault::Ended {
                cause: CommitEnd::of_append(fault),
                mutator,
            })
        }
    }
}
