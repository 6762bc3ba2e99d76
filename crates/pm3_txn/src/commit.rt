//! A transaction commits.
ghost use Rattle.std.specs.Prelude.{◌≡◌, IfOk, IfErr};
ghost use Rattle.pm3_txn.specs.Commits.{HasCommitted, IsCommitFault, IsOverHeap};
ghost use Rattle.pm3_txn.specs.Committing.{HasRecorded, HasTurn, IsFaultOf};
ghost use Rattle.pm3_txn.specs.Slots.{turn_state};
ghost use Rattle.pm3_txn.specs.Underway.{Belongs, HoldsNothing};

use crate::commit_fault::{CommitEnd, CommitFault, CommitRefusal};
use crate::concluding::{concluded, failed};
use crate::heap::Heap;
use crate::mutator::Mutator;
use crate::recording::entry_for;
use crate::space_commit::commit_space;
use crate::transaction::Txn;
use crate::values::Turn;
use pm3_access::Held;
use pm3_disk::Disk;
use pm3_journal::Receipt;

impl<'h, D: Disk> Txn<'h, D> {
    /// Ends the transaction, and makes what it wrote last: from the receipt on each opening of the store finds it. Its
    /// operations then happened at once, behind those of all commits before.
    ///
    /// Where the transaction holds its space, what a root reaches becomes persistent, and what else a word of a row may refer to
    /// stays in the space (the mostly-copying pass of Bartlett). The receipt tells how many pages such words pinned, and how many
    /// objects moved.
    ///
    /// A refusal leaves the transaction as it was, but for more free pages of its space, and it may be tried again: `Busy` while
    /// another mutator commits, `Full` where the store has too few pages left, `Later` where a reference of the row leads to an
    /// object that would stay in the space: clear the place. Where the commit fails its transaction has ended as by an abort. After
    /// `JournalFault` nobody knows whether the record is in the journal, and no further commit is taken.
    pub fn commit(self) -> Result<(Mutator<D>, Receipt), CommitFault<'h, D>>
        ensures committed { IfOk result (λ done. HasCommitted self.entry done.0 done.1) }
        ensures bare { IfOk result (λ done. HoldsNothing done.0) }
        ensures belongs { IfOk result (λ done. Belongs D.Reader.content self.entry.heap done.0) }
        ensures fault { IfErr result (λ fault. IsCommitFault D.Reader.content self.entry fault) }
        ensures heap { IfErr result (IsOverHeap self.entry.heap) }
    {
        let Txn {
            heap,
            mutator,
            held,
            tag,
        } = self;
        heap.page_count();
        let mut mutator = mutator;
        match mutator.take_turn(heap) {
            Ok(turn) => {
                if held.has_space() {
                    commit_space(heap, mutator, turn, held, tag)
                } else {
                    commit_with(heap, mutator, turn, held, tag)
                }
            }
            Err(busy) => Err(CommitFault::Refused {
                cause: CommitRefusal::Busy {
                    unit: busy.unit,
                    word: busy.word,
                },
                txn: Txn {
                    heap,
                    mutator,
                    held,
                    tag,
                },
            }),
        }
    }
}

/// Commits what a mutator holds that has the turn.
fn commit_with<'h, D: Disk>(
    heap: &'h Heap<D>,
    mutator: Mutator<D>,
    turn: Turn<D>,
    held: Held,
    tag: u32,
) -> Result<(Mutator<D>, Receipt), CommitFault<'h, D>>
    requires ready { HasTurn D.Disk D.Reader.content heap.now mutator (turn_state turn) held }
    ensures recorded { IfOk result (λ done. HasRecorded heap.now.1 held tag (turn_state turn) mutator done.0 done.1) }
    ensures bare { IfOk result (λ done. HoldsNothing done.0) }
    ensures belongs { IfOk result (λ done. Belongs D.Reader.content heap.now done.0) }
    ensures fault { IfErr result (λ fault. IsFaultOf D.Reader.content heap.now held tag (turn_state turn) mutator fault) }
{
    heap.page_count();
    pm3_graph::frame_of_runs();
    let mut mutator = mutator;
    let mut turn = turn;
    let Ok(parted) = held.part() else {
        unreachable!()
    };
    let made = entry_for(
        mutator.allocator(),
        &heap.catalog,
        &mut turn,
        tag,
        &parted.written,
    );
    let Ok(entry) = made else {
        mutator.keep_turn(heap, turn);
        return Err(CommitFault::Refused {
            cause: CommitRefusal::Memory,
            txn: Txn {
                heap,
                mutator,
                held: parted.rejoin(),
                tag,
            },
        });
    };
    turn.journal.next();
    match turn.journal.append(&entry) {
        Ok(receipt) => {
            turn.next_name = entry.next_name;
            turn.high_page = entry.high_page;
            Ok((concluded(heap, mutator, turn, &entry, parted), receipt))
        }
        Err(fault) => Err(CommitFault::Ended {
            cause: CommitEnd::of_append(fault),
            mutator: failed(heap, mutator, turn, &entry, parted, fault),
        }),
    }
}
