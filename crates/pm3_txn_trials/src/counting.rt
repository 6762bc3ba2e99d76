//! Transactions that count.
ghost use Rattle.std.specs.Prelude.{◌≡◌};
ghost use Rattle.pm3_txn.specs.Underway.{Belongs, HoldsNothing};

use pm3_disk::Disk;
use pm3_journal::Receipt;
use pm3_txn::{AccessFault, CommitEnd, CommitFault, CommitRefusal, Heap, Mutator, Txn};

/// Why a transaction was refused.
#[derive(Debug, PartialEq, Eq, Clone, Copy, Drop)]
pub enum Refusal {
    Access(AccessFault),
    Commit(CommitRefusal),
    End(CommitEnd),
}

/// Adds one to the word of the object under root 0.
fn add_one<D: Disk>(txn: &mut Txn<'_, D>) -> Result<(), AccessFault>
    ensures { txn.new.heap ≡ txn.old.heap }
{
    txn.root(0, 0)?;
    let word = txn.word(0, 0)?;
    txn.set_word(0, 0, word.wrapping_add(1))
}

/// The end of a transaction: it commits, or is aborted where that is refused.
pub fn ended<D: Disk>(txn: Txn<'_, D>) -> (Mutator<D>, Result<Receipt, Refusal>)
    ensures belongs { Belongs D.Reader.content txn.entry.heap result.0 }
    ensures bare { HoldsNothing result.0 }
{
    match txn.commit() {
        Ok((mutator, receipt)) => (mutator, Ok(receipt)),
        Err(CommitFault::Refused { cause, txn }) => (txn.abort(), Err(Refusal::Commit(cause))),
        Err(CommitFault::Ended { cause, mutator }) => (mutator, Err(Refusal::End(cause))),
    }
}

/// Adds one to the word of the object under root 0, in a transaction of its own.
pub fn count_up<D: Disk>(
    heap: &Heap<D>,
    mutator: Mutator<D>,
    tag: u32,
) -> (Mutator<D>, Result<Receipt, Refusal>)
    requires of { Belongs D.Reader.content heap.now mutator }
    requires bare { HoldsNothing mutator }
    ensures belongs { Belongs D.Reader.content heap.now result.0 }
    ensures bare { HoldsNothing result.0 }
{
    let mut txn = mutator.begin(heap, tag);
    match add_one(&mut txn) {
        Ok(()) => ended(txn),
        Err(fault) => (txn.abort(), Err(Refusal::Access(fault))),
    }
}

/// Does so a number of times. It tells how often it was refused.
pub fn add_up<D: Disk>(heap: &Heap<D>, mutator: Mutator<D>, times: u32) -> (Mutator<D>, u32)
    requires of { Belongs D.Reader.content heap.now mutator }
    requires bare { HoldsNothing mutator }
    ensures belongs { Belongs D.Reader.content heap.now result.0 }
    ensures bare { HoldsNothing result.0 }
{
    let mut mutator = mutator;
    let mut refused = 0;
    for n in 0..times {
        let (next, done) = count_up(heap, mutator, n);
        mutator = next;
        if done.is_err() {
            refused += 1;
        }
    }
    (mutator, refused)
}

/// The word of the object under root 0.
pub fn count<D: Disk>(heap: &Heap<D>, mutator: Mutator<D>) -> (Mutator<D>, Result<u64, AccessFault>)
    requires of { Belongs D.Reader.content heap.now mutator }
    requires bare { HoldsNothing mutator }
    ensures belongs { Belongs D.Reader.content heap.now result.0 }
    ensures bare { HoldsNothing result.0 }
{
    let mut txn = mutator.begin(heap, 9);
    let word = read_count(&mut txn);
    (txn.abort(), word)
}

pub(crate) fn read_count<D: Disk>(txn: &mut Txn<'_, D>) -> Result<u64, AccessFault>
    ensures { txn.new.heap ≡ txn.old.heap }
{
    txn.root(0, 0)?;
    txn.word(0, 0)
}
