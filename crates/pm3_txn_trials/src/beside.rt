//! Two mutators count beside each other, each in a thread of its own.
ghost use Rattle.std.specs.Prelude.{◌≡◌};
ghost use Rattle.pm3_txn.specs.Underway.{Belongs, HoldsNothing};

use crate::closing::closed;
use crate::counting::{Refusal, count, count_up};
use crate::stores::{started, started_with};
use pm3_disk::Disk;
use pm3_journal::Receipt;
use pm3_txn::{AccessFault, CommitRefusal, Heap, Mutator};
use std::alloc::Global;
use std::sync::Wait;
use std::thread;
use std::thread::Threads;

/// Whether another mutator held what a transaction asked for.
fn is_busy(done: &Result<Receipt, Refusal>) -> bool {
    matches!(
        done,
        Err(Refusal::Access(AccessFault::Busy { .. }) | Refusal::Commit(CommitRefusal::Busy { .. }))
    )
}

/// Adds one to the word of the object under root 0, in a transaction that is begun again for as long as another mutator holds
/// what it asks for.
fn count_up_patiently<D: Disk, R: Wait>(
    rt: &R,
    heap: &Heap<D>,
    mutator: Mutator<D>,
    tag: u32,
) -> (Mutator<D>, Result<Receipt, Refusal>)
    requires of { Belongs D.Reader.content heap.now mutator }
    requires bare { HoldsNothing mutator }
    ensures belongs { Belongs D.Reader.content heap.now result.0 }
    ensures bare { HoldsNothing result.0 }
{
    let mut mutator = mutator;
    for _ in rt.forever() {
        let (next, done) = count_up(heap, mutator, tag);
        mutator = next;
        if !is_busy(&done) {
            return (mutator, done);
        }
    }
    unreachable!()
}

/// Does so a number of times, or until another refusal comes.
fn add_all<D: Disk, R: Wait>(
    rt: &R,
    heap: &Heap<D>,
    mutator: Mutator<D>,
    times: u32,
) -> (Mutator<D>, Result<(), Refusal>)
    requires of { Belongs D.Reader.content heap.now mutator }
    requires bare { HoldsNothing mutator }
    ensures belongs { Belongs D.Reader.content heap.now result.0 }
    ensures bare { HoldsNothing result.0 }
{
    let mut mutator = mutator;
    for tag in 0..times {
        let (next, done) = count_up_patiently(rt, heap, mutator, tag);
        mutator = next;
        if let Err(refusal) = done {
            return (mutator, Err(refusal));
        }
    }
    (mutator, Ok(()))
}

/// Two mutators do so beside each other, and then the second is joined back into the first.
pub fn add_beside<D: Disk + Send, R: Threads + Wait + Sync>(
    rt: &R,
    heap: &Heap<D>,
    first: Mutator<D>,
    second: Mutator<D>,
    times: u32,
) -> (Mutator<D>, [Result<(), Refusal>; 2])
where
    D::Reader: Send + Drop,
    requires of { Belongs D.Reader.content heap.now first }
    requires bare { HoldsNothing first }
    requires second { Belongs D.Reader.content heap.now second }
    requires free { HoldsNothing second }
    ensures belongs { Belongs D.Reader.content heap.now result.0 }
    ensures bare { HoldsNothing result.0 }
{
    let ((mut first, one), (second, other)) = thread::join(
        rt,
        move || -> (Mutator<D>, Result<(), Refusal>)
            requires of { Belongs D.Reader.content heap.now first }
            requires bare { HoldsNothing first }
            ensures belongs { Belongs D.Reader.content heap.entry.now result.0 }
            ensures bare { HoldsNothing result.0 }
        { add_all(rt, heap, first, times) },
        move || -> (Mutator<D>, Result<(), Refusal>)
            requires of { Belongs D.Reader.content heap.now second }
            requires bare { HoldsNothing second }
            ensures belongs { Belongs D.Reader.content heap.entry.now result.0 }
            ensures bare { HoldsNothing result.0 }
        { add_all(rt, heap, second, times) },
    );
    first.join_back(heap, second);
    (first, [one, other])
}

/// Opens a store, lets two mutators add beside each other, closes the heap and opens the store again. It tells how the two ended,
/// and what the word was before the closing and after it.
pub fn count_beside<D: Disk + Send + Drop, R: Threads + Wait + Sync>(
    rt: &R,
    alloc: Global,
    pages: D,
    journal: D,
    times: u32,
) -> Option<([Result<(), Refusal>; 2], [Result<u64, AccessFault>; 2])>
where
    D::Reader: Send + Drop,
{
    let (heap, mut first, reader) = started_with(alloc, pages, journal)?;
    let Ok(second) = first.fresh(&heap, reader) else {
        return None;
    };
    let (first, done) = add_beside(rt, &heap, first, second, times);
    let (first, word) = count(&heap, first);
    let (pages, journal) = closed(heap, first)?;
    let (heap, first) = started(alloc, pages, journal)?;
    let (_, later) = count(&heap, first);
    Some((done, [word, later]))
}
