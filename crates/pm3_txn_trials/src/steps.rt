//! Transactions as lists of calls.
ghost use Rattle.std.specs.Prelude.{◌≡◌, IfSome};
ghost use Rattle.pm3_txn.specs.Underway.{Belongs, HoldsNothing};

use crate::closing::closed;
use crate::counting::{Refusal, ended};
use crate::making::make;
use crate::stores::started;
use pm3_disk::Disk;
use pm3_journal::Receipt;
use pm3_txn::{AccessFault, Heap, Mutator, Txn};
use std::alloc::Global;

/// The class of the objects: a reference, and a tail of bytes.
const CHUNK: u16 = 8;

/// A call of a transaction. Places are those of the row.
#[derive(Debug, PartialEq, Eq, Clone, Copy, Drop)]
pub enum Step {
    /// Makes an object with so many bytes.
    Make { tail: u32, at: u8 },
    /// Puts an object under root 0.
    Root { at: u8 },
    /// Takes the object under root 0.
    Look { at: u8 },
    /// Lets an object refer to another.
    Link { at: u8, to: u8 },
    /// Takes the object to which another refers.
    Follow { at: u8, to: u8 },
    /// Makes a place nil.
    Clear { at: u8 },
    /// Puts a number in a place.
    Number { at: u8, word: u64 },
}

fn make_call<D: Disk>(txn: &mut Txn<'_, D>, call: Step) -> Result<(), AccessFault>
    ensures { txn.new.heap ≡ txn.old.heap }
{
    match call {
        Step::Make { tail, at } => make(txn, CHUNK, tail, usize::from(at)),
        Step::Root { at } => txn.set_root(0, usize::from(at)),
        Step::Look { at } => txn.root(0, usize::from(at)),
        Step::Link { at, to } => txn.set_reference(usize::from(at), 0, usize::from(to)),
        Step::Follow { at, to } => txn.reference(usize::from(at), 0, usize::from(to)),
        Step::Clear { at } => {
            txn.clear(usize::from(at));
            Ok(())
        }
        Step::Number { at, word } => match txn.put_number(usize::from(at), word) {
            Ok(()) => Ok(()),
            Err(busy) => Err(AccessFault::Busy {
                unit: busy.unit,
                word: busy.word,
            }),
        },
    }
}

/// Makes the calls in turn, until one is refused.
fn make_calls<D: Disk>(txn: &mut Txn<'_, D>, steps: &[Step]) -> Result<(), AccessFault>
    ensures { txn.new.heap ≡ txn.old.heap }
{
    for call in steps {
        let done = make_call(txn, *call);
        if done.is_err() {
            return done;
        }
    }
    Ok(())
}

/// Makes the calls in a transaction that commits, or is aborted where a call is refused.
pub fn performed<D: Disk>(
    heap: &Heap<D>,
    mutator: Mutator<D>,
    tag: u32,
    steps: &[Step],
) -> (Mutator<D>, Result<Receipt, Refusal>)
    requires of { Belongs D.Reader.content heap.now mutator }
    requires bare { HoldsNothing mutator }
    ensures belongs { Belongs D.Reader.content heap.now result.0 }
    ensures bare { HoldsNothing result.0 }
{
    let mut txn = mutator.begin(heap, tag);
    match make_calls(&mut txn, steps) {
        Ok(()) => ended(txn),
        Err(fault) => (txn.abort(), Err(Refusal::Access(fault))),
    }
}

/// Makes the calls in a transaction that is given up. It tells the word of a place then, and the name of the object there.
pub fn seen<D: Disk>(
    heap: &Heap<D>,
    mutator: Mutator<D>,
    steps: &[Step],
    at: u8,
) -> (Mutator<D>, Result<(u64, u64), AccessFault>)
    requires of { Belongs D.Reader.content heap.now mutator }
    requires bare { HoldsNothing mutator }
    ensures belongs { Belongs D.Reader.content heap.now result.0 }
    ensures bare { HoldsNothing result.0 }
{
    let mut txn = mutator.begin(heap, 0);
    let seen = word_and_name(&mut txn, steps, at);
    (txn.abort(), seen)
}

fn word_and_name<D: Disk>(
    txn: &mut Txn<'_, D>,
    steps: &[Step],
    at: u8,
) -> Result<(u64, u64), AccessFault>
    ensures { txn.new.heap ≡ txn.old.heap }
{
    make_calls(txn, steps)?;
    let word = txn.stack_word(usize::from(at));
    Ok((word, txn.name_of(usize::from(at))?))
}

/// How a transaction ended.
pub type End = Result<Receipt, Refusal>;

/// Makes each list of calls in a transaction of its own, with the tags from 1 on.
fn perform_each<D: Disk>(
    heap: &Heap<D>,
    mutator: Mutator<D>,
    lists: &[&[Step]],
    ends: &mut Vec<End>,
) -> Mutator<D>
    requires of { Belongs D.Reader.content heap.now mutator }
    requires bare { HoldsNothing mutator }
    ensures belongs { Belongs D.Reader.content heap.now result }
    ensures bare { HoldsNothing result }
{
    let mut mutator = mutator;
    let mut tag = 1u32;
    for steps in lists {
        let (next, done) = performed(heap, mutator, tag, steps);
        mutator = next;
        let _ = ends.push(done);
        tag = tag.wrapping_add(1);
    }
    mutator
}

/// Opens a store, makes each list of calls in a transaction, and closes it. It tells how they ended, and gives the devices back.
pub fn performed_all<D: Disk + Drop>(
    alloc: Global,
    pages: D,
    journal: D,
    lists: &[&[Step]],
) -> Option<(Vec<End>, D, D)>
where
    D::Reader: Drop,
{
    let mut ends = Vec::new(alloc);
    let (heap, first) = started(alloc, pages, journal)?;
    let first = perform_each(&heap, first, lists, &mut ends);
    let (pages, journal) = closed(heap, first)?;
    Some((ends, pages, journal))
}

/// Does so without closing it, and then tells of a place what `seen` does.
pub fn seen_after<D: Disk + Drop>(
    alloc: Global,
    pages: D,
    journal: D,
    lists: &[&[Step]],
    steps: &[Step],
    at: u8,
) -> Option<Result<(u64, u64), AccessFault>>
where
    D::Reader: Drop,
{
    let mut ends = Vec::new(alloc);
    let (heap, first) = started(alloc, pages, journal)?;
    let first = perform_each(&heap, first, lists, &mut ends);
    let (_, seen) = seen(&heap, first, steps, at);
    Some(seen)
}
