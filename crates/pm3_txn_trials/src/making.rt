//! Objects that transactions make.
ghost use Rattle.std.specs.Prelude.{◌≡◌, ◌<◌};
ghost use Rattle.pm3_txn.specs.Underway.{Belongs, HoldsNothing};

use pm3_disk::Disk;
use pm3_txn::{AccessFault, Heap, Mutator, Txn};
use pm3_types::TypeNo;

/// Makes an object of a type, where there is such a type and it can have such a tail.
pub fn make<D: Disk>(
    txn: &mut Txn<'_, D>,
    ty: TypeNo,
    tail: u32,
    j: usize,
) -> Result<(), AccessFault>
    requires low { j < 512 }
    ensures { txn.new.heap ≡ txn.old.heap }
{
    if !txn.may_make(ty, tail) {
        return Err(AccessFault::NoSuchTail { ty, at: tail });
    }
    txn.make(ty, tail, j)
}

/// Makes an object of a type in a transaction that is given up.
pub fn make_once<D: Disk>(
    heap: &Heap<D>,
    mutator: Mutator<D>,
    ty: TypeNo,
) -> (Mutator<D>, Result<(), AccessFault>)
    requires of { Belongs D.Reader.content heap.now mutator }
    requires bare { HoldsNothing mutator }
    ensures belongs { Belongs D.Reader.content heap.now result.0 }
    ensures bare { HoldsNothing result.0 }
{
    let mut txn = mutator.begin(heap, 2);
    let made = make(&mut txn, ty, 0, 0);
    (txn.abort(), made)
}

/// The names of two objects that were made, and what was written in them and read back.
#[derive(Debug, PartialEq, Eq, Clone, Copy, Drop)]
pub struct Pair {
    pub names: [u64; 2],
    pub ty: TypeNo,
    pub blank: u64,
    pub word: u64,
    pub bytes: [u8; 5],
}

/// Makes an object of each type and links them, and reads them back by their references.
fn make_pair<D: Disk>(txn: &mut Txn<'_, D>) -> Result<Pair, AccessFault>
    ensures { txn.new.heap ≡ txn.old.heap }
{
    let mut bytes = [0u8; 5];
    make(txn, 0, 2, 0)?;
    make(txn, 1, 5, 1)?;
    let blank = txn.word(0, 0)?;
    txn.set_word(0, 0, 9)?;
    txn.set_tail_ref(0, 1, 1)?;
    txn.set_reference(1, 0, 0)?;
    txn.set_bytes(1, 0, b"hello")?;
    txn.tail_ref(0, 1, 2)?;
    txn.reference(2, 0, 3)?;
    txn.bytes(2, 0, &mut bytes)?;
    Ok(Pair {
        names: [txn.name_of(3)?, txn.name_of(2)?],
        ty: txn.type_of(2)?,
        blank,
        word: txn.word(3, 0)?,
        bytes,
    })
}

/// Does so in a transaction that is given up.
pub fn forgotten_pair<D: Disk>(
    heap: &Heap<D>,
    mutator: Mutator<D>,
) -> (Mutator<D>, Result<Pair, AccessFault>)
    requires of { Belongs D.Reader.content heap.now mutator }
    requires bare { HoldsNothing mutator }
    ensures belongs { Belongs D.Reader.content heap.now result.0 }
    ensures bare { HoldsNothing result.0 }
{
    let mut txn = mutator.begin(heap, 1);
    let pair = make_pair(&mut txn);
    (txn.abort(), pair)
}

/// Makes objects that fill a page each, until one is refused. It tells how many were made, and why the last one was not.
fn fill<D: Disk>(txn: &mut Txn<'_, D>) -> (u32, Result<(), AccessFault>)
    ensures { txn.new.heap ≡ txn.old.heap }
{
    for made in 0..100u32 {
        let done = make(txn, 0, 506, 0);
        if done.is_err() {
            return (made, done);
        }
    }
    (100, Ok(()))
}

/// Does so in a transaction that is given up.
pub fn filled<D: Disk>(
    heap: &Heap<D>,
    mutator: Mutator<D>,
) -> (Mutator<D>, (u32, Result<(), AccessFault>))
    requires of { Belongs D.Reader.content heap.now mutator }
    requires bare { HoldsNothing mutator }
    ensures belongs { Belongs D.Reader.content heap.now result.0 }
    ensures bare { HoldsNothing result.0 }
{
    let mut txn = mutator.begin(heap, 1);
    let seen = fill(&mut txn);
    (txn.abort(), seen)
}
