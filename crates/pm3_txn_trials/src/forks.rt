//! Mutators that share a row's words and a space.
ghost use Rattle.std.specs.Prelude.{◌≡◌, IfOk};
ghost use Rattle.pm3_txn.specs.Underway.{Belongs, HoldsNothing};

use crate::making::{make, make_once};
use pm3_disk::Disk;
use pm3_txn::{AccessFault, ForkFault, FreshFault, Heap, Mutator, Tag};

/// Makes another mutator, of the same group or of its own.
fn another<D: Disk>(
    heap: &Heap<D>,
    first: &mut Mutator<D>,
    reader: D::Reader,
    of_group: bool,
) -> Result<Mutator<D>, (ForkFault, D::Reader)>
    requires of { Belongs D.Reader.content heap.now first.old }
    requires reads { D.Reader.content reader ≡ heap.now.1.opening.file }
    ensures belongs { IfOk result (λ made. Belongs D.Reader.content heap.now made) }
    ensures bare { IfOk result HoldsNothing }
    ensures reader { IfOk result (λ made. made.reader ≡ reader) }
    ensures kept { Belongs D.Reader.content heap.now first.new }
{
    if of_group {
        return first.fork(heap, reader);
    }
    match first.fresh(heap, reader) {
        Ok(made) => Ok(made),
        Err((FreshFault::Full { what, limit }, reader)) => {
            Err((ForkFault::Full { what, limit }, reader))
        }
        Err((FreshFault::Memory, reader)) => Err((ForkFault::Memory, reader)),
    }
}

/// Makes another mutator as often as asked, and joins each back at once. It tells how many were made, and why no more were.
pub fn make_often<D: Disk>(
    heap: &Heap<D>,
    first: Mutator<D>,
    reader: D::Reader,
    of_group: bool,
    times: u32,
) -> (u32, Option<ForkFault>)
where
    D::Reader: Drop,
    requires of { Belongs D.Reader.content heap.now first }
    requires reads { D.Reader.content reader ≡ heap.now.1.opening.file }
{
    let mut first = first;
    let mut reader = reader;
    for made in 0..times {
        let other = match another(heap, &mut first, reader, of_group) {
            Ok(other) => other,
            Err((fault, _)) => return (made, Some(fault)),
        };
        reader = first.join_back(heap, other);
    }
    (times, None)
}

/// A mutator puts a number in place 2, and makes another of its group. It tells what the other has there.
pub fn forked_number<D: Disk + Drop>(
    heap: &Heap<D>,
    first: Mutator<D>,
    reader: D::Reader,
    number: u64,
) -> Option<(Tag, u64)>
where
    D::Reader: Drop,
    requires of { Belongs D.Reader.content heap.now first }
    requires bare { HoldsNothing first }
    requires reads { D.Reader.content reader ≡ heap.now.1.opening.file }
{
    let mut first = first;
    let _ = first.put_number(heap, 2, number);
    let Ok(second) = first.fork(heap, reader) else {
        return None;
    };
    let mut second = second;
    let tag = second.tag(2);
    let word = second.stack_word(heap, 2);
    Some((tag, word))
}

/// A mutator makes an object, and so does one of its group while the first goes on. It tells how both ended.
pub fn make_beside_fork<D: Disk + Drop>(
    heap: &Heap<D>,
    first: Mutator<D>,
    reader: D::Reader,
) -> Option<[Result<(), AccessFault>; 2]>
where
    D::Reader: Drop,
    requires of { Belongs D.Reader.content heap.now first }
    requires bare { HoldsNothing first }
    requires reads { D.Reader.content reader ≡ heap.now.1.opening.file }
{
    let mut first = first;
    let Ok(second) = first.fork(heap, reader) else {
        return None;
    };
    let mut txn = first.begin(heap, 1);
    let made = make(&mut txn, 1, 0, 0);
    let (_, other) = make_once(heap, second, 1);
    let _ = txn.abort();
    Some([made, other])
}
