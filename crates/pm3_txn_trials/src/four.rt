//! Four mutators build lists beside each other, each in a thread of its own.
ghost use Rattle.std.specs.Prelude.{◌≡◌, IfSome};
ghost use Rattle.pm3_txn.specs.Underway.{Belongs, HoldsNothing};

use crate::trails::{Share, Trail, leave_trail};
use pm3_disk::Disk;
use pm3_txn::{Heap, Mutator};
use std::alloc::Global;
use std::sync::Wait;
use std::thread;
use std::thread::Threads;

/// Two mutators carry out their transactions beside each other, and then the second is joined back into the first.
fn two_beside<D: Disk + Send, R: Threads + Wait + Sync>(
    rt: &R,
    alloc: Global,
    heap: &Heap<D>,
    first: Mutator<D>,
    second: Mutator<D>,
    share: Share,
) -> (Mutator<D>, [Trail; 2])
where
    D::Reader: Send + Drop,
    requires of { Belongs D.Reader.content heap.now first }
    requires bare { HoldsNothing first }
    requires second { Belongs D.Reader.content heap.now second }
    requires free { HoldsNothing second }
    ensures belongs { Belongs D.Reader.content heap.now result.0 }
    ensures bare { HoldsNothing result.0 }
{
    let next = share.further(1);
    let ((mut first, one), (second, other)) = thread::join(
        rt,
        move || -> (Mutator<D>, Trail)
            requires of { Belongs D.Reader.content heap.now first }
            requires bare { HoldsNothing first }
            ensures belongs { Belongs D.Reader.content heap.entry.now result.0 }
            ensures bare { HoldsNothing result.0 }
        { leave_trail(rt, alloc, heap, first, share) },
        move || -> (Mutator<D>, Trail)
            requires of { Belongs D.Reader.content heap.now second }
            requires bare { HoldsNothing second }
            ensures belongs { Belongs D.Reader.content heap.entry.now result.0 }
            ensures bare { HoldsNothing result.0 }
        { leave_trail(rt, alloc, heap, second, next) },
    );
    first.join_back(heap, second);
    (first, [one, other])
}

/// A mutator makes another, and both carry out their transactions beside each other, where there is memory for it.
fn pair_beside<D: Disk + Send, R: Threads + Wait + Sync>(
    rt: &R,
    alloc: Global,
    heap: &Heap<D>,
    first: Mutator<D>,
    reader: D::Reader,
    share: Share,
) -> Option<(Mutator<D>, [Trail; 2])>
where
    D: Drop,
    D::Reader: Send + Drop,
    requires of { Belongs D.Reader.content heap.now first }
    requires bare { HoldsNothing first }
    requires reads { D.Reader.content reader ≡ heap.now.1.opening.file }
    ensures belongs { IfSome result (λ made. Belongs D.Reader.content heap.now made.0) }
    ensures bare { IfSome result (λ made. HoldsNothing made.0) }
{
    let mut first = first;
    let Ok(second) = first.fresh(heap, reader) else {
        return None;
    };
    Some(two_beside(rt, alloc, heap, first, second, share))
}

/// The trails of two pairs.
fn all_four(front: [Trail; 2], back: [Trail; 2]) -> [Trail; 4] {
    let [one, two] = front;
    let [three, four] = back;
    [one, two, three, four]
}

/// Two pairs of mutators beside each other.
fn pairs_beside<D: Disk + Send, R: Threads + Wait + Sync>(
    rt: &R,
    alloc: Global,
    heap: &Heap<D>,
    mutators: (Mutator<D>, Mutator<D>),
    readers: (D::Reader, D::Reader),
    share: Share,
) -> Option<(Mutator<D>, [Trail; 4])>
where
    D: Drop,
    D::Reader: Send + Drop,
    requires of { Belongs D.Reader.content heap.now mutators.0 }
    requires bare { HoldsNothing mutators.0 }
    requires second { Belongs D.Reader.content heap.now mutators.1 }
    requires free { HoldsNothing mutators.1 }
    requires reads { D.Reader.content readers.0 ≡ heap.now.1.opening.file }
    requires too { D.Reader.content readers.1 ≡ heap.now.1.opening.file }
    ensures belongs { IfSome result (λ made. Belongs D.Reader.content heap.now made.0) }
    ensures bare { IfSome result (λ made. HoldsNothing made.0) }
{
    let (first, second) = mutators;
    let (reader, other) = readers;
    let rest = share.further(2);
    let (front, back) = thread::join(
        rt,
        move || -> Option<(Mutator<D>, [Trail; 2])>
            requires of { Belongs D.Reader.content heap.now first }
            requires bare { HoldsNothing first }
            requires reads { D.Reader.content reader ≡ heap.now.1.opening.file }
            ensures belongs { IfSome result (λ made. Belongs D.Reader.content heap.entry.now made.0) }
            ensures bare { IfSome result (λ made. HoldsNothing made.0) }
        { pair_beside(rt, alloc, heap, first, reader, share) },
        move || -> Option<(Mutator<D>, [Trail; 2])>
            requires of { Belongs D.Reader.content heap.now second }
            requires bare { HoldsNothing second }
            requires reads { D.Reader.content other ≡ heap.now.1.opening.file }
            ensures belongs { IfSome result (λ made. Belongs D.Reader.content heap.entry.now made.0) }
            ensures bare { IfSome result (λ made. HoldsNothing made.0) }
        { pair_beside(rt, alloc, heap, second, other, rest) },
    );
    let (first, one) = front?;
    let (second, other) = back?;
    let mut first = first;
    first.join_back(heap, second);
    Some((first, all_four(one, other)))
}

/// A mutator and three that it makes build lists beside each other, and then the others are joined back into it.
pub(crate) fn four_beside<D: Disk + Send, R: Threads + Wait + Sync>(
    rt: &R,
    alloc: Global,
    heap: &Heap<D>,
    first: Mutator<D>,
    readers: (D::Reader, D::Reader, D::Reader),
    share: Share,
) -> Option<(Mutator<D>, [Trail; 4])>
where
    D: Drop,
    D::Reader: Send + Drop,
    requires of { Belongs D.Reader.content heap.now first }
    requires bare { HoldsNothing first }
    requires reads { D.Reader.content readers.0 ≡ heap.now.1.opening.file }
    requires too { D.Reader.content readers.1 ≡ heap.now.1.opening.file }
    requires also { D.Reader.content readers.2 ≡ heap.now.1.opening.file }
    ensures belongs { IfSome result (λ made. Belongs D.Reader.content heap.now made.0) }
    ensures bare { IfSome result (λ made. HoldsNothing made.0) }
{
    let (reader, other, third) = readers;
    let mut first = first;
    let Ok(second) = first.fresh(heap, reader) else {
        return None;
    };
    pairs_beside(rt, alloc, heap, (first, second), (other, third), share)
}
