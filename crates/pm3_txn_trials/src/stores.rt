//! A heap over the files of a store.
ghost use Rattle.std.specs.Prelude.{◌≡◌, IfSome};
ghost use Rattle.pm3_txn.specs.Underway.{Belongs, HoldsNothing};

use pm3_disk::Disk;
use pm3_store::open;
use pm3_txn::{Heap, Mutator};
use std::alloc::Global;

/// Opens a store and starts a heap over it, with its first mutator.
pub fn started<D: Disk + Drop>(alloc: Global, pages: D, journal: D) -> Option<(Heap<D>, Mutator<D>)>
where
    D::Reader: Drop,
    ensures belongs { IfSome result (λ made. Belongs D.Reader.content made.0 made.1) }
    ensures bare { IfSome result (λ made. HoldsNothing made.1) }
{
    let (heap, first, _) = started_with(alloc, pages, journal)?;
    Some((heap, first))
}

/// The same, with a reader for another mutator.
pub fn started_with<D: Disk + Drop>(
    alloc: Global,
    pages: D,
    journal: D,
) -> Option<(Heap<D>, Mutator<D>, D::Reader)>
where
    D::Reader: Drop,
    ensures belongs { IfSome result (λ made. Belongs D.Reader.content made.0 made.1) }
    ensures bare { IfSome result (λ made. HoldsNothing made.1) }
    ensures reads { IfSome result (λ made. D.Reader.content made.2 ≡ made.0.1.opening.file) }
{
    let Ok(mut opened) = open(alloc, pages, journal) else {
        return None;
    };
    let Ok(reader) = opened.reader() else {
        return None;
    };
    let Ok(other) = opened.reader() else {
        return None;
    };
    match Heap::start(alloc, opened, reader) {
        Ok((heap, first)) => Some((heap, first, other)),
        Err(_) => None,
    }
}
