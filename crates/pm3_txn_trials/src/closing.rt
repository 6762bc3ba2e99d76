//! A heap is closed, and its devices come back.
ghost use Rattle.std.specs.Prelude.{◌≡◌};
ghost use Rattle.pm3_txn.specs.Underway.{Belongs, HoldsNothing};

use pm3_disk::Disk;
use pm3_journal::Opened;
use pm3_txn::{Heap, HeapCloseFault, Mutator};

/// Closes a heap by its last mutator, and gives the two devices back, where it was closed.
pub fn closed<D: Disk + Drop>(heap: Heap<D>, last: Mutator<D>) -> Option<(D, D)>
where
    D::Reader: Drop,
    requires of { Belongs D.Reader.content heap last }
    requires bare { HoldsNothing last }
{
    match heap.close(last) {
        Ok((store, _reader)) => {
            let Opened {
                pages,
                journal,
                catalog: _,
                images: _,
                marks: _,
            } = store;
            Some((pages, journal.into_disk()))
        }
        Err(_) => None,
    }
}

/// Tries to close a heap while another mutator lives, and closes it once that one is joined back. It tells how many mutators were made
/// and how many joined at the first try, and whether the second try gave the devices back.
pub fn closed_once_all_are_joined<D: Disk + Drop>(
    heap: Heap<D>,
    first: Mutator<D>,
    reader: D::Reader,
) -> Option<((u32, u32), bool)>
where
    D::Reader: Drop,
    requires of { Belongs D.Reader.content heap first }
    requires bare { HoldsNothing first }
    requires reads { D.Reader.content reader ≡ heap.1.opening.file }
{
    let mut first = first;
    let Ok(other) = first.fresh(&heap, reader) else {
        return None;
    };
    match heap.close(first) {
        Err(
            HeapCloseFault::NotAll {
                made,
                joined,
                heap,
                last,
            },
        ) => {
            let mut last = last;
            last.join_back(&heap, other);
            Some(((made, joined), closed(heap, last).is_some()))
        }
        _ => None,
    }
}
