//! How a heap is not closed.
use crate::heap::Heap;
use crate::mutator::Mutator;
use crate::values::Value;
use pm3_disk::Disk;
use pm3_table::Pass;
use std::fmt;

/// Why a heap was not closed.
#[derive(Drop)]
pub enum HeapCloseFault<D: Disk> {
    /// Mutators were made that were not joined back. The heap and the last mutator come back.
    NotAll {
        made: u32,
        joined: u32,
        heap: Heap<D>,
        last: Mutator<D>,
    },
    /// There was no memory for the images of the store. The two devices and the reader come back.
    Memory {
        pages: D,
        journal: D,
        reader: D::Reader,
    },
}

impl<D: Disk> fmt::Display for HeapCloseFault<D> {
    fn fmt<W: fmt::Write>(&self, f: &mut fmt::Formatter<W>) -> fmt::Result {
        match self {
            HeapCloseFault::NotAll { made, joined, .. } => {
                write!(f, "{made} mutators were made, and {joined} joined back")
            }
            HeapCloseFault::Memory { .. } => write!(f, "there is no memory for the store's images"),
        }
    }
}

/// The same of the table of a heap.
pub(crate) enum TableFault<D: Disk> {
    NotAll {
        made: u32,
        joined: u32,
        heap: Heap<D>,
        pass: Pass<Value<D>>,
    },
    Memory {
        pages: D,
        journal: D,
    },
}
