//! How a table is not closed.
use crate::chronicle::Chronicle;
use crate::shared::{Pass, Shared};
use atomic_table::Closed;
use std::alloc::Global;
use std::fmt;

/// Why the values of a table were not gathered.
pub enum CloseFault<V: Chronicle> {
    /// Mutators were made that were not joined. The table and the pass come back.
    NotAll {
        made: u32,
        joined: u32,
        shared: Shared<V>,
        pass: Pass<V>,
    },
    /// There was no memory for a list of the values. They come in plain slots.
    Memory {
        homes: Closed<Option<V>, Global>,
    },
}

impl<V: Chronicle> fmt::Display for CloseFault<V> {
    fn fmt<W: fmt::Write>(&self, f: &mut fmt::Formatter<W>) -> fmt::Result {
        match self {
            CloseFault::NotAll { made, joined, .. } => {
                write!(f, "{made} mutators were made, and {joined} of them joined")
            }
            CloseFault::Memory { .. } => f.write_str("out of memory"),
        }
    }
}
