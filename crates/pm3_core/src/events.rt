//! What may happen to the machine, and how it answers.

use std::alloc::AllocError;
use thiserror::Error;

/// The rows, one for each mutator.
pub const ROWS: u32 = 32;

/// The places of a row.
pub const ROW_PLACES: u32 = 512;

/// The places of all rows.
pub const PLACES: usize = 16_384;

/// One single load or store of a mutator, or the move of a page, which touches no shared word.
#[derive(Clone, Copy, Debug, PartialEq, Eq)]
pub enum Event {
    /// The mutator stores the word at a place of its row.
    Store { who: u32, place: u32, word: u64 },
    /// It loads the word of the page that this place names.
    Validate { who: u32, place: u32 },
    /// It stores 0 at a place of its row.
    Clear { who: u32, place: u32 },
    /// It marks a page.
    Mark { who: u32, page: u32 },
    /// It reads a place of any row.
    Read { who: u32, row: u32, place: u32 },
    /// It moves what lies on a page.
    Move { who: u32, page: u32 },
    /// It takes its mark off a page.
    Unmark { who: u32, page: u32 },
}

/// Whether an event was a step of the machine.
#[derive(Clone, Copy, Debug, PartialEq, Eq)]
pub enum Stepped {
    /// It was, and the machine has made it.
    Done,
    /// It was not, and the machine is as before.
    Refused,
}

/// Memory ran out.
#[derive(Clone, Copy, Debug, PartialEq, Eq, Error)]
#[error("out of memory")]
pub struct Memory;

impl From<AllocError> for Memory {
    fn from(_: AllocError) -> Self {
        Memory
    }
}
