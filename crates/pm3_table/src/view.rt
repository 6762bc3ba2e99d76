//! What a mutator knows of the table. No value of these types is made.
use crate::entry::{Commit, Opening};
use std::collections::LinkedList;

/// What a mutator did with its row and with marks.
pub enum Deed {
    /// It stored a word at a place.
    Stored { place: u32, word: u64 },
    /// It found the page of the place's word without a mark.
    Stood { place: u32 },
    /// It marked a page.
    Marked { page: u32 },
    /// It read a word at a place of a row.
    Found { row: u32, place: u32, word: u64 },
    /// It took its mark off a page.
    Unmarked { page: u32 },
}

/// It took a unit, or gave it back.
pub enum Hold {
    Took { unit: u32 },
    Gave { unit: u32 },
}

/// The pages of a space as it was taken, and where a page went since: to a space, by its number plus one, or to none.
pub enum Span {
    Spread { unit: u32, pages: LinkedList<u32> },
    Went { page: u32, to: u32 },
}

/// A try that was refused: the unit, and the word that was seen.
pub struct Refusal {
    pub unit: u32,
    pub word: u64,
}

/// The commits of a mutator that has ended.
pub struct Kept {
    pub mutator: u32,
    pub commits: LinkedList<Commit>,
}

/// The view of one mutator. Each list has its newest item first, but for the histories.
pub struct View {
    /// It is the view of a mutator, which has this row.
    pub live: bool,
    pub row: u32,
    pub log: LinkedList<Deed>,
    /// What it holds, the history that it has seen, and the faults that it has seen counted.
    pub holds: LinkedList<Hold>,
    pub seen: LinkedList<Commit>,
    pub faults: u64,
    /// The pages of spaces that it holds, those that it knows to be persistent, and those drawn and not settled.
    pub spans: LinkedList<Span>,
    pub steady: LinkedList<u32>,
    pub pages: LinkedList<u32>,
    /// The names that it has drawn and that no commit has yet.
    pub names: LinkedList<u64>,
    /// The counter that it is drawing from plus one or 0, the counters that it saw full, and how much it drew.
    pub drawing: u32,
    pub filled: LinkedList<u32>,
    pub drew_pages: u64,
    pub drew_names: u64,
    /// The rows that it has drawn and that have no mutator yet.
    pub rows: LinkedList<u32>,
    /// Its own commits, and those of the mutators that were joined into it.
    pub mine: LinkedList<Commit>,
    pub kept: LinkedList<Kept>,
    /// The failed commits that it keeps, and those that it saw when it took the turn.
    pub failed: LinkedList<Commit>,
    pub lost: LinkedList<Commit>,
    /// It saw that every other mutator was joined into it.
    pub last: bool,
    /// How many mutators it saw made when it last tried to close the table.
    pub made: u32,
    pub refusals: LinkedList<Refusal>,
}

/// What a table was told at its start.
pub struct Told {
    pub pages: u32,
    pub frontier: u32,
    pub next_name: u64,
    pub opening: Opening,
}
