//! Rows of stack words, marks of pages, and the scan by which a pass reads every row.
//!
//! The layer above may rely on three things. At Ok of `validate` a place stands, or names no page; a refusal shows the mark
//! that was seen. After `mark` of a set and then `scan`, each page of the set that no word read names is cleared in the
//! pass's own view, so that no standing word of any mutator names it while the mark is there. And no call takes memory but
//! `Words::room`.
#![tactic(auto)]

mod marks;
mod rows;
mod scans;

pub use marks::{mark, unmark};
pub use pm3_table::Memory;
pub use rows::{clear, read_one, store_word, validate};
pub use scans::{Words, scan};
