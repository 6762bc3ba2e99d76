//! The pinning machine: what single loads and stores of a word at a time must do so that a page is
//! moved only where no standing word names it. It has 32 rows of 512 words, one row for each mutator,
//! and the marks of the pages of a store.
//!
//! The layer above may rely on three things. `page_of` says exactly which page a word names. `Core`
//! takes exactly those events that are steps of the machine of specs/Machine.antt and specs/Cleared.antt,
//! and its state is then exactly the machine's next one. And for every list of events `pinning_law`
//! says that a page which is moved has no standing word that names it, by the invariant of `apart_law`.
#![tactic(auto)]

// Which page a word names.
mod naming;

// The machine, its events, and the law on every list of them.
mod events;
mod law;
mod machine;

// What the machine keeps of the marked pages.
mod page_marks;
mod readings;

pub use events::{Event, Memory, PLACES, ROW_PLACES, ROWS, Stepped};
pub use law::{apart_law, pinning_law, standing_law};
pub use machine::Core;
pub use naming::{BASE, PAGE_BYTES, page_of};

#[cfg(test)]
mod tests;
