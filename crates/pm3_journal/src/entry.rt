//! What a commit hands to the journal.
use crate::file_pages::FilePages;

/// An entry: a record without its sequence number.
#[derive(Drop)]
pub struct Entry {
    /// What the transaction was tagged with.
    pub tag: u32,
    /// The least name that no object has yet.
    pub next_name: u64,
    /// One above the greatest page in use.
    pub high_page: u32,
    /// How many pages were pinned.
    pub pins: u32,
    /// How many objects were moved.
    pub moved: u32,
    /// The pages that were written.
    pub pages: FilePages,
}

/// What an append answers: the record's sequence number, and how many pages were pinned and objects moved.
#[derive(Clone, Copy, Debug, PartialEq, Eq)]
pub struct Receipt {
    pub seq: u64,
    pub pinned: u32,
    pub moved: u32,
}
