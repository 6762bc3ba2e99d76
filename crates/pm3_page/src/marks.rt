//! What page 0 says of a store.
/// What the first page of a store's page file says beside its types.
#[derive(Clone, Copy, Debug, PartialEq, Eq)]
pub struct Marks {
    /// The number of pages of the file, from 16 to 16,384.
    pub pages: u32,
    /// One above the greatest page in use, from 3 to `pages`.
    pub high_page: u32,
    /// The name that the next new object gets, from 1 to 2^62.
    pub next_name: u64,
    /// The sequence number that the next commit gets, at least 1.
    pub next_seq: u64,
}
