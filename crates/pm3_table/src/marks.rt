//! The numbers with which a table starts.

/// The page count, the first page that is not in use, the next name, and the rows made, which is 1.
#[derive(Debug, PartialEq, Eq, Clone, Copy, Drop)]
pub struct Marks4 {
    pub pages: u32,
    pub frontier: u32,
    pub next_name: u64,
    pub rows: u32,
}
