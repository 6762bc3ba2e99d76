//! Why a store wasn't dumped.
use pm3_page::PageNo;
use thiserror::Error;

/// Why a store wasn't dumped.
#[derive(Clone, Copy, Debug, PartialEq, Eq, Error)]
pub enum DumpFault {
    /// The page file failed.
    #[error("the page file failed")]
    PageFault,
    /// The page departs from its form, first at this word, or a reference leads to this word and no object begins there.
    #[error("page {page} is damaged at its word {word}")]
    Damaged { page: PageNo, word: u32 },
    /// Want of memory.
    #[error("out of memory")]
    Memory,
}
