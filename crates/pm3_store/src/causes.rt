//! Why a store wasn't opened.
use thiserror::Error;

/// Why a store wasn't opened, in the order of work: the journal's head and records come first, then the page file's length,
/// page 0 where the journal has no record, page 1, and then the images in the records, which need the types of page 1.
#[derive(Clone, Copy, Debug, PartialEq, Eq, Error)]
pub enum OpenCause {
    /// The journal failed.
    #[error("the journal failed")]
    JournalFault,
    /// The journal departs from its form, first at this byte.
    #[error("the journal is damaged at byte {offset}")]
    JournalDamaged { offset: u64 },
    /// The page file failed.
    #[error("the page file failed")]
    PageFault,
    /// The page file departs from its form, first at this byte.
    #[error("the page file is damaged at byte {offset}")]
    PageDamaged { offset: u64 },
    /// Want of memory.
    #[error("out of memory")]
    Memory,
}
