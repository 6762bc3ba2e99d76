//! Why a call on the page file was refused.
use pm3_disk::Failed;
use pm3_page::PageNo;
use thiserror::Error;

/// The page file failed.
#[derive(Clone, Copy, Debug, PartialEq, Eq, Error)]
#[error("the page file failed")]
pub struct PageFault;

impl From<Failed> for PageFault {
    fn from(_: Failed) -> PageFault {
        PageFault
    }
}

/// Why there are no marks.
#[derive(Clone, Copy, Debug, PartialEq, Eq, Error)]
pub enum MarksFault {
    /// The page file failed.
    #[error("the page file failed")]
    PageFault,
    /// The field that begins at byte `offset` of the file is the first that departs from the form of a head.
    #[error("the page file is damaged at byte {offset}")]
    Damaged { offset: u32 },
}

/// Why there is no catalog.
#[derive(Clone, Copy, Debug, PartialEq, Eq, Error)]
pub enum CatalogReadFault {
    /// The page file failed.
    #[error("the page file failed")]
    PageFault,
    /// The field that begins at byte `offset` of the file is the first that departs from the form of a catalog.
    #[error("the page file is damaged at byte {offset}")]
    Damaged { offset: u32 },
    /// Want of memory.
    #[error("out of memory")]
    Memory,
}

/// Why there is no image.
#[derive(Clone, Copy, Debug, PartialEq, Eq, Error)]
pub enum LoadFault {
    /// The page file failed.
    #[error("the page file failed")]
    PageFault,
    /// The page departs from its form, first at this word, or the file hasn't the word whole.
    #[error("page {page} is damaged at its word {word}")]
    Damaged { page: PageNo, word: u32 },
    /// Want of memory.
    #[error("out of memory")]
    Memory,
}
