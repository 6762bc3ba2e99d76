//! How a job on designs is refused.
use pm3_txn::AccessFault;
use thiserror::Error;

/// Why a job was refused.
#[derive(Clone, Copy, Debug, PartialEq, Eq, Error)]
pub enum JobFault {
    /// An access was refused.
    #[error("{0}")]
    Access(AccessFault),
    /// The object that begins at this word of the page departs from a design.
    #[error("the object on page {page} at word {word} is none of a design")]
    NotADesign { page: u32, word: u32 },
}
