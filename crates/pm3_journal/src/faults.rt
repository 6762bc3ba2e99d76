//! Why a call on a journal was refused.
use pm3_disk::Failed;
use thiserror::Error;

/// The device of a journal failed.
#[derive(Clone, Copy, Debug, PartialEq, Eq, Error)]
#[error("the journal's device failed")]
pub struct JournalFault;

impl From<Failed> for JournalFault {
    fn from(_: Failed) -> JournalFault {
        JournalFault
    }
}

/// Why an append gave no receipt.
#[derive(Clone, Copy, Debug, PartialEq, Eq, Error)]
pub enum AppendFault {
    /// An earlier call stopped the journal, when this number was due.
    #[error("the journal stopped before record {seq}")]
    Stopped { seq: u64 },
    /// The record and the gate behind it would end past so many bytes.
    #[error("the journal would pass {limit} bytes")]
    Full { limit: u64 },
    /// The device failed. The record is on it or not.
    #[error("the journal's device failed")]
    JournalFault,
}

/// Why a journal wasn't recovered.
#[derive(Clone, Copy, Debug, PartialEq, Eq, Error)]
pub enum RecoverFault {
    /// The device failed.
    #[error("the journal's device failed")]
    JournalFault,
    /// A field of the head or of a record departs from its form. The offset is that of its first byte.
    #[error("the journal is damaged at byte {offset}")]
    Damaged { offset: u64 },
    /// Memory was wanted.
    #[error("out of memory")]
    Memory,
}

/// The device of the page file failed.
#[derive(Clone, Copy, Debug, PartialEq, Eq, Error)]
#[error("the page file's device failed")]
pub struct PageFault;

impl From<Failed> for PageFault {
    fn from(_: Failed) -> PageFault {
        PageFault
    }
}
