//! How a commit is refused, and how it fails.
use crate::mutator::Mutator;
use crate::transaction::Txn;
use pm3_disk::Disk;
use pm3_table::{Limit, Unit};
use std::fmt;
use thiserror::Error;

/// Why a commit was refused before anything was written: the transaction goes on.
#[derive(Clone, Copy, Debug, PartialEq, Eq, Error)]
pub enum CommitRefusal {
    /// The turn's word showed another holder.
    #[error("another mutator commits")]
    Busy { unit: Unit, word: u64 },
    /// The pass wants more pages than the store has left.
    #[error("a limit of {limit} was reached")]
    Full { what: Limit, limit: u64 },
    /// There is no memory.
    #[error("there is no memory")]
    Memory,
    /// A reference of the row leads to a page of the space that would stay in it.
    #[error("a place of the row refers to an object that would stay in the space")]
    Later,
}

/// Why a commit ended its transaction, whose objects are as they were found.
#[derive(Clone, Copy, Debug, PartialEq, Eq, Error)]
pub enum CommitEnd {
    /// The journal's device failed. The record is on it or not, and no commit follows.
    #[error("the journal's device failed")]
    JournalFault,
    /// The record would end past the journal's limit of so many bytes.
    #[error("the journal would pass its limit of {limit}")]
    Full { what: Limit, limit: u64 },
    /// The journal was stopped when this number was due.
    #[error("the journal stopped before record {seq}")]
    Stopped { seq: u64 },
}

/// A commit that gave no receipt. Where it was refused the transaction is as it was; else it has ended as by an abort.
pub enum CommitFault<'h, D: Disk> {
    Refused {
        cause: CommitRefusal,
        txn: Txn<'h, D>,
    },
    Ended {
        cause: CommitEnd,
        mutator: Mutator<D>,
    },
}

impl<D: Disk> fmt::Display for CommitFault<'_, D> {
    fn fmt<W: fmt::Write>(&self, f: &mut fmt::Formatter<W>) -> fmt::Result {
        match self {
            CommitFault::Refused { cause, .. } => write!(f, "{cause}"),
            CommitFault::Ended { cause, .. } => write!(f, "{cause}"),
        }
    }
}
