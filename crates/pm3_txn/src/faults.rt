//! How an access is refused.
ghost use Rattle.std.specs.Prelude.{◌≡◌};
ghost use Rattle.pm3_txn.specs.Refusals.{fault_of};

use pm3_pagefile::LoadFault;
use pm3_table::{Limit, Unit};
use pm3_types::TypeNo;
use thiserror::Error;

/// Why an access was refused: the first of these that applies, in this order; want of memory comes where the growth stands.
#[derive(Clone, Copy, Debug, PartialEq, Eq, Error)]
pub enum AccessFault {
    /// The place of the row holds a number.
    #[error("place {index} holds a number")]
    NotAReference { index: usize },
    /// The place of the row holds nil.
    #[error("place {index} is nil")]
    Nil { index: usize },
    /// The unit's word showed another holder, or a mark.
    #[error("a unit is held by another mutator, or marked")]
    Busy { unit: Unit, word: u64 },
    /// The page file could not be read.
    #[error("the page file could not be read")]
    PageFault,
    /// The page file's bytes have no image of the page, or it has no object where a reference names one.
    #[error("page {page} is damaged at word {word}")]
    Damaged { page: u32, word: u32 },
    /// The object has no such field of this kind.
    #[error("an object of type {ty} has no such field {field}")]
    NoSuchField { ty: TypeNo, field: u32 },
    /// The object has no such item in a tail of this kind.
    #[error("an object of type {ty} has no such tail item {at}")]
    NoSuchTail { ty: TypeNo, at: u32 },
    /// A limit was reached.
    #[error("a limit of {limit} was reached")]
    Full { what: Limit, limit: u64 },
    /// There is no memory.
    #[error("there is no memory")]
    Memory,
}

impl AccessFault {
    /// The fault of a page that could not be loaded.
    pub(crate) fn of_load(fault: LoadFault) -> AccessFault
        ensures { result ≡ fault_of fault }
    {
        match fault {
            LoadFault::PageFault => AccessFault::PageFault,
            LoadFault::Damaged { page, word } => AccessFault::Damaged { page, word },
            LoadFault::Memory => AccessFault::Memory,
        }
    }
}
