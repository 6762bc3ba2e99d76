//! Operations, and why one is no step.
ghost use Rattle.std.specs.Prelude.{◌^◌, ◌<◌, ◌↔◌, IsTrue, slice_get};
ghost use Rattle.pm3_graph.specs.Operation.{IsTailOf};

use pm3_types::{Catalog, Tail, TypeNo};
use thiserror::Error;

/// The first number that is no name.
const NAMES_END: u64 = 1 << 62;

/// An operation on a graph. Names are from 1 to 2^62 - 1, and 0 stands for nil.
#[derive(Clone, Copy, Debug, PartialEq, Eq)]
pub enum Op {
    /// Adds a record of zeros, with `tail` items in its tail.
    New { name: u64, ty: TypeNo, tail: u32 },
    /// Reads a field that is no reference.
    Word { name: u64, field: u32 },
    /// Writes a field that is no reference.
    SetWord { name: u64, field: u32, value: u64 },
    /// Reads a reference field.
    Reference { name: u64, field: u32 },
    /// Writes a reference field. No record needs to be there under the name `to`.
    SetReference { name: u64, field: u32, to: u64 },
    /// Reads an item of a tail of references.
    TailRef { name: u64, at: u32 },
    /// Writes an item of a tail of references. No record needs to be there under the name `to`.
    SetTailRef { name: u64, at: u32, to: u64 },
    /// Reads an item of a tail of bytes.
    Byte { name: u64, at: u32 },
    /// Writes an item of a tail of bytes.
    SetByte { name: u64, at: u32, value: u64 },
    /// Reads a root slot.
    Root { slot: u32 },
    /// Writes a root slot. No record needs to be there under the name `to`.
    SetRoot { slot: u32, to: u64 },
}

impl Op {
    ghost use Rattle.pm3_graph.specs.Operation.{IsAllowed};

    /// Whether a caller may ask for the operation: names are below 2^62, a byte below 256, a slot below 16, and a new record
    /// has no tail where its type has none.
    pub fn is_allowed(&self, catalog: &Catalog) -> bool
        ensures { IsTrue result ↔ IsAllowed catalog.now self.now }
    {
        match *self {
            Op::New { name, ty, tail } => name < NAMES_END && may_have_tail(catalog, ty, tail),
            Op::Word { name, .. } | Op::SetWord { name, .. } => name < NAMES_END,
            Op::Reference { name, .. } | Op::TailRef { name, .. } | Op::Byte { name, .. } => name
                < NAMES_END,
            Op::SetReference { name, to, .. } | Op::SetTailRef { name, to, .. } => name < NAMES_END
                && to < NAMES_END,
            Op::SetByte { name, value, .. } => name < NAMES_END && value < 256,
            Op::Root { slot } => slot < 16,
            Op::SetRoot { slot, to } => slot < 16 && to < NAMES_END,
        }
    }
}

/// Whether a record of the type may have a tail of this length.
fn may_have_tail(catalog: &Catalog, ty: TypeNo, tail: u32) -> bool
    ensures { IsTrue result ↔ IsTailOf (slice_get catalog.now ty) tail }
{
    match catalog.get(ty) {
        Some(map) => map.tail != Tail::Empty || tail == 0,
        None => true,
    }
}

/// Why an operation is no step. Where several apply, the first in this order is given.
#[derive(Clone, Copy, Debug, PartialEq, Eq, Error)]
pub enum PlainFault {
    /// A record of this name is there already, or the name is 0.
    #[error("the name {name} is taken")]
    Taken { name: u64 },
    /// There is no record of this name.
    #[error("there is no record {name}")]
    NoRecord { name: u64 },
    /// The record has no such place, or the type is not in the catalog.
    #[error("there is no such place")]
    NoPlace,
    /// Want of memory.
    #[error("out of memory")]
    Memory,
}
