//! The places of an object.
use thiserror::Error;

/// A place of an object.
#[derive(Clone, Copy, Debug, PartialEq, Eq)]
pub enum Place {
    /// A field.
    Field(u32),
    /// An item of a tail of references.
    Tail(u32),
    /// An item of a tail of bytes.
    Byte(u32),
}

/// The object has no such place: its type has no such field or tail, or its tail ends before.
#[derive(Clone, Copy, Debug, PartialEq, Eq, Error)]
#[error("there is no such place")]
pub struct NoPlace;
