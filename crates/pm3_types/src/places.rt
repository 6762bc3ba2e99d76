//! Places of records.
/// A place of a record, told by what stands in it.
#[derive(Clone, Copy, Debug, PartialEq, Eq)]
pub enum Place {
    /// A field that is no reference.
    Word(u32),
    /// A field that is a reference.
    Reference(u32),
    /// An item of a tail of references.
    TailRef(u32),
    /// An item of a tail of bytes.
    Byte(u32),
}
