//! What a disk in memory keeps of a call.
use crate::bytes::Bytes;

/// What a call did to the bytes of the disk.
#[derive(Drop)]
pub enum Call {
    /// Nothing: it read, or it failed before it changed a byte.
    Looked,
    /// It wrote these bytes from this offset on, or where it isn't `whole` the first half of them.
    Wrote { at: u64, bytes: Bytes, whole: bool },
    /// It left the first `len` bytes.
    Shortened { len: u64 },
    /// It made all that was written last.
    Synced,
}
