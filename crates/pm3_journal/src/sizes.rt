//! The lengths of the parts of a journal's file.

/// The head of the file, up to the first gate.
pub(crate) const HEAD_SIZE: u64 = 32;

/// The front of a record, its gate among it.
pub(crate) const FRONT_SIZE: u64 = 48;

/// A page in a record: 8 bytes, and its image.
pub(crate) const PART_SIZE: u64 = 4104;

/// The next gate, with the seven bytes behind it.
pub(crate) const GATE_SIZE: u64 = 8;

/// No record ends, with the gate behind it, past this many bytes.
pub(crate) const LIMIT: u64 = 1 << 30;
