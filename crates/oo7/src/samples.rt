//! Stores for the tests of commands, as bytes.
use crate::trials::{SOUND, Stored, ended};
use std::test::Fail;
use std::thread::Threads;

/// The front of a record: an open gate, the number 1, the next name 5, no tag, two pages, the high page 4, and no counts.
const FRONT: [u8; 48] = [
    1, 0, 0, 0, 0, 0, 0, 0, 1, 0, 0, 0, 0, 0, 0, 0, //
    5, 0, 0, 0, 0, 0, 0, 0, 0, 0, 0, 0, 2, 0, 0, 0, //
    4, 0, 0, 0, 0, 0, 0, 0, 0, 0, 0, 0, 0, 0, 0, 0,
];

/// The number of page 2 in a record, and the first words of its image: the first root refers to page 3, offset 16.
pub(crate) const ROOTS: [u8; 32] = [
    2, 0, 0, 0, 0, 0, 0, 0, 2, 0, 0, 0, 18, 0, 0, 0, //
    0, 0, 0, 0, 0, 0, 0, 0, 16, 0, 0, 0, 3, 0, 0, 0,
];

/// The number of page 3, and the first words of its image: a chunk with the name 1, without a next one and without bytes.
const CHUNK: [u8; 48] = [
    3, 0, 0, 0, 0, 0, 0, 0, 3, 0, 0, 0, 5, 0, 0, 0, //
    0, 0, 0, 0, 0, 0, 0, 0, 8, 0, 0, 0, 0, 0, 0, 0, //
    1, 0, 0, 0, 0, 0, 0, 0, 0, 0, 0, 0, 0, 0, 0, 0,
];

/// A new store of so many pages as the line says.
pub(crate) fn made<R: Threads + Sync + AllocGlobal>(rt: &R, line: &str) -> Result<Stored, Fail> {
    Ok(ended(rt, line, SOUND)?.store)
}

/// A new store, its journal with a record of the pages 2 and 3.
pub(crate) fn recorded<R: Threads + Sync + AllocGlobal>(rt: &R) -> Result<Stored, Fail> {
    let mut store = made(rt, "create 16")?;
    put_record(&mut store.journal)?;
    Ok(store)
}

/// Puts the record into the journal of a new store.
fn put_record(journal: &mut Vec<u8>) -> Result<(), Fail> {
    journal.truncate(32);
    journal.extend_from_slice(&FRONT)?;
    journal.extend_from_slice(&ROOTS)?;
    put_zeros(journal, 4072)?;
    journal.extend_from_slice(&CHUNK)?;
    put_zeros(journal, 4056)?;
    put_zeros(journal, 8)
}

/// Puts so many zeros behind bytes.
fn put_zeros(bytes: &mut Vec<u8>, count: u32) -> Result<(), Fail> {
    for _ in 0..count {
        bytes.push(0)?;
    }
    Ok(())
}

/// What a command leaves of a store.
pub(crate) fn left_by<R: Threads + Sync + AllocGlobal>(
    rt: &R,
    line: &str,
    store: &Stored,
) -> Result<Stored, Fail> {
    Ok(ended(rt, line, store.setting())?.store)
}

/// Sets a byte.
pub(crate) fn set_byte(bytes: &mut Vec<u8>, at: usize, value: u8) {
    if let Some(byte) = bytes.get_mut(at) {
        *byte = value;
    }
}
