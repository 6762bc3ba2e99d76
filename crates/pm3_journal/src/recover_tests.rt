//! Journals that are read back from a device in memory.
ghost use Rattle.std.specs.Prelude.{◌^◌, ◌<◌, ◌≤◌, ℕ, length};
ghost use Rattle.pm3_journal.specs.Entered.{record_of};
ghost use Rattle.pm3_journal.specs.Format.{IsFit};

use crate::tests::{append, new_device, no_pages, recovered, two_pages};
use crate::{Entry, Receipt, RecoverFault};
use pm3_disk::MemoryDisk;
use std::alloc::{AllocError, Global};
use std::process::Abort;
use std::test::Fail;

/// The bytes of a new journal with these entries.
fn bytes_with(rt: &impl Abort, alloc: Global, entry: &Entry) -> Result<Vec<u8>, Fail>
    requires few { length entry.now.pages.items ≤ 2 }
    requires fit { (pages seq : ℕ) → 16 ≤ pages → pages ≤ 16384 → seq < 2 ^ 64 → IsFit pages (record_of seq entry.now) }
{
    let mut journal = recovered(alloc, new_device(alloc, 16)?)?;
    append(rt, &mut journal, entry)?;
    let disk = journal.into_disk();
    Ok(Vec::from_slice(alloc, disk.bytes())?)
}

/// The bytes of a journal with one entry more.
fn bytes_after(
    rt: &impl Abort,
    alloc: Global,
    bytes: Vec<u8>,
    entry: &Entry,
) -> Result<Vec<u8>, Fail>
    requires few { length entry.now.pages.items ≤ 2 }
    requires fit { (pages seq : ℕ) → 16 ≤ pages → pages ≤ 16384 → seq < 2 ^ 64 → IsFit pages (record_of seq entry.now) }
{
    let disk = MemoryDisk::new(alloc, bytes, Vec::new(alloc));
    let mut journal = recovered(alloc, disk)?;
    append(rt, &mut journal, entry)?;
    let disk = journal.into_disk();
    Ok(Vec::from_slice(alloc, disk.bytes())?)
}

/// Where the journal with these bytes is damaged.
fn damage_of(alloc: Global, bytes: Vec<u8>) -> Option<u64> {
    match recovered(alloc, MemoryDisk::new(alloc, bytes, Vec::new(alloc))) {
        Err(RecoverFault::Damaged { offset }) => Some(offset),
        _ => None,
    }
}

/// How many records the journal with these bytes has, None where it is damaged.
fn count_of(alloc: Global, bytes: Vec<u8>) -> Option<u32> {
    match recovered(alloc, MemoryDisk::new(alloc, bytes, Vec::new(alloc))) {
        Ok(journal) => Some(journal.entries().len()),
        Err(_) => None,
    }
}

/// The same bytes, with another byte at an offset.
fn changed(alloc: Global, bytes: &[u8], at: usize, byte: u8) -> Result<Vec<u8>, AllocError> {
    let mut copy = Vec::from_slice(alloc, bytes)?;
    if let Some(cell) = copy.get_mut(at) {
        *cell = byte;
    }
    Ok(copy)
}

/// The first bytes.
fn cut(rt: &impl Abort, alloc: Global, bytes: &[u8], len: usize) -> Result<Vec<u8>, AllocError> {
    assert!(rt; len <= bytes.len());
    Vec::from_slice(alloc, &bytes[..len])
}

/// Two records without pages, of 48 bytes each, at 32 and at 80.
fn two_records(rt: &impl Abort, alloc: Global) -> Result<Vec<u8>, Fail> {
    let bytes = bytes_with(rt, alloc, &no_pages(alloc))?;
    bytes_after(rt, alloc, bytes, &no_pages(alloc))
}

/// One record of two pages, at 32.
fn two_images(rt: &impl Abort, alloc: Global) -> Result<Vec<u8>, Fail> {
    bytes_with(rt, alloc, &two_pages(alloc)?)
}

/// What the append of an entry without pages answers, on a device with these bytes. It makes six calls.
fn receipt_behind(rt: &impl Abort, alloc: Global, bytes: Vec<u8>) -> Result<Receipt, Fail> {
    let disk = MemoryDisk::new(alloc, bytes, Vec::new(alloc));
    let mut journal = recovered(alloc, disk)?;
    let receipt = append(rt, &mut journal, &no_pages(alloc))?;
    let disk = journal.into_disk();
    assert_eq!(rt; disk.calls(), 3 + 6);
    assert_eq!(rt; disk.bytes().len(), 8344);
    Ok(receipt)
}

#[test]
fn an_append_closes_the_missing_gate_first(rt: HostRuntime) -> Result<(), Fail> {
    let alloc = rt.alloc();
    let bytes = two_images(&rt, alloc)?;
    assert_eq!(rt; bytes.len(), 8296);
    let bytes = cut(&rt, alloc, &bytes, 8288)?;
    assert_eq!(rt;
        receipt_behind(&rt, alloc, bytes)?,
        Receipt {
            seq: 2,
            pinned: 0,
            moved: 0
        }
    );
    Ok(())
}

#[test]
fn a_record_that_is_cut_is_none(rt: HostRuntime) -> Result<(), Fail> {
    let alloc = rt.alloc();
    let bytes = two_records(&rt, alloc)?;
    for len in 80..128usize {
        let front = cut(&rt, alloc, &bytes, len)?;
        assert_eq!(rt; count_of(alloc, front), Some(1), "cut to {len}");
    }
    let front = cut(&rt, alloc, &bytes, 128)?;
    assert_eq!(rt; count_of(alloc, front), Some(2));
    Ok(())
}

#[test]
fn only_a_gate_of_one_is_open(rt: HostRuntime) -> Result<(), Fail> {
    let alloc = rt.alloc();
    let bytes = two_records(&rt, alloc)?;
    for gate in 0..256usize {
        let gated = changed(alloc, &bytes, 80, gate as u8)?;
        let count = if gate == 1 { 2 } else { 1 };
        assert_eq!(rt; count_of(alloc, gated), Some(count), "gate {gate}");
    }
    Ok(())
}

/// Two records, the first with the sequence number 2^64 - 1, the second with this one.
fn behind_the_last(rt: &impl Abort, alloc: Global, second: u8) -> Result<Vec<u8>, Fail> {
    let mut bytes = two_records(rt, alloc)?;
    for at in 40..48usize {
        bytes = changed(alloc, &bytes, at, 255)?;
    }
    Ok(changed(alloc, &bytes, 88, second)?)
}

#[test]
fn the_number_behind_the_last_is_one(rt: HostRuntime) -> Result<(), Fail> {
    let alloc = rt.alloc();
    for (second, count) in [(0, 1), (1, 2), (2, 1)] {
        let bytes = behind_the_last(&rt, alloc, second)?;
        assert_eq!(rt; count_of(alloc, bytes), Some(count), "number {second}");
    }
    Ok(())
}

/// Where the journal is damaged with another byte at an offset.
fn damage_by(alloc: Global, bytes: &[u8], at: usize, byte: u8) -> Result<Option<u64>, AllocError> {
    Ok(damage_of(alloc, changed(alloc, bytes, at, byte)?))
}

#[test]
fn a_damaged_field_is_named(rt: HostRuntime) -> Result<(), Fail> {
    let alloc = rt.alloc();
    let bytes = two_images(&rt, alloc)?;
    for (at, byte, field) in [
        (33, 1, 33),
        (34, 1, 33),
        (39, 1, 33),
        (48, 0, 48),
        (64, 2, 64),
        (64, 17, 64),
        (76, 1, 76),
        (79, 1, 76),
        (80, 1, 80),
        (80, 16, 80),
        (84, 1, 84),
        (87, 1, 84),
        (4184, 2, 4184),
        (4191, 1, 4188),
    ] {
        assert_eq!(rt;
            damage_by(alloc, &bytes, at, byte)?,
            Some(field),
            "byte {at}"
        );
    }
    Ok(())
}

#[test]
fn a_damaged_head_is_named(rt: HostRuntime) -> Result<(), Fail> {
    let alloc = rt.alloc();
    let bytes = bytes_with(&rt, alloc, &no_pages(alloc))?;
    for (at, byte, field) in [
        (0, 81, 0),
        (7, 0, 0),
        (8, 2, 8),
        (11, 1, 8),
        (12, 15, 12),
        (15, 1, 12),
        (16, 1, 16),
        (31, 1, 16),
    ] {
        assert_eq!(rt;
            damage_by(alloc, &bytes, at, byte)?,
            Some(field),
            "byte {at}"
        );
    }
    Ok(())
}

#[test]
fn a_head_that_is_cut_is_damaged(rt: HostRuntime) -> Result<(), Fail> {
    let alloc = rt.alloc();
    let bytes = bytes_with(&rt, alloc, &no_pages(alloc))?;
    for (len, field) in [(0, 0), (7, 0), (8, 8), (12, 12), (16, 16), (31, 16)] {
        let front = cut(&rt, alloc, &bytes, len)?;
        assert_eq!(rt; damage_of(alloc, front), Some(field), "cut to {len}");
    }
    Ok(())
}

#[test]
fn a_record_of_too_many_pages_is_damaged(rt: HostRuntime) -> Result<(), Fail> {
    let alloc = rt.alloc();
    let bytes = two_images(&rt, alloc)?;
    let mut many = changed(alloc, &bytes, 60, 16)?;
    for _ in 0..16u32 {
        many.extend_from_slice(&[0; 4104])?;
    }
    assert_eq!(rt; damage_of(alloc, many), Some(60));
    Ok(())
}

/// The fault of a recovery whose device fails at one call, None where there is none.
fn fault_at(alloc: Global, bytes: &[u8], call: u32) -> Result<Option<RecoverFault>, AllocError> {
    let bytes = Vec::from_slice(alloc, bytes)?;
    let fails = Vec::from_slice(alloc, &[call])?;
    match recovered(alloc, MemoryDisk::new(alloc, bytes, fails)) {
        Ok(_) => Ok(None),
        Err(fault) => Ok(Some(fault)),
    }
}

#[test]
fn each_call_may_fail(rt: HostRuntime) -> Result<(), Fail> {
    let alloc = rt.alloc();
    let bytes = two_images(&rt, alloc)?;
    for call in 0..3u32 {
        assert_eq!(rt;
            fault_at(alloc, &bytes, call)?,
            Some(RecoverFault::JournalFault),
            "call {call}"
        );
    }
    assert_eq!(rt; fault_at(alloc, &bytes, 3)?, None);
    Ok(())
}
