//! Stores on devices in memory.
ghost use Rattle.std.specs.Prelude.{IfOk};
ghost use Rattle.pm3_journal.specs.Opened.{IsOpenStore};

use crate::{CreateFault, OpenCause, checkpoint, create, open};
use pm3_disk::{Disk, MemoryDisk};
use pm3_journal::Opened;
use pm3_types::Catalog;
use std::alloc::Global;
use std::process::Abort;
use std::test::Fail;

/// An empty device.
fn empty(alloc: Global) -> MemoryDisk {
    MemoryDisk::new(alloc, Vec::new(alloc), Vec::new(alloc))
}

/// A device with these bytes.
pub(crate) fn device(alloc: Global, bytes: Vec<u8>) -> MemoryDisk {
    MemoryDisk::new(alloc, bytes, Vec::new(alloc))
}

/// The two devices of a new store of sixteen pages, without types.
fn new_store(alloc: Global) -> Result<(MemoryDisk, MemoryDisk), CreateFault> {
    let mut pages = empty(alloc);
    let mut journal = empty(alloc);
    create(&mut pages, &mut journal, 16, &Catalog::new(alloc))?;
    Ok((pages, journal))
}

/// The bytes of the page file of a new store.
pub(crate) fn new_pages(alloc: Global) -> Result<Vec<u8>, Fail> {
    let (pages, _) = new_store(alloc)?;
    Ok(Vec::from_slice(alloc, pages.bytes())?)
}

/// The head of a journal for sixteen pages.
const HEAD: [u8; 32] = [
    b'P', b'M', b'3', b'J', b'O', b'U', b'R', b'N', 1, 0, 0, 0, 16, 0, 0, 0, //
    0, 0, 0, 0, 0, 0, 0, 0, 0, 0, 0, 0, 0, 0, 0, 0,
];

/// The front of a record: an open gate, the number 7, the next name 5, no tag, one page, the high page 4, and no counts.
const FRONT: [u8; 48] = [
    1, 0, 0, 0, 0, 0, 0, 0, 7, 0, 0, 0, 0, 0, 0, 0, //
    5, 0, 0, 0, 0, 0, 0, 0, 0, 0, 0, 0, 1, 0, 0, 0, //
    4, 0, 0, 0, 0, 0, 0, 0, 0, 0, 0, 0, 0, 0, 0, 0,
];

/// The number of page 2 in a record, and the first word of its image.
const ROOTS: [u8; 16] = [2, 0, 0, 0, 0, 0, 0, 0, 2, 0, 0, 0, 18, 0, 0, 0];

/// A journal with one record, which has page 2. Its first root has the reference at page 3, offset `offset`.
pub(crate) fn recorded(alloc: Global, offset: u8) -> Result<Vec<u8>, Fail> {
    let mut bytes = Vec::from_slice(alloc, &HEAD)?;
    bytes.extend_from_slice(&FRONT)?;
    bytes.extend_from_slice(&ROOTS)?;
    bytes.extend_from_slice(&[0; 8])?;
    bytes.extend_from_slice(&[offset, 0, 0, 0, 3, 0, 0, 0])?;
    bytes.extend_from_slice(&[0; 4072])?;
    bytes.extend_from_slice(&[0; 8])?;
    Ok(bytes)
}

/// A store that opens.
pub(crate) fn opened<D: Disk + Drop>(
    alloc: Global,
    pages: D,
    journal: D,
) -> Result<Opened<D>, OpenCause>
    ensures { IfOk result (λ opened. IsOpenStore D.Disk opened) }
{
    match open(alloc, pages, journal) {
        Ok(opened) => Ok(opened),
        Err(fault) => Err(fault.cause),
    }
}

/// Why a store doesn't open, and None where it does.
fn cause_of(alloc: Global, pages: MemoryDisk, journal: MemoryDisk) -> Option<OpenCause> {
    opened(alloc, pages, journal).err()
}

#[test]
fn a_new_store_opens(rt: HostRuntime) -> Result<(), Fail> {
    let alloc = rt.alloc();
    let (pages, journal) = new_store(alloc)?;
    let opened = opened(alloc, pages, journal)?;
    assert_eq!(rt; opened.marks.pages, 16);
    assert_eq!(rt; opened.marks.high_page, 3);
    assert_eq!(rt; opened.marks.next_name, 1);
    assert_eq!(rt; opened.journal.next(), 1);
    assert_eq!(rt; opened.journal.entries().len(), 0);
    Ok(())
}

#[test]
fn without_records_a_checkpoint_makes_no_call(rt: HostRuntime) -> Result<(), Fail> {
    let alloc = rt.alloc();
    let (pages, journal) = new_store(alloc)?;
    let mut opened = opened(alloc, pages, journal)?;
    let before = opened.pages.calls();
    assert!(rt; checkpoint(alloc, &mut opened).is_ok());
    assert_eq!(rt; opened.pages.calls(), before);
    Ok(())
}

#[test]
fn a_record_is_carried_into_the_page_file(rt: HostRuntime) -> Result<(), Fail> {
    let alloc = rt.alloc();
    let pages = device(alloc, new_pages(alloc)?);
    let mut opened = opened(alloc, pages, device(alloc, recorded(alloc, 16)?))?;
    assert_eq!(rt; opened.marks.next_name, 5);
    assert_eq!(rt; opened.journal.next(), 8);
    assert!(rt; checkpoint(alloc, &mut opened).is_ok());
    let pages = opened.pages.bytes();
    assert_eq!(rt; pages.len(), 65_536);
    assert_eq!(rt; pages[16], 4);
    assert_eq!(rt; pages[24], 5);
    assert_eq!(rt; pages[32], 8);
    assert_eq!(rt; &pages[8208..8216], [16, 0, 0, 0, 3, 0, 0, 0].as_slice());
    let journal = opened.journal.into_disk();
    assert_eq!(rt; journal.bytes().get(32), Some(&0));
    Ok(())
}

#[test]
fn a_damaged_image_is_named_at_its_byte_of_the_journal(rt: HostRuntime) -> Result<(), Fail> {
    let alloc = rt.alloc();
    let pages = device(alloc, new_pages(alloc)?);
    let cause = cause_of(alloc, pages, device(alloc, recorded(alloc, 12)?));
    assert_eq!(rt; cause, Some(OpenCause::JournalDamaged { offset: 104 }));
    Ok(())
}

#[test]
fn a_short_page_file_is_damaged_at_its_end(rt: HostRuntime) -> Result<(), Fail> {
    let alloc = rt.alloc();
    let (_, journal) = new_store(alloc)?;
    let cause = cause_of(alloc, empty(alloc), journal);
    assert_eq!(rt; cause, Some(OpenCause::PageDamaged { offset: 0 }));
    Ok(())
}

/// Where the page file of a new store is damaged, with another byte at an offset.
fn damage_at(alloc: Global, at: usize, byte: u8) -> Result<Option<OpenCause>, Fail> {
    let (_, journal) = new_store(alloc)?;
    let mut bytes = new_pages(alloc)?;
    if let Some(cell) = bytes.get_mut(at) {
        *cell = byte;
    }
    Ok(cause_of(alloc, device(alloc, bytes), journal))
}

#[test]
fn a_damaged_page_file_is_named_at_its_field(rt: HostRuntime) -> Result<(), Fail> {
    let alloc = rt.alloc();
    // The kind, the page count, the zeros behind the head, and those behind the number of types.
    for (at, offset) in [(3, 0), (12, 12), (41, 40), (4103, 4100)] {
        let cause = damage_at(alloc, at, 17)?;
        assert_eq!(rt; cause, Some(OpenCause::PageDamaged { offset }), "at {at}");
    }
    Ok(())
}

#[test]
fn a_failed_page_file_is_the_cause(rt: HostRuntime) -> Result<(), Fail> {
    let alloc = rt.alloc();
    let (_, journal) = new_store(alloc)?;
    let pages = MemoryDisk::new(alloc, new_pages(alloc)?, vec![in alloc; 0u32; 1]?);
    assert_eq!(rt; cause_of(alloc, pages, journal), Some(OpenCause::PageFault));
    Ok(())
}
