//! What a crash in a checkpoint or in an append leaves, call by call.
use crate::checkpoint;
use crate::tests::{device, new_pages, opened, recorded};
use pm3_disk::{Disk, MemoryDisk};
use pm3_journal::Opened;
use std::alloc::Global;
use std::process::Abort;
use std::test::Fail;

/// Whether the two files open to the record's marks, and have its root in the journal or in the page file.
fn stands(alloc: Global, pages: MemoryDisk, journal: MemoryDisk) -> Result<bool, Fail> {
    let opened = opened(alloc, pages, journal)?;
    let root = opened.pages.bytes().get(8208..8216);
    let is_carried = root == Some(&[16, 0, 0, 0, 3, 0, 0, 0]);
    let marks = opened.marks;
    Ok(
        marks.next_name == 5
            && marks.high_page == 4
            && opened.journal.next() == 8
            && (opened.journal.entries().len() == 1 || is_carried),
    )
}

/// What a crash in a call of a disk leaves.
fn left_in(rt: &impl Abort, disk: &MemoryDisk, call: u32, choice: u64) -> Result<MemoryDisk, Fail> {
    assert!(rt; call < disk.calls());
    Ok(disk.crash(call, choice)?)
}

/// The two devices of a store once it is opened, and once a checkpoint of it is made.
fn through<D: Disk + Drop>(
    alloc: Global,
    pages: D,
    journal: D,
    is_carried: bool,
) -> Result<(D, D), Fail> {
    let mut opened = opened(alloc, pages, journal)?;
    if is_carried {
        checkpoint(alloc, &mut opened)?;
    }
    let Opened { pages, journal, .. } = opened;
    Ok((pages, journal.into_disk()))
}

/// The two devices of a store with a record, once it is opened, or once a checkpoint of it is made.
fn devices(alloc: Global, is_carried: bool) -> Result<(MemoryDisk, MemoryDisk), Fail> {
    let pages = device(alloc, new_pages(alloc)?);
    through(
        alloc,
        pages,
        device(alloc, recorded(alloc, 16)?),
        is_carried,
    )
}

#[test]
fn a_crash_while_the_page_file_is_written_leaves_the_store(rt: HostRuntime) -> Result<(), Fail> {
    let alloc = rt.alloc();
    let (pages, _) = devices(alloc, true)?;
    // Two pages are written, and the file is synced.
    let first = devices(alloc, false)?.0.calls();
    assert_eq!(rt; pages.calls(), first.saturating_add(3));
    for call in first..pages.calls() {
        for choice in 0..16 {
            let left = left_in(&rt, &pages, call, choice)?;
            let journal = device(alloc, recorded(alloc, 16)?);
            assert!(rt;
                stands(alloc, left, journal)?,
                "call {call}, choice {choice}"
            );
        }
    }
    Ok(())
}

#[test]
fn a_crash_while_the_gate_is_closed_leaves_the_store(rt: HostRuntime) -> Result<(), Fail> {
    let alloc = rt.alloc();
    let (pages, journal) = devices(alloc, true)?;
    // The gate is written, and the journal is synced.
    let first = devices(alloc, false)?.1.calls();
    assert_eq!(rt; journal.calls(), first.saturating_add(2));
    for call in first..journal.calls() {
        for choice in 0..4 {
            let left = left_in(&rt, &journal, call, choice)?;
            let pages = device(alloc, Vec::from_slice(alloc, pages.bytes())?);
            assert!(rt; stands(alloc, pages, left)?, "call {call}, choice {choice}");
        }
    }
    Ok(())
}
