//! The command `checkpoint` on devices in memory.
use crate::samples::{ROOTS, made, recorded, set_byte};
use crate::trials::{SOUND, Setting, Stored, ended, holds};
use pm3_disk::MemoryDisk;
use pm3_types::Catalog;
use std::alloc::Global;
use std::test::Fail;
use std::thread::Threads;

#[test]
fn two_empty_files_are_no_store(rt: HostRuntime) -> Result<(), Fail> {
    let end = ended(&rt, "checkpoint", SOUND)?;
    end.is(5, "fault 5 journal 0\n")?;
    holds(end.page_calls == 0)
}

#[test]
fn a_new_store_is_left_as_it_is(rt: HostRuntime) -> Result<(), Fail> {
    let store = made(&rt, "create 64")?;
    let end = ended(&rt, "checkpoint", store.setting())?;
    end.is(0, "")?;
    end.left(&store)
}

/// Fails unless the journal has an open gate no more.
fn is_carried(store: &Stored) -> Result<(), Fail> {
    holds(store.journal.get(32) == Some(&0))
}

#[test]
fn a_record_is_carried(rt: HostRuntime) -> Result<(), Fail> {
    let end = ended(&rt, "checkpoint", recorded(&rt)?.setting())?;
    end.is(0, "")?;
    is_carried(&end.store)?;
    holds(end.store.pages.get(8192..8216) == ROOTS.get(8..32))
}

/// Fails unless a call ends so, and a second one on what it left does the work.
fn goes_on<R: Threads + Sync + AllocGlobal>(
    rt: &R,
    setting: Setting<'_>,
    status: u8,
    printed: &str,
) -> Result<(), Fail> {
    let end = ended(rt, "checkpoint", setting)?;
    end.is(status, printed)?;
    let again = ended(rt, "checkpoint", end.store.setting())?;
    again.is(0, "")?;
    is_carried(&again.store)
}

#[test]
fn each_call_that_fails_is_told(rt: HostRuntime) -> Result<(), Fail> {
    let store = recorded(&rt)?;
    let whole = ended(&rt, "checkpoint", store.setting())?;
    whole.is(0, "")?;
    for call in 0..whole.page_calls {
        let setting = store.setting().failing_pages(call);
        goes_on(&rt, setting, 3, "fault 3 pages\n")?;
    }
    for call in 0..whole.journal_calls {
        let setting = store.setting().failing_journal(call);
        goes_on(&rt, setting, 4, "fault 4 journal\n")?;
    }
    Ok(())
}

/// Fails unless a record whose journal has another byte at this place is refused so.
fn journal_is_damaged<R: Threads + Sync + AllocGlobal>(
    rt: &R,
    at: usize,
    printed: &str,
) -> Result<(), Fail> {
    let mut store = recorded(rt)?;
    set_byte(&mut store.journal, at, 17);
    ended(rt, "checkpoint", store.setting())?.is(5, printed)
}

#[test]
fn damage_is_named_at_its_byte(rt: HostRuntime) -> Result<(), Fail> {
    // The zeros behind the number of types.
    let mut store = recorded(&rt)?;
    set_byte(&mut store.pages, 4100, 17);
    ended(&rt, "checkpoint", store.setting())?.is(5, "fault 5 pages 4100\n")?;
    // The journal's version, and the first word of the image of page 2.
    journal_is_damaged(&rt, 8, "fault 5 journal 8\n")?;
    journal_is_damaged(&rt, 88, "fault 5 journal 88\n")
}

/// A store without types.
fn without_types(alloc: Global) -> Result<Stored, Fail> {
    let mut pages = MemoryDisk::new(alloc, Vec::new(alloc), Vec::new(alloc));
    let mut journal = MemoryDisk::new(alloc, Vec::new(alloc), Vec::new(alloc));
    pm3_store::create(&mut pages, &mut journal, 16, &Catalog::new(alloc))?;
    Ok(Stored {
        pages: Vec::from_slice(alloc, pages.bytes())?,
        journal: Vec::from_slice(alloc, journal.bytes())?,
    })
}

#[test]
fn a_store_of_other_types_is_refused(rt: HostRuntime) -> Result<(), Fail> {
    let store = without_types(rt.alloc())?;
    ended(&rt, "checkpoint", store.setting())?.is(5, "fault 5 pages 4096\n")
}
