//! A crash in an append leaves the store as it was, or with the commit.
ghost use Rattle.std.specs.Prelude.{◌≡◌, ◌^◌, ◌<◌, ◌≤◌, ℕ, length, IfOk};
ghost use Rattle.pm3_journal.specs.Entered.{record_of};
ghost use Rattle.pm3_journal.specs.Format.{IsFit};

use crate::dump_tests::{NOTHING, ONE_CHUNK, is_text};
use crate::samples::made;
use crate::trials::{SOUND, Stored, ended, holds, run};
use pm3_disk::{Disk, MemoryDisk};
use pm3_journal::{Entry, FilePages, Journal, Opened};
use std::alloc::Global;
use std::process::Abort;
use std::test::Fail;
use std::thread::Threads;

/// A page of zeros but for these bytes: where each stands, and its value.
fn page_of(bytes: &[(usize, u8)]) -> [u8; 4096] {
    let mut page = [0; 4096];
    for (at, value) in bytes {
        if *at < 4096 {
            page[*at] = *value;
        }
    }
    page
}

/// A commit of the pages 2 and 3: the first root refers to a chunk without a next one and without bytes.
fn commit(alloc: Global) -> Result<Entry, Fail>
    ensures few { IfOk result (λ entry. length entry.pages.items ≡ 2) }
    ensures fit { IfOk result (λ entry. (pages seq : ℕ) → 16 ≤ pages → pages ≤ 16384 → seq < 2 ^ 64 → IsFit pages (record_of seq entry)) }
{
    let mut pages = FilePages::new(alloc);
    pages.reserve(2)?;
    pages.push(2, &page_of(&[(0, 2), (4, 18), (16, 16), (20, 3)]));
    pages.push(3, &page_of(&[(0, 3), (4, 5), (16, 8), (24, 1)]));
    Ok(Entry {
        tag: 1,
        next_name: 2,
        high_page: 4,
        pins: 0,
        moved: 0,
        pages,
    })
}

/// Appends a commit to a journal.
fn append<D: Disk>(rt: &impl Abort, alloc: Global, journal: &mut Journal<D>) -> Result<(), Fail> {
    let entry = commit(alloc)?;
    let pages = journal.pages();
    assert!(rt; 16 <= pages);
    assert!(rt; pages <= 16384);
    assert!(rt; journal.next() > 0);
    journal.reserve(2)?;
    journal.append(&entry)?;
    Ok(())
}

/// The journal of a store that was opened, and to which a commit was appended or not.
fn journal_of<D: Disk + Drop>(
    rt: &impl Abort,
    alloc: Global,
    pages: D,
    journal: D,
    is_appended: bool,
) -> Result<D, Fail> {
    let Ok(opened) = pm3_store::open(alloc, pages, journal) else {
        return Err("the store doesn't open".into());
    };
    let Opened { mut journal, .. } = opened;
    if is_appended {
        append(rt, alloc, &mut journal)?;
    }
    Ok(journal.into_disk())
}

/// The journal of a new store, and whether a commit was appended.
fn journal_device<R: Threads + Sync + AllocGlobal + Abort>(
    rt: &R,
    is_appended: bool,
) -> Result<MemoryDisk, Fail> {
    let made = run(rt, "create 16", SOUND)?;
    journal_of(rt, rt.alloc(), made.pages, made.journal, is_appended)
}

/// The journal that a crash in a call leaves.
fn crashed<A: Abort>(
    rt: &A,
    alloc: Global,
    journal: &MemoryDisk,
    call: u32,
    choice: u64,
) -> Result<Vec<u8>, Fail> {
    assert!(rt; call < journal.calls());
    let left = journal.crash(call, choice)?;
    Ok(Vec::from_slice(alloc, left.bytes())?)
}

/// Fails unless the dump of a new store with this journal is that of the old store or that of the new one.
fn opens_to_either<R: Threads + Sync + AllocGlobal>(
    rt: &R,
    pages: &[u8],
    journal: Vec<u8>,
) -> Result<(), Fail> {
    let store = Stored {
        pages: Vec::from_slice(rt.alloc(), pages)?,
        journal,
    };
    let end = ended(rt, "dump", store.setting())?;
    holds(end.status == 0)?;
    holds(is_text(&end.text, &NOTHING) || is_text(&end.text, &ONE_CHUNK))
}

/// Fails unless a crash in this call leaves the old store or the new one, whichever of the last writes it leaves.
fn leaves_either<R: Threads + Sync + AllocGlobal + Abort>(
    rt: &R,
    pages: &[u8],
    journal: &MemoryDisk,
    call: u32,
) -> Result<(), Fail> {
    for choice in 0..16 {
        let left = crashed(rt, rt.alloc(), journal, call, choice)?;
        opens_to_either(rt, pages, left)?;
    }
    Ok(())
}

#[test]
fn a_crash_in_an_append_leaves_the_old_store_or_the_new_one(rt: HostRuntime) -> Result<(), Fail> {
    let store = made(&rt, "create 16")?;
    let first = journal_device(&rt, false)?.calls();
    let journal = journal_device(&rt, true)?;
    // The record is written and synced, and then its gate.
    holds(journal.calls() == first.saturating_add(4))?;
    for call in first..journal.calls() {
        leaves_either(&rt, &store.pages, &journal, call)?;
    }
    Ok(())
}
