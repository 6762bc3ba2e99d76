//! The command `dump` on devices in memory.
use crate::samples::{left_by, made, recorded, set_byte};
use crate::trials::{Ending, SOUND, Setting, Stored, ended, holds};
use std::test::Fail;
use std::thread::Threads;

/// The lines of all root slots but the first, which are nil.
const OTHER_ROOTS: &str =
    "root 1 nil\nroot 2 nil\nroot 3 nil\nroot 4 nil\nroot 5 nil\nroot 6 nil\nroot 7 nil\nroot 8 nil\n\
    root 9 nil\nroot 10 nil\nroot 11 nil\nroot 12 nil\nroot 13 nil\nroot 14 nil\nroot 15 nil\n";

/// What is printed of a store in whose graph nothing is reached.
pub(crate) const NOTHING: [&str; 3] = ["root 0 nil\n", OTHER_ROOTS, ""];

/// What is printed of a store whose first root refers to a chunk, without a next one and without bytes.
pub(crate) const ONE_CHUNK: [&str; 3] = ["root 0 1\n", OTHER_ROOTS, "1 8 @nil #\n"];

/// Whether a text is these parts.
pub(crate) fn is_text(text: &[u8], parts: &[&str]) -> bool {
    let mut rest = text;
    for part in parts {
        match rest.strip_prefix(part.as_bytes()) {
            Some(behind) => rest = behind,
            None => return false,
        }
    }
    rest.is_empty()
}

/// Fails unless a dump of a store prints these parts.
fn prints<R: Threads + Sync + AllocGlobal>(
    rt: &R,
    store: &Stored,
    parts: &[&str],
) -> Result<Ending, Fail> {
    let end = ended(rt, "dump", store.setting())?;
    holds(end.status == 0)?;
    holds(is_text(&end.text, parts))?;
    Ok(end)
}

/// A store whose record was carried into the page file.
fn carried<R: Threads + Sync + AllocGlobal>(rt: &R) -> Result<Stored, Fail> {
    left_by(rt, "checkpoint", &recorded(rt)?)
}

/// Fails unless a dump ends so.
fn refused<R: Threads + Sync + AllocGlobal>(
    rt: &R,
    setting: Setting<'_>,
    status: u8,
    printed: &str,
) -> Result<(), Fail> {
    ended(rt, "dump", setting)?.is(status, printed)
}

#[test]
fn a_new_store_has_nil_roots(rt: HostRuntime) -> Result<(), Fail> {
    let store = made(&rt, "create 64")?;
    let end = prints(&rt, &store, &NOTHING)?;
    end.left(&store)
}

#[test]
fn an_object_is_printed_before_and_after_a_checkpoint(rt: HostRuntime) -> Result<(), Fail> {
    let before = prints(&rt, &recorded(&rt)?, &ONE_CHUNK)?;
    let after = prints(&rt, &carried(&rt)?, &ONE_CHUNK)?;
    holds(before.text == after.text)
}

#[test]
fn two_empty_files_are_no_store(rt: HostRuntime) -> Result<(), Fail> {
    refused(&rt, SOUND, 5, "fault 5 journal 0\n")
}

#[test]
fn each_call_that_fails_is_told(rt: HostRuntime) -> Result<(), Fail> {
    let store = carried(&rt)?;
    let whole = prints(&rt, &store, &ONE_CHUNK)?;
    for call in 0..whole.page_calls {
        let setting = store.setting().failing_pages(call);
        refused(&rt, setting, 3, "fault 3 pages\n")?;
    }
    for call in 0..whole.journal_calls {
        let setting = store.setting().failing_journal(call);
        refused(&rt, setting, 4, "fault 4 journal\n")?;
    }
    Ok(())
}

#[test]
fn a_sink_that_fails_has_a_front_of_the_dump(rt: HostRuntime) -> Result<(), Fail> {
    let store = recorded(&rt)?;
    let whole = prints(&rt, &store, &ONE_CHUNK)?;
    let end = ended(&rt, "dump", store.setting().failing_sink(0))?;
    holds(end.status == 7)?;
    holds(whole.text.starts_with(&end.text))
}

#[test]
fn damage_is_named_at_its_byte(rt: HostRuntime) -> Result<(), Fail> {
    // A root that refers to the fourth word of page 3, where no object begins: the page's image is in the journal.
    let mut store = recorded(&rt)?;
    set_byte(&mut store.journal, 104, 24);
    refused(&rt, store.setting(), 5, "fault 5 journal 4216\n")?;
    // The first word of page 3, in the page file.
    let mut store = carried(&rt)?;
    set_byte(&mut store.pages, 12_288, 17);
    refused(&rt, store.setting(), 5, "fault 5 pages 12288\n")
}
