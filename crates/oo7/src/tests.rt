//! The words that the program takes, and the command `create`, on devices in memory and on files.
use crate::gate::{Gate, OpenGate};
use crate::outside::Outside;
use crate::trials::{SOUND, Setting, ended, holds, words_of};
use pm3_disk::{FileDisk, MemorySink, MemorySource};
use std::fs;
use std::process::ExitCode;
use std::test::Fail;
use std::thread::Threads;

const JOURNAL_OF_64: [u8; 40] = [
    0x50, 0x4d, 0x33, 0x4a, 0x4f, 0x55, 0x52, 0x4e, 1, 0, 0, 0, 0x40, 0, 0, 0, 0, 0, 0, 0, //
    0, 0, 0, 0, 0, 0, 0, 0, 0, 0, 0, 0, 0, 0, 0, 0, 0, 0, 0, 0,
];

/// Words of the page file of a new store of 64 pages: where they stand, and their bytes.
const WORDS_OF_64: [(usize, [u8; 8]); 9] = [
    (0, *b"PM3PAGES"),
    (8, [1, 0, 0, 0, 64, 0, 0, 0]),
    (16, [3, 0, 0, 0, 0, 0, 0, 0]),
    (24, [1, 0, 0, 0, 0, 0, 0, 0]),
    (32, [1, 0, 0, 0, 0, 0, 0, 0]),
    (4096, [12, 0, 0, 0, 0, 0, 0, 0]),
    (8192, [2, 0, 0, 0, 18, 0, 0, 0]),
    (8200, [0; 8]),
    (262_136, [0; 8]),
];

/// Fails unless these words stand in a file.
fn has_words(file: &[u8], words: &[(usize, [u8; 8])]) -> Result<(), Fail> {
    for (at, bytes) in words {
        let end = at.saturating_add(8);
        holds(file.get(*at..end) == Some(bytes.as_slice()))?;
    }
    Ok(())
}

#[test]
fn a_new_store_has_its_two_files(rt: HostRuntime) -> Result<(), Fail> {
    let made = ended(&rt, "create 64", SOUND)?;
    made.is(0, "")?;
    holds(made.store.journal.as_slice() == JOURNAL_OF_64.as_slice())?;
    holds(made.store.pages.len() == 262_144)?;
    has_words(&made.store.pages, &WORDS_OF_64)
}

/// Fails unless a line makes a page file of so many bytes.
fn makes<R: Threads + Sync + AllocGlobal>(rt: &R, line: &str, len: usize) -> Result<(), Fail> {
    let made = ended(rt, line, SOUND)?;
    made.is(0, "")?;
    holds(made.store.pages.len() == len)
}

#[test]
fn the_smallest_and_the_largest_store_are_made(rt: HostRuntime) -> Result<(), Fail> {
    makes(&rt, "create 16", 65_536)?;
    makes(&rt, "create 16384", 67_108_864)
}

/// Fails unless each of these lines ends so, before any call on the two files.
fn end_at_once<R: Threads + Sync + AllocGlobal>(
    rt: &R,
    lines: &[&str],
    status: u8,
    printed: &str,
) -> Result<(), Fail> {
    for line in lines {
        ends_at_once(rt, *line, status, printed)?;
    }
    Ok(())
}

/// Fails unless a line ends so, before any call on the two files.
fn ends_at_once<R: Threads + Sync + AllocGlobal>(
    rt: &R,
    line: &str,
    status: u8,
    printed: &str,
) -> Result<(), Fail> {
    let end = ended(rt, line, SOUND)?;
    end.is(status, printed)?;
    holds(end.page_calls == 0 && end.journal_calls == 0)
}

const NO_COMMANDS: [&str; 18] = [
    "",
    "create",
    "create 15",
    "create 16385",
    "create 064",
    "create 16 16",
    "Create 16",
    "create +16",
    "create 4294967312",
    "create 16a",
    "create ",
    "--help",
    "help",
    "creat 16",
    "create --help",
    "checkpoint 16",
    "checkpoint --help",
    "dump 16",
];

const LATER_COMMANDS: [&str; 4] = [
    "build tiny 7",
    "run --workers 1",
    "drill 7 --workers 3",
    "build",
];

#[test]
fn other_words_are_refused_before_any_call(rt: HostRuntime) -> Result<(), Fail> {
    end_at_once(&rt, &NO_COMMANDS, 2, "fault 2 usage\n")?;
    end_at_once(&rt, &LATER_COMMANDS, 14, "fault 14 later\n")
}

/// A page file of one byte.
const ONE_BYTE: Setting<'static> = Setting {
    pages: &[7],
    ..SOUND
};

/// Fails unless a store can't be made where the page file has a byte, which stays, and no call is made on the journal.
fn is_spared<R: Threads + Sync + AllocGlobal>(
    rt: &R,
    setting: Setting<'_>,
    status: u8,
    printed: &str,
) -> Result<(), Fail> {
    let end = ended(rt, "create 64", setting)?;
    end.is(status, printed)?;
    holds(end.store.pages.as_slice() == [7].as_slice())?;
    holds(end.journal_calls == 0)
}

#[test]
fn a_page_file_is_not_written_over(rt: HostRuntime) -> Result<(), Fail> {
    is_spared(&rt, ONE_BYTE, 9, "fault 9 exists\n")
}

#[test]
fn a_page_file_whose_length_cannot_be_read_is_left_alone(rt: HostRuntime) -> Result<(), Fail> {
    is_spared(&rt, ONE_BYTE.failing_pages(0), 3, "fault 3 pages\n")
}

/// The calls of `create 16` on the page file: its length, a cut, sixteen pages, a sync.
const PAGE_FILE_CALLS: u32 = 19;

/// Its calls on the journal: a cut, a write, a sync.
const JOURNAL_CALLS: u32 = 3;

/// Fails unless this call's failure on the page file is told.
fn page_file_fails<R: Threads + Sync + AllocGlobal>(rt: &R, call: u32) -> Result<(), Fail> {
    let end = ended(rt, "create 16", SOUND.failing_pages(call))?;
    end.is(3, "fault 3 pages\n")?;
    let calls = if call == 0 { 0 } else { JOURNAL_CALLS };
    holds(end.journal_calls == calls)
}

/// Fails unless this call's failure on the journal is told.
fn journal_fails<R: Threads + Sync + AllocGlobal>(rt: &R, call: u32) -> Result<(), Fail> {
    let end = ended(rt, "create 16", SOUND.failing_journal(call))?;
    end.is(4, "fault 4 journal\n")?;
    holds(end.store.pages.is_empty())
}

#[test]
fn each_call_that_fails_is_told(rt: HostRuntime) -> Result<(), Fail> {
    for call in 0..PAGE_FILE_CALLS {
        page_file_fails(&rt, call)?;
    }
    for call in 0..JOURNAL_CALLS {
        journal_fails(&rt, call)?;
    }
    let after = SOUND
        .failing_pages(PAGE_FILE_CALLS)
        .failing_journal(JOURNAL_CALLS);
    ended(&rt, "create 16", after)?.is(0, "")
}

#[test]
fn a_sink_that_fails_has_a_front_of_the_line(rt: HostRuntime) -> Result<(), Fail> {
    ended(&rt, "create 15", SOUND.failing_sink(0))?.is(2, "fault 2")
}

#[test]
fn an_open_gate_lets_everybody_pass() {
    OpenGate.pass(0, 1);
}

/// Fails unless a file has so many bytes, and these in front.
fn begins(rt: &HostRuntime, path: &str, len: usize, front: &[u8]) -> Result<(), Fail> {
    let bytes = fs::read(rt, path)?;
    holds(bytes.len() == len && bytes.get(..front.len()) == Some(front))
}

/// Two files of a folder, with the words of a line.
fn on_files(
    rt: &HostRuntime,
    line: &str,
) -> Result<Outside<FileDisk<HostRuntime>, MemorySource, MemorySink>, Fail> {
    let alloc = rt.alloc();
    let (Ok(pages), Ok(journal)) = (
        FileDisk::at(rt, alloc, "oo7_real_files/oo7.pages"),
        FileDisk::at(rt, alloc, "oo7_real_files/oo7.journal"),
    ) else {
        return Err("no memory".into());
    };
    Ok(Outside {
        arguments: words_of(alloc, line)?,
        pages,
        journal,
        source: MemorySource::new(Vec::new(alloc), Vec::new(alloc)),
        sink: MemorySink::new(alloc, Vec::new(alloc)),
    })
}

#[test]
fn a_store_is_made_in_two_real_files(rt: HostRuntime) -> Result<(), Fail> {
    let _ = fs::remove_dir_all(&rt, "oo7_real_files");
    fs::create_dir(&rt, "oo7_real_files")?;
    let made = on_files(&rt, "oo7 create 64")?.end(&rt, rt.alloc(), &OpenGate);
    holds(made == ExitCode::SUCCESS)?;
    begins(&rt, "oo7_real_files/oo7.pages", 262_144, b"PM3PAGES")?;
    begins(&rt, "oo7_real_files/oo7.journal", 40, &JOURNAL_OF_64)?;
    let again = on_files(&rt, "oo7 create 64")?.end(&rt, rt.alloc(), &OpenGate);
    holds(again == ExitCode::from(9))?;
    fs::remove_dir_all(&rt, "oo7_real_files")?;
    Ok(())
}
