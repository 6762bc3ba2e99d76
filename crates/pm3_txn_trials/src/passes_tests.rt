//! Commits with passes.
ghost use Rattle.std.specs.Prelude.{◌≤◌};

use super::*;
use crate::steps::{End, Step, performed_all, seen_after};
use oo7_dump::{Text, dump};
use oo7_schema::catalog;
use pm3_core::BASE;
use pm3_disk::MemoryDisk;
use pm3_journal::Opened;
use pm3_store::{checkpoint, create, open};
use pm3_table::Limit;
use pm3_txn::{AccessFault, CommitEnd, CommitRefusal};
use std::alloc::Global;
use std::process::Abort;
use std::test::Fail;

/// The devices of a new store of so many pages. A call of this number fails, of the journal's.
fn devices(alloc: Global, count: u32, fails: u32) -> Result<(MemoryDisk, MemoryDisk), Fail>
    requires few { 16 ≤ count }
    requires most { count ≤ 16384 }
{
    let mut pages = MemoryDisk::new(alloc, Vec::new(alloc), Vec::new(alloc));
    let mut journal = MemoryDisk::new(alloc, Vec::new(alloc), Vec::new(alloc));
    create(&mut pages, &mut journal, count, &catalog(alloc)?)?;
    let records = Vec::from_slice(alloc, journal.bytes())?;
    Ok((
        pages,
        MemoryDisk::new(alloc, records, vec![in alloc; fails; 1]?),
    ))
}

/// The number of a call that is never made.
const NEVER: u32 = 1000;

/// An object under root 0, and one that nothing refers to.
const PAIR: [Step; 5] = [
    Step::Make { tail: 0, at: 0 },
    Step::Make { tail: 0, at: 1 },
    Step::Root { at: 0 },
    Step::Clear { at: 0 },
    Step::Clear { at: 1 },
];

/// A number that names page 3.
const NAMES_THREE: Step = Step::Number {
    at: 5,
    word: BASE + 4096 * 3 + 100,
};

/// An object that nothing refers to.
const LONE: [Step; 2] = [Step::Make { tail: 0, at: 0 }, Step::Clear { at: 0 }];

/// How the transactions end on a new store of 64 pages, and its devices then.
fn after(
    alloc: Global,
    count: u32,
    lists: &[&[Step]],
) -> Result<(Vec<End>, MemoryDisk, MemoryDisk), Fail>
    requires few { 16 ≤ count }
    requires most { count ≤ 16384 }
{
    let (pages, journal) = devices(alloc, count, NEVER)?;
    let Some(seen) = performed_all(alloc, pages, journal, lists) else {
        return Err(Fail::new("no store"));
    };
    Ok(seen)
}

/// The number, the pins and the moves of an end's receipt.
fn told(ends: &Vec<End>, i: usize) -> Option<(u64, u32, u32)> {
    match ends.get(i) {
        Some(Ok(receipt)) => Some((receipt.seq, receipt.pinned, receipt.moved)),
        _ => None,
    }
}

/// The word of a file at an offset.
fn word_at(bytes: &[u8], at: usize) -> Option<u64> {
    let mut word = 0u64;
    let from = bytes.get(at..)?;
    for byte in from.get(..8)?.iter().rev() {
        word = (word << 8) | u64::from(*byte);
    }
    Some(word)
}

#[test]
fn a_word_pins_its_page(rt: HostRuntime) -> Result<(), Fail> {
    let alloc = rt.alloc();
    let mut steps = [NAMES_THREE; 6];
    steps[..5].copy_from_slice(&PAIR);
    let (ends, _, journal) = after(alloc, 64, &[&steps])?;
    assert_eq!(rt; told(&ends, 0), Some((1, 1, 0)));
    let bytes = journal.bytes();
    // The record has pages 2 and 3, and page 3 both objects, of three words each.
    assert_eq!(rt; word_at(bytes, 80), Some(2));
    assert_eq!(rt; word_at(bytes, 80 + 4104), Some(3));
    assert_eq!(rt; word_at(bytes, 80 + 4112), Some(3 + (8 << 32)));
    Ok(())
}

#[test]
fn what_a_root_reaches_moves_off_a_page_that_no_word_names(rt: HostRuntime) -> Result<(), Fail> {
    let alloc = rt.alloc();
    let (ends, _, journal) = after(alloc, 64, &[&PAIR])?;
    assert_eq!(rt; told(&ends, 0), Some((1, 0, 1)));
    let bytes = journal.bytes();
    assert_eq!(rt; bytes.len(), 8296);
    let head = [1, 1, 3, 1 + (2 << 32), 5, 1];
    for (n, word) in head.iter().enumerate() {
        assert_eq!(rt; word_at(bytes, 32 + 8 * n), Some(*word));
    }
    // Page 4 has the one object, under the name 1.
    assert_eq!(rt; word_at(bytes, 80 + 4104), Some(4));
    assert_eq!(rt; word_at(bytes, 80 + 4112), Some(4 + (5 << 32)));
    assert_eq!(rt; word_at(bytes, 80 + 4112 + 24), Some(1));
    Ok(())
}

/// The page on which the next object is made after these transactions, and its name.
fn next_made(alloc: Global, lists: &[&[Step]]) -> Result<Option<(u64, u64)>, Fail> {
    let (pages, journal) = devices(alloc, 64, NEVER)?;
    let made = [Step::Make { tail: 0, at: 0 }];
    match seen_after(alloc, pages, journal, lists, &made, 0) {
        Some(Ok((word, name))) => Ok(Some((word.wrapping_sub(BASE) / 4096, name))),
        _ => Ok(None),
    }
}

#[test]
fn a_page_that_was_given_up_is_used_again(rt: HostRuntime) -> Result<(), Fail> {
    let alloc = rt.alloc();
    let page = next_made(alloc, &[&PAIR])?;
    assert_eq!(rt; page, Some((3, 3)));
    let (ends, _, journal) = after(alloc, 64, &[&PAIR, &LONE])?;
    assert_eq!(rt; told(&ends, 1), Some((2, 0, 0)));
    // The second record has no pages.
    assert_eq!(rt; journal.bytes().len(), 8296 + 48);
    let page = next_made(alloc, &[&PAIR, &LONE])?;
    assert_eq!(rt; page, Some((3, 4)));
    Ok(())
}

/// Two objects that refer to each other, with two great ones between them.
const APART: [Step; 12] = [
    Step::Make { tail: 0, at: 0 },
    Step::Make { tail: 3072, at: 1 },
    Step::Make { tail: 3072, at: 2 },
    Step::Make { tail: 0, at: 3 },
    Step::Link { at: 0, to: 3 },
    Step::Link { at: 3, to: 0 },
    Step::Root { at: 0 },
    Step::Clear { at: 0 },
    Step::Clear { at: 1 },
    Step::Clear { at: 2 },
    Step::Clear { at: 3 },
    Step::Number {
        at: 5,
        word: BASE + 4096 * 3,
    },
];

#[test]
fn a_cycle_over_a_pinned_page_stays_a_cycle(rt: HostRuntime) -> Result<(), Fail> {
    let alloc = rt.alloc();
    let (ends, pages, journal) = after(alloc, 64, &[&APART])?;
    assert_eq!(rt; told(&ends, 0), Some((1, 1, 1)));
    let bytes = journal.bytes();
    assert_eq!(rt; word_at(bytes, 80), Some(2));
    assert_eq!(rt; word_at(bytes, 80 + 4104), Some(3));
    assert_eq!(rt; word_at(bytes, 80 + 2 * 4104), Some(5));
    let there = [Step::Look { at: 0 }, Step::Follow { at: 0, to: 1 }];
    let back = [
        Step::Look { at: 0 },
        Step::Follow { at: 0, to: 1 },
        Step::Follow { at: 1, to: 2 },
    ];
    let names = names(alloc, pages, journal, &there, &back)?;
    assert_eq!(rt; names, (Some(4), Some(1)));
    Ok(())
}

/// The names of what is found at place 1 by the first calls, and at place 2 by the others.
fn names(
    alloc: Global,
    pages: MemoryDisk,
    journal: MemoryDisk,
    first: &[Step],
    other: &[Step],
) -> Result<(Option<u64>, Option<u64>), Fail> {
    let (file, records) = copies(alloc, &pages, &journal)?;
    let one = name_after(alloc, pages, journal, first, 1);
    let two = name_after(alloc, file, records, other, 2);
    Ok((one, two))
}

fn name_after(
    alloc: Global,
    pages: MemoryDisk,
    journal: MemoryDisk,
    steps: &[Step],
    at: u8,
) -> Option<u64> {
    match seen_after(alloc, pages, journal, &[], steps, at) {
        Some(Ok((_, name))) => Some(name),
        _ => None,
    }
}

/// Devices with the same bytes.
fn copies(
    alloc: Global,
    pages: &MemoryDisk,
    journal: &MemoryDisk,
) -> Result<(MemoryDisk, MemoryDisk), Fail> {
    let file = Vec::from_slice(alloc, pages.bytes())?;
    let records = Vec::from_slice(alloc, journal.bytes())?;
    Ok((
        MemoryDisk::new(alloc, file, Vec::new(alloc)),
        MemoryDisk::new(alloc, records, Vec::new(alloc)),
    ))
}

/// As many objects of a page each as a store of 16 pages has room for, and one more.
const ALL: [Step; 13] = [Step::Make { tail: 3072, at: 0 }; 13];

const TOO_MANY: [Step; 14] = [Step::Make { tail: 3072, at: 0 }; 14];

#[test]
fn the_pages_of_an_aborted_transaction_serve_a_commit(rt: HostRuntime) -> Result<(), Fail> {
    let alloc = rt.alloc();
    let (ends, _, _) = after(alloc, 16, &[&TOO_MANY, &PAIR])?;
    let full = AccessFault::Full {
        what: Limit::Pages,
        limit: 16,
    };
    assert_eq!(rt; ends.get(0), Some(&Err(Refusal::Access(full))));
    assert_eq!(rt; told(&ends, 1), Some((1, 0, 1)));
    // One object less has room, and then the place refers to it.
    let (ends, _, _) = after(alloc, 16, &[&ALL])?;
    assert_eq!(rt;
        ends.get(0),
        Some(&Err(Refusal::Commit(CommitRefusal::Later)))
    );
    Ok(())
}

/// Seven objects of a page each, each of which refers to the one before.
const CHAIN: [Step; 21] = [
    Step::Make { tail: 3072, at: 0 },
    Step::Make { tail: 3072, at: 1 },
    Step::Make { tail: 3072, at: 2 },
    Step::Make { tail: 3072, at: 3 },
    Step::Make { tail: 3072, at: 4 },
    Step::Make { tail: 3072, at: 5 },
    Step::Make { tail: 3072, at: 6 },
    Step::Link { at: 1, to: 0 },
    Step::Link { at: 2, to: 1 },
    Step::Link { at: 3, to: 2 },
    Step::Link { at: 4, to: 3 },
    Step::Link { at: 5, to: 4 },
    Step::Link { at: 6, to: 5 },
    Step::Root { at: 6 },
    Step::Clear { at: 0 },
    Step::Clear { at: 1 },
    Step::Clear { at: 2 },
    Step::Clear { at: 3 },
    Step::Clear { at: 4 },
    Step::Clear { at: 5 },
    Step::Clear { at: 6 },
];

#[test]
fn a_pass_that_wants_too_many_pages_is_refused(rt: HostRuntime) -> Result<(), Fail> {
    let alloc = rt.alloc();
    // Seven of the thirteen pages that hold objects are full, and all seven objects would move.
    let (ends, _, _) = after(alloc, 16, &[&CHAIN, &PAIR])?;
    let full = CommitRefusal::Full {
        what: Limit::Pages,
        limit: 16,
    };
    assert_eq!(rt; ends.get(0), Some(&Err(Refusal::Commit(full))));
    assert_eq!(rt; told(&ends, 1), Some((1, 0, 1)));
    Ok(())
}

#[test]
fn a_failed_append_ends_the_transaction(rt: HostRuntime) -> Result<(), Fail> {
    let alloc = rt.alloc();
    let mut faults = 0u32;
    for call in 0..16u32 {
        let (pages, journal) = devices(alloc, 64, call)?;
        if has_failed(alloc, pages, journal) {
            faults = faults.saturating_add(1);
        }
    }
    // Each call of the append.
    assert!(rt; faults >= 4, "{faults} calls");
    Ok(())
}

/// Whether the first commit fails by its device, and the next one finds the journal stopped.
fn has_failed(alloc: Global, pages: MemoryDisk, journal: MemoryDisk) -> bool {
    let Some((ends, _, _)) = performed_all(alloc, pages, journal, &[&PAIR, &LONE]) else {
        return false;
    };
    ends.get(0) == Some(&Err(Refusal::End(CommitEnd::JournalFault)))
        && ends.get(1) == Some(&Err(Refusal::End(CommitEnd::Stopped { seq: 1 })))
}

#[test]
fn a_checkpoint_keeps_what_a_pass_left(rt: HostRuntime) -> Result<(), Fail> {
    let alloc = rt.alloc();
    let (_, pages, journal) = after(alloc, 64, &[&PAIR])?;
    let (texts, gate) = texts(alloc, pages, journal)?;
    assert_eq!(rt; texts.0.bytes(), texts.1.bytes());
    assert_eq!(rt; gate, Some(0));
    Ok(())
}

/// The texts of a store before a checkpoint and after it, and the first gate then.
fn texts(
    alloc: Global,
    pages: MemoryDisk,
    journal: MemoryDisk,
) -> Result<((Text, Text), Option<u8>), Fail> {
    let Ok(mut opened) = open(alloc, pages, journal) else {
        return Err(Fail::new("no store"));
    };
    let before = dump(alloc, &mut opened)?;
    checkpoint(alloc, &mut opened)?;
    let behind = dump(alloc, &mut opened)?;
    let Opened { journal, .. } = opened;
    let gate = journal.into_disk().bytes().get(32).copied();
    Ok(((before, behind), gate))
}

/// An object that refers to the one under root 0, and takes its place there.
const PUSH: [Step; 6] = [
    Step::Look { at: 0 },
    Step::Make { tail: 0, at: 1 },
    Step::Link { at: 1, to: 0 },
    Step::Root { at: 1 },
    Step::Clear { at: 0 },
    Step::Clear { at: 1 },
];

/// The way along the list under root 0.
const WALK: [Step; 4] = [
    Step::Look { at: 0 },
    Step::Follow { at: 0, to: 0 },
    Step::Follow { at: 0, to: 0 },
    Step::Follow { at: 0, to: 0 },
];

/// How many objects the list under root 0 has.
fn length(alloc: Global, pages: &MemoryDisk, journal: &MemoryDisk) -> Result<u32, Fail> {
    let mut length = 0u32;
    for steps in [&WALK[..1], &WALK[..2], &WALK[..3], &WALK[..4]] {
        let (file, records) = copies(alloc, pages, journal)?;
        if name_after(alloc, file, records, steps, 0).is_some() {
            length = length.saturating_add(1);
        }
    }
    Ok(length)
}

/// The devices after so many pushes, three at most.
fn pushed(alloc: Global, times: u32) -> Result<(MemoryDisk, MemoryDisk), Fail> {
    let all: [&[Step]; 3] = [&PUSH, &PUSH, &PUSH];
    let count = if times < 3 { times as usize } else { 3 };
    let (_, pages, journal) = after(alloc, 64, &all[..count])?;
    Ok((pages, journal))
}

/// What a crash in a call of a disk leaves.
fn left_in(rt: &impl Abort, disk: &MemoryDisk, call: u32, choice: u64) -> Result<MemoryDisk, Fail> {
    assert!(rt; call < disk.calls());
    Ok(disk.crash(call, choice)?)
}

#[test]
fn a_crash_in_an_append_leaves_the_commits_before(rt: HostRuntime) -> Result<(), Fail> {
    let alloc = rt.alloc();
    let (pages, journal) = pushed(alloc, 3)?;
    for done in 0..3u32 {
        let first = pushed(alloc, done)?.1.calls();
        let last = pushed(alloc, done.saturating_add(1))?.1.calls();
        for call in first..last {
            for choice in 0..4 {
                let left = left_in(&rt, &journal, call, choice)?;
                let length = length(alloc, &pages, &left)?;
                assert!(rt;
                    length == done || length == done.saturating_add(1),
                    "call {call}, choice {choice}: {length} objects"
                );
            }
        }
    }
    assert_eq!(rt; length(alloc, &pages, &journal)?, 3);
    Ok(())
}
