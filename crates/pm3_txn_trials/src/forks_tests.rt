//! A mutator that is forked has its maker's words and space.
use super::*;
use crate::forks::{forked_number, make_beside_fork, make_often};
use pm3_disk::MemoryDisk;
use pm3_table::{Limit, Unit};
use pm3_txn::{AccessFault, ForkFault, Tag};
use std::alloc::Global;
use std::test::Fail;

/// The devices of the small store.
fn devices(alloc: Global) -> Result<(MemoryDisk, MemoryDisk), Fail> {
    let Some((pages, records)) = small_files(alloc) else {
        return Err(Fail::new("no store"));
    };
    Ok((
        MemoryDisk::new(alloc, pages, vec![in alloc; 1000; 1]?),
        MemoryDisk::new(alloc, records, vec![in alloc; 1000; 1]?),
    ))
}

#[test]
fn a_fork_has_the_words_and_the_tags(rt: HostRuntime) -> Result<(), Fail> {
    let alloc = rt.alloc();
    let (pages, journal) = devices(alloc)?;
    let Some((heap, first, reader)) = started_with(alloc, pages, journal) else {
        return Err(Fail::new("no heap"));
    };
    assert_eq!(rt;
        forked_number(&heap, first, reader, 9),
        Some((Tag::Number, 9))
    );
    Ok(())
}

#[test]
fn a_fork_shares_the_space(rt: HostRuntime) -> Result<(), Fail> {
    let alloc = rt.alloc();
    let (pages, journal) = devices(alloc)?;
    let Some((heap, first, reader)) = started_with(alloc, pages, journal) else {
        return Err(Fail::new("no heap"));
    };
    let made = make_beside_fork(&heap, first, reader);
    let busy = AccessFault::Busy {
        unit: Unit::Space(0),
        word: 1,
    };
    assert_eq!(rt; made, Some([Ok(()), Err(busy)]));
    Ok(())
}

/// Makes more mutators than there can be, and tells how many were made.
fn rows_used(alloc: Global, of_group: bool) -> Result<(u32, Option<ForkFault>), Fail> {
    let (pages, journal) = devices(alloc)?;
    let Some((heap, first, reader)) = started_with(alloc, pages, journal) else {
        return Err(Fail::new("no heap"));
    };
    Ok(make_often(&heap, first, reader, of_group, 40))
}

#[test]
fn the_rows_are_used_up(rt: HostRuntime) -> Result<(), Fail> {
    let alloc = rt.alloc();
    let full = ForkFault::Full {
        what: Limit::Rows,
        limit: 32,
    };
    assert_eq!(rt; rows_used(alloc, false)?, (31, Some(full)));
    assert_eq!(rt; rows_used(alloc, true)?, (31, Some(full)));
    Ok(())
}

#[test]
fn a_heap_is_closed_once_all_are_joined(rt: HostRuntime) -> Result<(), Fail> {
    let alloc = rt.alloc();
    let (pages, journal) = devices(alloc)?;
    let Some((heap, first, reader)) = started_with(alloc, pages, journal) else {
        return Err(Fail::new("no heap"));
    };
    let told = closed_once_all_are_joined(heap, first, reader);
    assert_eq!(rt; told, Some(((2, 1), true)));
    Ok(())
}
