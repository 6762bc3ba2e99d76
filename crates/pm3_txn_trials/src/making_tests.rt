//! What transactions do that make objects.
ghost use Rattle.std.specs.Prelude.{◌≡◌};
ghost use Rattle.pm3_txn.specs.Underway.{Belongs, HoldsNothing};

use super::*;
use crate::making::{Pair, filled, forgotten_pair, make, make_once};
use pm3_disk::{Disk, MemoryDisk};
use pm3_table::Limit;
use pm3_txn::{AccessFault, CommitRefusal, Heap, Mutator, Tag};
use std::alloc::Global;
use std::test::Fail;

/// The devices of the small store.
fn devices(alloc: Global) -> Result<(MemoryDisk, MemoryDisk), Fail> {
    let Some((pages, records)) = small_files(alloc) else {
        return Err(Fail::new("no store"));
    };
    Ok((
        MemoryDisk::new(alloc, pages, Vec::new(alloc)),
        MemoryDisk::new(alloc, records, Vec::new(alloc)),
    ))
}

#[test]
fn made_objects_are_linked_and_forgotten(rt: HostRuntime) -> Result<(), Fail> {
    let alloc = rt.alloc();
    let (pages, journal) = devices(alloc)?;
    let Some((heap, first)) = started(alloc, pages, journal) else {
        return Err(Fail::new("no heap"));
    };
    let (first, seen) = forgotten_pair(&heap, first);
    let pair = Pair {
        names: [3, 4],
        ty: 1,
        blank: 0,
        word: 9,
        bytes: *b"hello",
    };
    assert_eq!(rt; seen, Ok(pair));
    assert_eq!(rt; (first.tag(0), first.tag(3)), (Tag::Ref, Tag::Ref));
    // The names were used up, and the page is drawn no more.
    let (_, seen) = forgotten_pair(&heap, first);
    assert_eq!(rt; seen.map(|pair| pair.names), Ok([5, 6]));
    Ok(())
}

#[test]
fn the_pages_of_the_store_are_used_up_once(rt: HostRuntime) -> Result<(), Fail> {
    let alloc = rt.alloc();
    let (pages, journal) = devices(alloc)?;
    let Some((heap, first)) = started(alloc, pages, journal) else {
        return Err(Fail::new("no heap"));
    };
    let none = Err(AccessFault::Full {
        what: Limit::Pages,
        limit: 16,
    });
    let (first, seen) = filled(&heap, first);
    assert_eq!(rt; seen, (11, none));
    // Given up, they are free pages of the space.
    let (_, seen) = filled(&heap, first);
    assert_eq!(rt; seen, (11, none));
    Ok(())
}

/// Makes an object and tries to commit.
fn commit_made<D: Disk>(
    heap: &Heap<D>,
    mutator: Mutator<D>,
) -> (Mutator<D>, Result<(), AccessFault>, Option<Refusal>)
    requires of { Belongs D.Reader.content heap.now mutator }
    requires bare { HoldsNothing mutator }
    ensures belongs { Belongs D.Reader.content heap.now result.0 }
    ensures bare { HoldsNothing result.0 }
{
    let mut txn = mutator.begin(heap, 1);
    let made = make(&mut txn, 1, 3, 0);
    let (mutator, done) = ended(txn);
    (mutator, made, done.err())
}

#[test]
fn a_transaction_that_made_objects_commits_later(rt: HostRuntime) -> Result<(), Fail> {
    let alloc = rt.alloc();
    let (pages, journal) = devices(alloc)?;
    let Some((heap, first)) = started(alloc, pages, journal) else {
        return Err(Fail::new("no heap"));
    };
    let (first, made, refusal) = commit_made(&heap, first);
    assert_eq!(rt; made, Ok(()));
    assert_eq!(rt; refusal, Some(Refusal::Commit(CommitRefusal::Later)));
    // It was given up, and another goes on.
    let (_, done) = count_up(&heap, first, 4);
    assert_eq!(rt; done.map(|receipt| receipt.seq), Ok(1));
    Ok(())
}

#[test]
fn what_was_made_is_read_back_from_the_closed_store(rt: HostRuntime) -> Result<(), Fail> {
    let alloc = rt.alloc();
    let pages = MemoryDisk::new(alloc, Vec::new(alloc), Vec::new(alloc));
    let journal = MemoryDisk::new(alloc, Vec::new(alloc), Vec::new(alloc));
    let seen = write_and_read(alloc, pages, journal);
    assert_eq!(rt; seen, Some(Ok((1, *b"Emma."))));
    Ok(())
}

#[test]
fn the_names_are_used_up(rt: HostRuntime) -> Result<(), Fail> {
    let alloc = rt.alloc();
    let Some((pages, records)) = files_named(alloc, 1 << 62) else {
        return Err(Fail::new("no store"));
    };
    let pages = MemoryDisk::new(alloc, pages, vec![in alloc; 1000; 1]?);
    let journal = MemoryDisk::new(alloc, records, vec![in alloc; 1000; 1]?);
    let Some((heap, first)) = started(alloc, pages, journal) else {
        return Err(Fail::new("no heap"));
    };
    let (_, made) = make_once(&heap, first, 1);
    let full = AccessFault::Full {
        what: Limit::Names,
        limit: 1 << 62,
    };
    assert_eq!(rt; made, Err(full));
    Ok(())
}
