//! What transactions do and see.
ghost use Rattle.std.specs.Prelude.{◌≡◌};
ghost use Rattle.pm3_txn.specs.Underway.{Belongs, HoldsNothing};

use super::*;
use crate::counting::read_count;
use pm3_core::{BASE, PAGE_BYTES};
use pm3_disk::{Disk, MemoryDisk};
use pm3_table::{Busy, Unit};
use pm3_txn::{AccessFault, CommitEnd, CommitRefusal, Heap, Mutator, Tag, Txn};
use std::alloc::Global;
use std::test::Fail;

/// The devices of the small store. Calls of these numbers fail, of each.
fn devices(alloc: Global, page: u32, journal: u32) -> Result<(MemoryDisk, MemoryDisk), Fail> {
    let Some((pages, records)) = small_files(alloc) else {
        return Err(Fail::new("no store"));
    };
    Ok((
        MemoryDisk::new(alloc, pages, vec![in alloc; page; 1]?),
        MemoryDisk::new(alloc, records, vec![in alloc; journal; 1]?),
    ))
}

/// The number of a call that is never made.
const NEVER: u32 = 1000;

#[test]
fn a_commit_is_read_back(rt: HostRuntime) -> Result<(), Fail> {
    let alloc = rt.alloc();
    let (pages, journal) = devices(alloc, NEVER, NEVER)?;
    let Some((heap, first)) = started(alloc, pages, journal) else {
        return Err(Fail::new("no heap"));
    };
    let (first, done) = count_up(&heap, first, 4);
    let receipt = done?;
    assert_eq!(rt; (receipt.seq, receipt.pinned, receipt.moved), (1, 0, 0));
    let (first, done) = count_up(&heap, first, 5);
    assert_eq!(rt; done?.seq, 2);
    let (_, word) = count(&heap, first);
    assert_eq!(rt; word, Ok(9));
    Ok(())
}

/// Adds one and stores a number, and gives up. It tells what stands in the place of the number then.
fn give_up<D: Disk>(
    heap: &Heap<D>,
    mutator: Mutator<D>,
) -> (Mutator<D>, Result<(Tag, u64), AccessFault>)
    requires of { Belongs D.Reader.content heap.now mutator }
    requires bare { HoldsNothing mutator }
    ensures belongs { Belongs D.Reader.content heap.now result.0 }
    ensures bare { HoldsNothing result.0 }
{
    let mut txn = mutator.begin(heap, 1);
    let done = write_and_put(&mut txn);
    let mut mutator = txn.abort();
    let tag = mutator.tag(7);
    let word = mutator.stack_word(heap, 7);
    (mutator, done.map(|()| (tag, word)))
}

fn write_and_put<D: Disk>(txn: &mut Txn<'_, D>) -> Result<(), AccessFault>
    ensures { txn.new.heap ≡ txn.old.heap }
{
    txn.root(0, 0)?;
    txn.set_word(0, 0, 40)?;
    let _ = txn.put_number(7, 12);
    Ok(())
}

#[test]
fn an_abort_leaves_what_was_found(rt: HostRuntime) -> Result<(), Fail> {
    let alloc = rt.alloc();
    let (pages, journal) = devices(alloc, NEVER, NEVER)?;
    let Some((heap, first)) = started(alloc, pages, journal) else {
        return Err(Fail::new("no heap"));
    };
    let (first, place) = give_up(&heap, first);
    assert_eq!(rt; place, Ok((Tag::Ref, 0)));
    let (_, word) = count(&heap, first);
    assert_eq!(rt; word, Ok(7));
    Ok(())
}

/// What a transaction is told of the second object, and of the bytes of its tail from one on.
#[derive(Debug, PartialEq, Eq, Clone, Copy, Drop)]
struct Second {
    ty: u16,
    name: u64,
    len: u32,
    bytes: [u8; 5],
}

fn look_at_second<D: Disk>(txn: &mut Txn<'_, D>) -> Result<Second, AccessFault>
    ensures { txn.new.heap ≡ txn.old.heap }
{
    txn.root(0, 0)?;
    txn.reference(0, 1, 1)?;
    let mut bytes = [0u8; 5];
    txn.bytes(1, 0, &mut bytes)?;
    Ok(Second {
        ty: txn.type_of(1)?,
        name: txn.name_of(1)?,
        len: txn.tail_len(1)?,
        bytes,
    })
}

fn second_object<D: Disk>(
    heap: &Heap<D>,
    mutator: Mutator<D>,
) -> (Mutator<D>, Result<Second, AccessFault>)
    requires of { Belongs D.Reader.content heap.now mutator }
    requires bare { HoldsNothing mutator }
    ensures belongs { Belongs D.Reader.content heap.now result.0 }
    ensures bare { HoldsNothing result.0 }
{
    let mut txn = mutator.begin(heap, 9);
    let seen = look_at_second(&mut txn);
    (txn.abort(), seen)
}

fn write_text<D: Disk>(txn: &mut Txn<'_, D>, bytes: &[u8]) -> Result<(), AccessFault>
    ensures { txn.new.heap ≡ txn.old.heap }
{
    txn.root(0, 0)?;
    txn.reference(0, 1, 1)?;
    txn.set_bytes(1, 1, bytes)
}

fn change_text<D: Disk>(
    heap: &Heap<D>,
    mutator: Mutator<D>,
    bytes: &[u8],
) -> (Mutator<D>, Result<u64, Refusal>)
    requires of { Belongs D.Reader.content heap.now mutator }
    requires bare { HoldsNothing mutator }
    ensures belongs { Belongs D.Reader.content heap.now result.0 }
    ensures bare { HoldsNothing result.0 }
{
    let mut txn = mutator.begin(heap, 2);
    if let Err(fault) = write_text(&mut txn, bytes) {
        return (txn.abort(), Err(Refusal::Access(fault)));
    }
    let (mutator, done) = ended(txn);
    (mutator, done.map(|receipt| receipt.seq))
}

#[test]
fn a_text_is_read_and_written(rt: HostRuntime) -> Result<(), Fail> {
    let alloc = rt.alloc();
    let (pages, journal) = devices(alloc, NEVER, NEVER)?;
    let Some((heap, first)) = started(alloc, pages, journal) else {
        return Err(Fail::new("no heap"));
    };
    let (first, seen) = second_object(&heap, first);
    let found = Second {
        ty: 1,
        name: 2,
        len: 5,
        bytes: *b"hello",
    };
    assert_eq!(rt; seen, Ok(found));
    let (first, done) = change_text(&heap, first, b"ipp");
    assert_eq!(rt; done, Ok(1));
    let (first, seen) = second_object(&heap, first);
    assert_eq!(rt; seen.map(|second| second.bytes), Ok(*b"hippo"));
    // One byte more than there are is none.
    let (_, done) = change_text(&heap, first, b"-----");
    assert_eq!(rt;
        done,
        Err(Refusal::Access(AccessFault::NoSuchTail { ty: 1, at: 5 }))
    );
    Ok(())
}

/// The causes of calls that are refused, one after another.
fn refusals<D: Disk>(txn: &mut Txn<'_, D>) -> [Result<(), AccessFault>; 8]
    ensures { txn.new.heap ≡ txn.old.heap }
{
    let _ = txn.put_number(3, 12);
    let nil = txn.word(0, 0).map(|_| ());
    let number = txn.reference(3, 0, 5);
    let root = txn.root(0, 0);
    let no_word = txn.set_word(0, 1, 4);
    let no_reference = txn.set_reference(0, 0, 0);
    let no_item = txn.tail_ref(0, 1, 5);
    let stored_number = txn.set_tail_ref(0, 0, 3);
    let number_at_root = txn.set_root(1, 3);
    [
        nil,
        number,
        root,
        no_word,
        no_reference,
        no_item,
        stored_number,
        number_at_root,
    ]
}

fn all_refused<D: Disk>(
    heap: &Heap<D>,
    mutator: Mutator<D>,
) -> (Mutator<D>, [Result<(), AccessFault>; 8])
    requires of { Belongs D.Reader.content heap.now mutator }
    requires bare { HoldsNothing mutator }
    ensures belongs { Belongs D.Reader.content heap.now result.0 }
    ensures bare { HoldsNothing result.0 }
{
    let mut txn = mutator.begin(heap, 9);
    let seen = refusals(&mut txn);
    (txn.abort(), seen)
}

#[test]
fn each_refusal_has_its_cause(rt: HostRuntime) -> Result<(), Fail> {
    let alloc = rt.alloc();
    let (pages, journal) = devices(alloc, NEVER, NEVER)?;
    let Some((heap, first)) = started(alloc, pages, journal) else {
        return Err(Fail::new("no heap"));
    };
    let (_, seen) = all_refused(&heap, first);
    let wanted = [
        Err(AccessFault::Nil { index: 0 }),
        Err(AccessFault::NotAReference { index: 3 }),
        Ok(()),
        Err(AccessFault::NoSuchField { ty: 0, field: 1 }),
        Err(AccessFault::NoSuchField { ty: 0, field: 0 }),
        Err(AccessFault::NoSuchTail { ty: 0, at: 1 }),
        Err(AccessFault::NotAReference { index: 3 }),
        Err(AccessFault::NotAReference { index: 3 }),
    ];
    assert_eq!(rt; seen, wanted);
    Ok(())
}

fn empty_root<D: Disk>(txn: &mut Txn<'_, D>) -> Result<(), AccessFault>
    ensures { txn.new.heap ≡ txn.old.heap }
{
    txn.clear(0);
    txn.set_root(0, 0)
}

fn without_root<D: Disk>(heap: &Heap<D>, mutator: Mutator<D>) -> (Mutator<D>, Result<u64, Refusal>)
    requires of { Belongs D.Reader.content heap.now mutator }
    requires bare { HoldsNothing mutator }
    ensures belongs { Belongs D.Reader.content heap.now result.0 }
    ensures bare { HoldsNothing result.0 }
{
    let mut txn = mutator.begin(heap, 3);
    if let Err(fault) = empty_root(&mut txn) {
        return (txn.abort(), Err(Refusal::Access(fault)));
    }
    let (mutator, done) = ended(txn);
    (mutator, done.map(|receipt| receipt.seq))
}

#[test]
fn a_root_is_made_nil(rt: HostRuntime) -> Result<(), Fail> {
    let alloc = rt.alloc();
    let (pages, journal) = devices(alloc, NEVER, NEVER)?;
    let Some((heap, first)) = started(alloc, pages, journal) else {
        return Err(Fail::new("no heap"));
    };
    let (first, done) = without_root(&heap, first);
    assert_eq!(rt; done, Ok(1));
    let (_, word) = count(&heap, first);
    assert_eq!(rt; word, Err(AccessFault::Nil { index: 0 }));
    Ok(())
}

/// One mutator holds the page of the roots while another asks for it. Then it commits, and the other asks again.
fn one_after_another<D: Disk>(
    heap: &Heap<D>,
    first: Mutator<D>,
    second: Mutator<D>,
) -> (Mutator<D>, Mutator<D>, [Result<u64, AccessFault>; 2])
    requires of { Belongs D.Reader.content heap.now first }
    requires bare { HoldsNothing first }
    requires second { Belongs D.Reader.content heap.now second }
    requires free { HoldsNothing second }
    ensures belongs { Belongs D.Reader.content heap.now result.0 }
    ensures bare { HoldsNothing result.0 }
    ensures second { Belongs D.Reader.content heap.now result.1 }
    ensures free { HoldsNothing result.1 }
{
    let mut txn = first.begin(heap, 1);
    let held = read_count(&mut txn);
    let (second, beside) = count(heap, second);
    let (first, _) = ended(txn);
    let (second, behind) = count(heap, second);
    (first, second, [held.and(beside), behind])
}

/// The first mutator makes another, and they take turns. In the end the other is joined back.
fn beside<D: Disk>(
    heap: &Heap<D>,
    first: Mutator<D>,
    reader: D::Reader,
) -> Option<[Result<u64, AccessFault>; 2]>
where
    D::Reader: Drop,
    D: Drop,
    requires of { Belongs D.Reader.content heap.now first }
    requires bare { HoldsNothing first }
    requires reads { D.Reader.content reader ≡ heap.now.1.opening.file }
{
    let mut first = first;
    let Ok(second) = first.fresh(heap, reader) else {
        return None;
    };
    let (mut first, second, seen) = one_after_another(heap, first, second);
    first.join_back(heap, second);
    Some(seen)
}

#[test]
fn a_page_that_another_holds_is_busy(rt: HostRuntime) -> Result<(), Fail> {
    let alloc = rt.alloc();
    let (pages, journal) = devices(alloc, NEVER, NEVER)?;
    let Some((heap, first, reader)) = started_with(alloc, pages, journal) else {
        return Err(Fail::new("no heap"));
    };
    let seen = beside(&heap, first, reader);
    let busy = AccessFault::Busy {
        unit: Unit::Page(2),
        word: 1,
    };
    assert_eq!(rt; seen, Some([Err(busy), Ok(7)]));
    Ok(())
}

/// Two mutators add one in turn, so many times each. It tells how often they were refused, and what the word is then.
fn in_turn<D: Disk>(
    heap: &Heap<D>,
    first: Mutator<D>,
    reader: D::Reader,
    times: u32,
) -> Option<(u32, u32, Result<u64, AccessFault>)>
where
    D::Reader: Drop,
    D: Drop,
    requires of { Belongs D.Reader.content heap.now first }
    requires bare { HoldsNothing first }
    requires reads { D.Reader.content reader ≡ heap.now.1.opening.file }
{
    let mut first = first;
    let Ok(second) = first.fresh(heap, reader) else {
        return None;
    };
    let (first, one) = add_up(heap, first, times);
    let (second, other) = add_up(heap, second, times);
    let (_, word) = count(heap, first);
    let (_, _) = count(heap, second);
    Some((one, other, word))
}

#[test]
fn two_mutators_add_in_turn(rt: HostRuntime) -> Result<(), Fail> {
    let alloc = rt.alloc();
    let (pages, journal) = devices(alloc, NEVER, NEVER)?;
    let Some((heap, first, reader)) = started_with(alloc, pages, journal) else {
        return Err(Fail::new("no heap"));
    };
    assert_eq!(rt; in_turn(&heap, first, reader, 10), Some((0, 0, Ok(27))));
    Ok(())
}

/// The ends of two commits.
fn two_commits<D: Disk>(
    heap: &Heap<D>,
    first: Mutator<D>,
) -> (Mutator<D>, [Result<u64, Refusal>; 2])
    requires of { Belongs D.Reader.content heap.now first }
    requires bare { HoldsNothing first }
    ensures belongs { Belongs D.Reader.content heap.now result.0 }
    ensures bare { HoldsNothing result.0 }
{
    let (first, one) = count_up(heap, first, 1);
    let (first, other) = count_up(heap, first, 2);
    (
        first,
        [
            one.map(|receipt| receipt.seq),
            other.map(|receipt| receipt.seq),
        ],
    )
}

/// How many calls are made on the journal's device until the heap is started.
const OPENING: u32 = 3;

#[test]
fn a_failed_append_stops_the_journal(rt: HostRuntime) -> Result<(), Fail> {
    let alloc = rt.alloc();
    for call in OPENING..OPENING + 4 {
        let (pages, journal) = devices(alloc, NEVER, call)?;
        let Some((heap, first)) = started(alloc, pages, journal) else {
            return Err(Fail::new("no heap"));
        };
        let (first, seen) = two_commits(&heap, first);
        let wanted = [
            Err(Refusal::End(CommitEnd::JournalFault)),
            Err(Refusal::End(CommitEnd::Stopped { seq: 1 })),
        ];
        assert_eq!(rt; seen, wanted, "call {call}");
        let (_, word) = count(&heap, first);
        assert_eq!(rt; word, Ok(7));
    }
    Ok(())
}

/// The ends of two reads of the word.
fn two_reads<D: Disk>(
    heap: &Heap<D>,
    first: Mutator<D>,
) -> (Mutator<D>, [Result<u64, AccessFault>; 2])
    requires of { Belongs D.Reader.content heap.now first }
    requires bare { HoldsNothing first }
    ensures belongs { Belongs D.Reader.content heap.now result.0 }
    ensures bare { HoldsNothing result.0 }
{
    let (first, one) = count(heap, first);
    let (first, other) = count(heap, first);
    (first, [one, other])
}

/// The call of the page file's device by which page 3 is loaded.
const LOAD: u32 = 6;

#[test]
fn a_failed_load_may_be_tried_again(rt: HostRuntime) -> Result<(), Fail> {
    let alloc = rt.alloc();
    let (pages, journal) = devices(alloc, LOAD, NEVER)?;
    let Some((heap, first)) = started(alloc, pages, journal) else {
        return Err(Fail::new("no heap"));
    };
    let (_, seen) = two_reads(&heap, first);
    assert_eq!(rt; seen, [Err(AccessFault::PageFault), Ok(7)]);
    Ok(())
}
