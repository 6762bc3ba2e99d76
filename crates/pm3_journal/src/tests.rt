//! Appends and closings on a device in memory.
ghost use Rattle.std.specs.Prelude.{◌≡◌, ◌^◌, ◌<◌, ◌≤◌, ℕ, length, IfOk, OnOk};
ghost use Rattle.pm3_journal.specs.Entered.{record_of};
ghost use Rattle.pm3_journal.specs.Format.{IsFit};
ghost use Rattle.pm3_journal.specs.Reading.{next_seq};

use crate::{AppendFault, Entry, FilePages, Journal, Receipt, RecoverFault, create, recover};
use pm3_disk::{Memory, MemoryDisk};
use std::alloc::Global;
use std::process::Abort;
use std::test::Fail;

/// An entry of the pages 2 and 4.
pub(crate) fn two_pages(alloc: Global) -> Result<Entry, Memory>
    ensures few { IfOk result (λ entry. length entry.pages.items ≡ 2) }
    ensures fit { IfOk result (λ entry. (pages seq : ℕ) → 16 ≤ pages → pages ≤ 16384 → seq < 2 ^ 64 → IsFit pages (record_of seq entry)) }
{
    let mut pages = FilePages::new(alloc);
    pages.reserve(2)?;
    pages.push(2, &[7; 4096]);
    pages.push(4, &[9; 4096]);
    Ok(Entry {
        tag: 1,
        next_name: 3,
        high_page: 5,
        pins: 0,
        moved: 1,
        pages,
    })
}

/// An entry without pages.
pub(crate) fn no_pages(alloc: Global) -> Entry
    ensures few { length result.pages.items ≡ 0 }
    ensures fit { (pages seq : ℕ) → 16 ≤ pages → pages ≤ 16384 → seq < 2 ^ 64 → IsFit pages (record_of seq result) }
{
    Entry {
        tag: 4,
        next_name: 3,
        high_page: 5,
        pins: 0,
        moved: 0,
        pages: FilePages::new(alloc),
    }
}

/// The device of a new journal.
pub(crate) fn new_device(alloc: Global, pages: u32) -> Result<MemoryDisk, Fail>
    requires least { 16 ≤ pages }
    requires most { pages ≤ 16384 }
{
    let mut disk = MemoryDisk::new(alloc, Vec::new(alloc), Vec::new(alloc));
    create(&mut disk, pages)?;
    Ok(disk)
}

/// The journal of a device.
pub(crate) fn recovered(
    alloc: Global,
    disk: MemoryDisk,
) -> Result<Journal<MemoryDisk>, RecoverFault>
    ensures { IfOk result (λ journal. journal.next < 2 ^ 64) }
{
    match recover(alloc, disk) {
        Ok(journal) => Ok(journal),
        Err((fault, _)) => Err(fault),
    }
}

/// Appends an entry of at most two pages.
pub(crate) fn append(
    rt: &impl Abort,
    journal: &mut Journal<MemoryDisk>,
    entry: &Entry,
) -> Result<Receipt, Fail>
    requires next { journal.old.next < 2 ^ 64 }
    requires few { length entry.now.pages.items ≤ 2 }
    requires fit { (pages seq : ℕ) → 16 ≤ pages → pages ≤ 16384 → seq < 2 ^ 64 → IsFit pages (record_of seq entry.now) }
    ensures { OnOk result (journal.new.next ≡ next_seq journal.old.next) }
{
    assert!(rt; 16 <= journal.pages() && journal.pages() <= 16384);
    journal.reserve(2)?;
    let receipt = journal.append(entry)?;
    Ok(receipt)
}

/// A new journal, whose device fails at one of its calls. Three create it, and three recover it.
fn failing_at(alloc: Global, call: u32) -> Result<Journal<MemoryDisk>, Fail>
    ensures { IfOk result (λ journal. journal.next < 2 ^ 64) }
{
    let mut disk = MemoryDisk::new(alloc, Vec::new(alloc), Vec::from_slice(alloc, &[call])?);
    create(&mut disk, 16)?;
    Ok(recovered(alloc, disk)?)
}

#[test]
fn a_record_is_added(rt: HostRuntime) -> Result<(), Fail> {
    let alloc = rt.alloc();
    let mut journal = recovered(alloc, new_device(alloc, 64)?)?;
    assert_eq!(rt;
        append(&rt, &mut journal, &two_pages(alloc)?)?,
        Receipt {
            seq: 1,
            pinned: 0,
            moved: 1
        }
    );
    assert_eq!(rt; journal.entries().len(), 1);
    let disk = journal.into_disk();
    assert_eq!(rt; disk.calls(), 3 + 3 + 4);
    let bytes = disk.bytes();
    assert_eq!(rt; bytes.len(), 8296);
    let front = [
        1, 0, 0, 0, 0, 0, 0, 0, 1, 0, 0, 0, 0, 0, 0, 0, 3, 0, 0, 0, 0, 0, 0, 0, //
        1, 0, 0, 0, 2, 0, 0, 0, 5, 0, 0, 0, 0, 0, 0, 0, 1, 0, 0, 0, 0, 0, 0, 0,
    ];
    assert_eq!(rt; bytes[32..80], front[..]);
    Ok(())
}

#[test]
fn a_record_may_have_no_pages(rt: HostRuntime) -> Result<(), Fail> {
    let alloc = rt.alloc();
    let mut journal = recovered(alloc, new_device(alloc, 64)?)?;
    append(&rt, &mut journal, &no_pages(alloc))?;
    assert_eq!(rt; journal.into_disk().bytes().len(), 88);
    Ok(())
}

/// Why an append is refused, None where it isn't.
fn refusal(
    rt: &impl Abort,
    journal: &mut Journal<MemoryDisk>,
    entry: &Entry,
) -> Result<Option<AppendFault>, Fail>
    requires next { journal.old.next < 2 ^ 64 }
    requires few { length entry.now.pages.items ≤ 2 }
    requires fit { (pages seq : ℕ) → 16 ≤ pages → pages ≤ 16384 → seq < 2 ^ 64 → IsFit pages (record_of seq entry.now) }
    ensures { OnOk result (journal.new.next < 2 ^ 64) }
{
    assert!(rt; 16 <= journal.pages() && journal.pages() <= 16384);
    journal.reserve(2)?;
    match journal.append(entry) {
        Ok(_) => Ok(None),
        Err(fault) => Ok(Some(fault)),
    }
}

#[test]
fn a_fault_stops_the_journal(rt: HostRuntime) -> Result<(), Fail> {
    let alloc = rt.alloc();
    let mut journal = failing_at(alloc, 9)?;
    let entry = no_pages(alloc);
    assert!(rt; refusal(&rt, &mut journal, &entry)? == Some(AppendFault::JournalFault));
    assert_eq!(rt; journal.stopped(), Some(1));
    assert!(rt; refusal(&rt, &mut journal, &entry)? == Some(AppendFault::Stopped { seq: 1 }));
    Ok(())
}

/// A journal of one record, with the pages 2 and 4, as it is recovered.
fn with_images(rt: &impl Abort, alloc: Global) -> Result<Journal<MemoryDisk>, Fail>
    ensures { IfOk result (λ journal. journal.next < 2 ^ 64) }
{
    let mut journal = recovered(alloc, new_device(alloc, 64)?)?;
    append(rt, &mut journal, &two_pages(alloc)?)?;
    Ok(recovered(alloc, journal.into_disk())?)
}

#[test]
fn the_last_images_are_taken_once(rt: HostRuntime) -> Result<(), Fail> {
    let alloc = rt.alloc();
    let mut journal = with_images(&rt, alloc)?;
    assert_eq!(rt; journal.place_of(2, 3), Some(88 + 24));
    assert_eq!(rt; journal.place_of(4, 511), Some(4192 + 4088));
    assert_eq!(rt; journal.place_of(3, 0), None);
    let images = journal.take_images();
    assert_eq!(rt; images.len(), 2);
    assert!(rt; images.get(2) == Some(&[7; 4096]));
    assert!(rt; images.get(4) == Some(&[9; 4096]));
    assert!(rt; images.get(3).is_none());
    assert_eq!(rt; journal.take_images().len(), 0);
    Ok(())
}

/// The tag of the first entry, None where there is no entry.
fn first_tag(journal: &Journal<MemoryDisk>) -> Option<u32> {
    let entries = journal.entries();
    if entries.len() == 0 {
        return None;
    }
    Some(entries.tag(0))
}

/// Closes the first gate of a journal with entries.
fn close(rt: &impl Abort, journal: &mut Journal<MemoryDisk>) -> Result<(), Fail>
    requires { journal.old.next < 2 ^ 64 }
    ensures { OnOk result (journal.new.next ≡ journal.old.next) }
{
    assert!(rt; journal.entries().len() > 0);
    journal.close_first_gate()?;
    Ok(())
}

#[test]
fn a_journal_goes_on_behind_its_first_gate(rt: HostRuntime) -> Result<(), Fail> {
    let alloc = rt.alloc();
    let mut journal = with_images(&rt, alloc)?;
    assert_eq!(rt; first_tag(&journal), Some(1));
    let entries = journal.entries();
    assert!(rt; entries.has(2) && entries.has(4) && !entries.has(3));
    close(&rt, &mut journal)?;
    assert_eq!(rt; journal.entries().len(), 0);
    assert!(rt; !journal.entries().has(2));
    assert_eq!(rt; append(&rt, &mut journal, &no_pages(alloc))?.seq, 2);
    let journal = recovered(alloc, journal.into_disk())?;
    assert_eq!(rt; journal.entries().len(), 1);
    assert_eq!(rt; first_tag(&journal), Some(4));
    Ok(())
}

#[test]
fn a_closed_journal_has_no_records(rt: HostRuntime) -> Result<(), Fail> {
    let alloc = rt.alloc();
    let mut journal = with_images(&rt, alloc)?;
    close(&rt, &mut journal)?;
    let mut journal = recovered(alloc, journal.into_disk())?;
    assert!(rt; journal.entries().len() == 0);
    journal.start_at(9);
    assert_eq!(rt; append(&rt, &mut journal, &no_pages(alloc))?.seq, 9);
    Ok(())
}

#[test]
fn the_last_marks_and_the_next_number_are_told(rt: HostRuntime) -> Result<(), Fail> {
    let alloc = rt.alloc();
    let mut journal = recovered(alloc, new_device(alloc, 64)?)?;
    assert!(rt; journal.entries().last().is_none());
    append(&rt, &mut journal, &two_pages(alloc)?)?;
    assert!(rt; journal.entries().last() == Some((3, 5)));
    assert_eq!(rt; journal.next(), 2);
    Ok(())
}
