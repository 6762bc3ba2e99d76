//! Stores on devices in memory, and what is printed of them.
ghost use Rattle.std.specs.Prelude.{IfOk};
ghost use Rattle.pm3_journal.specs.Opened.{IsOpenStore};

use crate::{DumpFault, Text, dump};
use pm3_disk::{Disk, MemoryDisk};
use pm3_journal::Opened;
use pm3_store::{OpenCause, create, open};
use pm3_types::{Catalog, Tail, TypeMap};
use std::alloc::Global;
use std::test::Fail;

/// The types: 0 has a word, a reference and a tail of references, and 1 to 8 have a reference and a tail of bytes.
fn types(alloc: Global) -> Result<Catalog, Fail> {
    let mut catalog = Catalog::new(alloc);
    if let Some(map) = TypeMap::new(2, 2, Tail::Refs) {
        catalog.add(map)?;
    }
    for _ in 0..8u8 {
        if let Some(map) = TypeMap::new(1, 1, Tail::Bytes) {
            catalog.add(map)?;
        }
    }
    Ok(catalog)
}

/// The bytes of the two files of a new store of so many pages, of which there are 16 at least.
fn new_files(alloc: Global, count: u32) -> Result<(Vec<u8>, Vec<u8>), Fail> {
    let mut pages = MemoryDisk::new(alloc, Vec::new(alloc), Vec::new(alloc));
    let mut journal = MemoryDisk::new(alloc, Vec::new(alloc), Vec::new(alloc));
    create(
        &mut pages,
        &mut journal,
        count.clamp(16, 64),
        &types(alloc)?,
    )?;
    Ok((
        Vec::from_slice(alloc, pages.bytes())?,
        Vec::from_slice(alloc, journal.bytes())?,
    ))
}

/// A word of a page, and its value.
#[derive(Drop)]
struct Word(u16, u16, u64);

/// Writes words into the bytes of a page file.
fn set_words(bytes: &mut Vec<u8>, words: &[Word]) {
    for word in words {
        set_word(bytes, word.0, word.1, word.2);
    }
}

/// Writes a word of a page into the bytes of a page file.
fn set_word(bytes: &mut Vec<u8>, page: u16, word: u16, value: u64) {
    let at = 4096 * usize::from(page) + 8 * usize::from(word);
    for (place, byte) in value.to_le_bytes().iter().enumerate() {
        if let Some(cell) = bytes.get_mut(at + place) {
            *cell = *byte;
        }
    }
}

/// A reference of a file.
fn reference(page: u16, word: u16) -> u64 {
    (u64::from(page) << 32) + 8 * u64::from(word)
}

/// A store that opens.
fn opened<D: Disk + Drop>(alloc: Global, pages: D, journal: D) -> Result<Opened<D>, OpenCause>
    ensures { IfOk result (λ opened. IsOpenStore D.Disk opened) }
{
    match open(alloc, pages, journal) {
        Ok(opened) => Ok(opened),
        Err(fault) => Err(fault.cause),
    }
}

/// What is printed of a store of sixteen pages with these words, whose page file fails at the call of this number.
fn printed(alloc: Global, words: &[Word], fails: u32) -> Result<Result<Text, DumpFault>, Fail> {
    let (mut bytes, journal) = new_files(alloc, 16)?;
    set_words(&mut bytes, words);
    let pages = MemoryDisk::new(alloc, bytes, vec![in alloc; fails; 1]?);
    let journal = MemoryDisk::new(alloc, journal, Vec::new(alloc));
    let mut opened = opened(alloc, pages, journal)?;
    Ok(dump(alloc, &mut opened))
}

/// The number of a call that is never made.
const NEVER: u32 = 1000;

/// The lines of the root slots from 3 on, all nil.
const OTHER_ROOTS: &str =
    "root 3 nil\nroot 4 nil\nroot 5 nil\nroot 6 nil\nroot 7 nil\nroot 8 nil\nroot 9 nil\nroot 10 nil\nroot 11 nil\nroot 12 nil\nroot 13 nil\nroot 14 nil\nroot 15 nil\n";

/// Page 2 with root 0, and page 3 with one object of type 8, which has nothing.
const ONE_OBJECT: [Word; 4] = [
    Word(2, 2, 0x3_0000_0010),
    Word(3, 0, 0x5_0000_0003),
    Word(3, 2, 8),
    Word(3, 3, 1),
];

#[test]
fn a_new_store_has_sixteen_lines(rt: HostRuntime) -> Result<(), Fail> {
    let alloc = rt.alloc();
    let (pages, journal) = new_files(alloc, 64)?;
    let pages = MemoryDisk::new(alloc, pages, Vec::new(alloc));
    let journal = MemoryDisk::new(alloc, journal, Vec::new(alloc));
    let mut opened = opened(alloc, pages, journal)?;
    let text = dump(alloc, &mut opened)?;
    let wanted = format!(in alloc; "root 0 nil\nroot 1 nil\nroot 2 nil\n{OTHER_ROOTS}")?;
    assert_eq!(rt; text.bytes(), wanted.as_bytes());
    assert_eq!(rt; text.len(), 182);
    Ok(())
}

#[test]
fn one_object_is_printed_behind_the_roots(rt: HostRuntime) -> Result<(), Fail> {
    let alloc = rt.alloc();
    let text = printed(alloc, &ONE_OBJECT, NEVER)??;
    let wanted = format!(in alloc; "root 0 1\nroot 1 nil\nroot 2 nil\n{OTHER_ROOTS}1 8 @nil #\n")?;
    assert_eq!(rt; text.bytes(), wanted.as_bytes());
    Ok(())
}

#[test]
fn objects_are_numbered_as_they_are_met(rt: HostRuntime) -> Result<(), Fail> {
    let alloc = rt.alloc();
    let near = reference(3, 2);
    let far = reference(4, 2);
    // On page 3 an object with a tail of three references, and one that isn't reached; on page 4 one with a tail of two bytes.
    let words = [
        Word(2, 2, far),
        Word(2, 4, near),
        Word(3, 0, 0xc_0000_0003),
        Word(3, 2, 0x3_0000),
        Word(3, 3, 5),
        Word(3, 4, 42),
        Word(3, 5, far),
        Word(3, 6, near),
        Word(3, 8, far),
        Word(3, 9, 8),
        Word(3, 10, 9),
        Word(4, 0, 0x6_0000_0004),
        Word(4, 2, 0x2_0008),
        Word(4, 3, 7),
        Word(4, 4, near),
        Word(4, 5, 0xff00),
    ];
    let text = printed(alloc, &words, NEVER)??;
    let wanted = format!(in alloc;
        "root 0 1\nroot 1 nil\nroot 2 2\n{OTHER_ROOTS}1 8 @2 #00ff\n2 0 42 @1 * @2 @nil @1\n"
    )?;
    assert_eq!(rt; text.bytes(), wanted.as_bytes());
    Ok(())
}

#[test]
fn images_of_the_journal_are_not_loaded(rt: HostRuntime) -> Result<(), Fail> {
    let alloc = rt.alloc();
    let (mut bytes, mut journal) = new_files(alloc, 16)?;
    let pages = Vec::from_slice(alloc, &bytes)?;
    set_words(&mut bytes, &ONE_OBJECT);
    // One record: an open gate, the number 1, the next name 2, two pages and the high page 4.
    journal.truncate(32);
    for (value, count) in [(1, 8), (1, 8), (2, 8), (0, 4), (2, 4), (4, 4), (0, 12)] {
        for place in 0..count {
            journal.push(if place == 0 { value } else { 0u8 })?;
        }
    }
    for page in [2u8, 3] {
        journal.extend_from_slice(&[page, 0, 0, 0, 0, 0, 0, 0])?;
        let (_, rest) = bytes.split_at(bytes.len().min(4096 * usize::from(page)));
        let (image, _) = rest.split_at(rest.len().min(4096));
        journal.extend_from_slice(image)?;
    }
    journal.extend_from_slice(&[0; 8])?;
    // The reader is made by call 3. No call 4 is made.
    let pages = MemoryDisk::new(alloc, pages, vec![in alloc; 4u32; 1]?);
    let journal = MemoryDisk::new(alloc, journal, Vec::new(alloc));
    let mut opened = opened(alloc, pages, journal)?;
    let text = dump(alloc, &mut opened)?;
    let wanted = format!(in alloc; "root 0 1\nroot 1 nil\nroot 2 nil\n{OTHER_ROOTS}1 8 @nil #\n")?;
    assert_eq!(rt; text.bytes(), wanted.as_bytes());
    Ok(())
}

#[test]
fn a_reference_to_no_object_is_damage(rt: HostRuntime) -> Result<(), Fail> {
    let alloc = rt.alloc();
    let root = printed(alloc, &[Word(2, 2, reference(3, 3))], NEVER)?;
    assert_eq!(rt; root.err(), Some(DumpFault::Damaged { page: 3, word: 3 }));
    let second = printed(alloc, &[Word(2, 2, reference(3, 2)), Word(3, 1, 1)], NEVER)?;
    assert_eq!(rt; second.err(), Some(DumpFault::Damaged { page: 3, word: 0 }));
    let roots = printed(alloc, &[Word(2, 0, 2)], NEVER)?;
    assert_eq!(rt; roots.err(), Some(DumpFault::Damaged { page: 2, word: 0 }));
    Ok(())
}

#[test]
fn each_failed_call_is_a_fault(rt: HostRuntime) -> Result<(), Fail> {
    let alloc = rt.alloc();
    // The store is open after four calls. Then a reader is made, and reads pages 2 and 3.
    for call in 4..7 {
        let fault = printed(alloc, &ONE_OBJECT, call)?.err();
        assert_eq!(rt; fault, Some(DumpFault::PageFault), "at {call}");
    }
    assert!(rt; printed(alloc, &ONE_OBJECT, 7)?.is_ok());
    Ok(())
}
