//! The files of a small store.
use pm3_disk::MemoryDisk;
use pm3_store::create;
use pm3_types::{Catalog, Tail, TypeMap};
use std::alloc::Global;

/// How many pages the store has.
const PAGES: u32 = 16;

/// The types: 0 has a word, a reference and a tail of references, and 1 has a reference and a tail of bytes.
fn types(alloc: Global) -> Option<Catalog> {
    let mut catalog = Catalog::new(alloc);
    for map in [
        TypeMap::new(2, 2, Tail::Refs),
        TypeMap::new(1, 1, Tail::Bytes),
    ] {
        let Ok(_) = catalog.add(map?) else {
            return None;
        };
    }
    Some(catalog)
}

/// A reference of a file.
pub fn reference(page: u16, word: u16) -> u64 {
    (u64::from(page) << 32) + 8 * u64::from(word)
}

/// Writes a word of a page into the bytes of a page file.
fn set_word(bytes: &mut Vec<u8>, page: u16, word: u16, value: u64) {
    let at = 4096 * usize::from(page) + 8 * usize::from(word);
    for (place, byte) in value.to_le_bytes().iter().enumerate() {
        if let Some(cell) = bytes.get_mut(at + place) {
            *cell = *byte;
        }
    }
}

/// The page file and the journal of a store with two objects. The first, under root 0 and on page 3, has the word 7, and refers to
/// the second, and with its tail to itself. The second, on page 4, has the bytes of `hello`.
pub fn small_files(alloc: Global) -> Option<(Vec<u8>, Vec<u8>)> {
    files_named(alloc, 3)
}

/// The same files with another next name.
pub fn files_named(alloc: Global, next_name: u64) -> Option<(Vec<u8>, Vec<u8>)> {
    let mut pages = MemoryDisk::new(alloc, Vec::new(alloc), Vec::new(alloc));
    let mut journal = MemoryDisk::new(alloc, Vec::new(alloc), Vec::new(alloc));
    let Ok(()) = create(&mut pages, &mut journal, PAGES, &types(alloc)?) else {
        return None;
    };
    let Ok(mut bytes) = Vec::from_slice(alloc, pages.bytes()) else {
        return None;
    };
    let words = [
        // The high page, and the next name.
        (0, 2, 5),
        (0, 3, next_name),
        (2, 2, reference(3, 2)),
        (3, 0, 0x7_0000_0003),
        (3, 2, 0x1_0000),
        (3, 3, 1),
        (3, 4, 7),
        (3, 5, reference(4, 2)),
        (3, 6, reference(3, 2)),
        (4, 0, 0x6_0000_0004),
        (4, 2, 0x5_0001),
        (4, 3, 2),
        (4, 5, 0x6f_6c6c_6568),
    ];
    for (page, word, value) in words {
        set_word(&mut bytes, page, word, value);
    }
    let Ok(journal) = Vec::from_slice(alloc, journal.bytes()) else {
        return None;
    };
    Some((bytes, journal))
}
