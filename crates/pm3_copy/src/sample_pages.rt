//! Small images for tests.
ghost use Rattle.std.specs.Prelude.{◌+◌, ◌≤◌, ◌<◌, IfOk};
ghost use Rattle.pm3_page.specs.PageSheets.{AreSoundPages};

use pm3_page::{BASE, Image, PageNo, PageSet, Pages};
use pm3_types::{Catalog, Tail, TypeMap};
use std::alloc::Global;
use std::test::Fail;

/// Two types: one with a reference and a tail of bytes, and one with a tail of references.
pub(crate) fn types(alloc: Global) -> Result<Catalog, Fail> {
    let mut catalog = Catalog::new(alloc);
    catalog.add(TypeMap::new(1, 1, Tail::Bytes).ok_or("one field")?)?;
    catalog.add(TypeMap::new(0, 0, Tail::Refs).ok_or("no field")?)?;
    Ok(catalog)
}

pub(crate) fn expect(holds: bool) -> Result<(), Fail> {
    if holds {
        Ok(())
    } else {
        Err(Fail::from("it does not hold"))
    }
}

/// The reference of a file to a word of a page.
pub(crate) fn reference(page: u16, word: u16) -> u64 {
    u64::from(page) * 4_294_967_296 + 8 * u64::from(word)
}

/// The first word of a page with so many words in use.
pub(crate) fn page_head(page: u32, used: u32) -> u64 {
    u64::from(page) + 4_294_967_296 * u64::from(used)
}

/// The head of an object of a type, with a tail of so many bytes or references.
pub(crate) fn head(ty: u8, tail: u32) -> u64 {
    65_536 * u64::from(tail) + u64::from(ty)
}

/// A word of a page that is not 0: the page, the place of the word, and the word.
pub(crate) type PageWord = (PageNo, usize, u64);

/// The bytes of a page with those of the words that are its own, and 0 in all other places.
fn page_bytes(page: PageNo, words: &[PageWord]) -> [u8; 4096] {
    let mut bytes = [0; 4096];
    for (on, i, word) in words {
        if *on == page && *i < 512 {
            put_word(&mut bytes, *i, *word);
        }
    }
    bytes
}

/// Writes a word of a page.
fn put_word(bytes: &mut [u8; 4096], i: usize, word: u64)
    requires { i < 512 }
{
    let le = word.to_le_bytes();
    for k in 0..8usize {
        bytes[8 * i + k] = le[k];
    }
}

/// Whether one of the words is on the page.
fn is_on(page: PageNo, words: &[PageWord]) -> bool {
    for (on, _, _) in words {
        if *on == page {
            return true;
        }
    }
    false
}

/// Adds the image of a page that has some of the words.
fn add_page(
    alloc: Global,
    catalog: &Catalog,
    pages: &mut Pages,
    page: PageNo,
    words: &[PageWord],
) -> Result<(), Fail>
    requires sound { AreSoundPages catalog.now BASE 16384 pages.old.images }
    requires bounds { (2 ≤ page) × (page < 16384) }
    ensures { IfOk result (λ _. AreSoundPages catalog.now BASE 16384 pages.new.images) }
{
    if !is_on(page, words) {
        return Ok(());
    }
    if pages.get(page).is_some() {
        return Err(Fail::from("a page twice"));
    }
    let Ok(image) = Image::from_file(alloc, page, 16384, catalog, &page_bytes(page, words)) else {
        return Err(Fail::from("not in form"));
    };
    pages.reserve(1)?;
    pages.put(image);
    Ok(())
}

/// Adds the page of roots, with one root, unless that is nil.
fn add_roots(alloc: Global, catalog: &Catalog, pages: &mut Pages, to: u64) -> Result<(), Fail>
    requires { AreSoundPages catalog.now BASE 16384 pages.old.images }
    ensures { IfOk result (λ _. AreSoundPages catalog.now BASE 16384 pages.new.images) }
{
    if to == 0 {
        return Ok(());
    }
    let words = [(2, 0, page_head(2, 18)), (2, 2, to)];
    add_page(alloc, catalog, pages, 2, &words)
}

/// The page of roots with one root, unless that is nil, and the images of the pages from one up to another that have some of
/// these words.
pub(crate) fn pages_between(
    alloc: Global,
    catalog: &Catalog,
    to: u64,
    words: &[PageWord],
    first: PageNo,
    end: PageNo,
) -> Result<Pages, Fail>
    ensures { IfOk result (λ pages. AreSoundPages catalog.now BASE 16384 pages.images) }
{
    let mut pages = Pages::new(alloc);
    add_roots(alloc, catalog, &mut pages, to)?;
    for page in first.max(3)..end.min(16384) {
        add_page(alloc, catalog, &mut pages, page, words)?;
    }
    Ok(pages)
}

/// The same for the pages from 3 to 11.
pub(crate) fn pages_of(
    alloc: Global,
    catalog: &Catalog,
    to: u64,
    words: &[PageWord],
) -> Result<Pages, Fail>
    ensures { IfOk result (λ pages. AreSoundPages catalog.now BASE 16384 pages.images) }
{
    let pages = pages_between(alloc, catalog, to, words, 3, 12)?;
    Ok(pages)
}

/// A set of pages.
pub(crate) fn set_of(alloc: Global, pages: &[PageNo]) -> Result<PageSet, Fail> {
    let mut set = PageSet::new(alloc);
    for page in pages {
        if *page < 16384 {
            set.add(*page)?;
        }
    }
    Ok(set)
}
