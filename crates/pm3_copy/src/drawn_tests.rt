//! Passes over drawn pages: what the objects are by their names, before and after, is found by a plain walk of the pages' words.
ghost use Rattle.pm3_page.specs.PageSheets.{AreSoundPages};

use crate::pass_tests::carry;
use crate::sample_pages::{PageWord, expect, head, page_head, pages_between, reference, types};
use pm3_page::{BASE, PageNo, Pages};
use pm3_types::Catalog;
use std::alloc::Global;
use std::test::Fail;

/// The first written page with objects, the first page of the space, and the first of those that are fresh.
const WRITTEN: PageNo = 3;

const SPACE: PageNo = 13;

const FRESH: PageNo = 63;

/// Draws numbers, as a generator of one word does.
#[derive(Drop)]
struct Draws {
    state: u64,
}

impl Draws {
    /// A number below this one, or 0.
    fn below(&mut self, limit: u32) -> u32 {
        self.state = self
            .state
            .wrapping_mul(6_364_136_223_846_793_005)
            .wrapping_add(1_442_695_040_888_963_407);
        (self.state >> 33) as u32 % limit.max(1)
    }
}

/// An object: its page and its word there, its name, its head, and the words of its body as a file has them.
#[derive(Drop)]
struct Object {
    page: u16,
    word: u16,
    name: u64,
    head: u64,
    body: Vec<u64>,
}

/// Whether objects with this head are of the type with a tail of references.
fn has_references(head: u64) -> bool {
    head % 65_536 == 1
}

/// The words of an object with this head, for one of the two types.
fn size_of(head: u64) -> u16 {
    let tail = (head >> 16).min(4096) as u16;
    if has_references(head) {
        2 + tail
    } else {
        3 + (tail + 7) / 8
    }
}

/// Whether a word of the body of an object with this head is a reference.
fn is_reference(head: u64, i: usize) -> bool {
    i == 0 || has_references(head)
}

/// Which of the objects stands there.
fn find(list: &[Object], at: u64) -> Option<usize> {
    for (i, object) in list.iter().enumerate() {
        if reference(object.page, object.word) == at {
            return Some(i);
        }
    }
    None
}

/// A head of one of the two types, with a short tail.
fn drawn_head(draws: &mut Draws) -> u64 {
    if draws.below(2) == 0 {
        head(0, 8 * (draws.below(3) % 3))
    } else {
        head(1, draws.below(4))
    }
}

/// Draws the objects of a page, with nothing in their bodies yet.
fn draw_page(
    alloc: Global,
    draws: &mut Draws,
    page: u16,
    list: &mut Vec<Object>,
) -> Result<(), Fail> {
    let mut word: u16 = 2;
    for _ in 0..draws.below(6) {
        let head = drawn_head(draws);
        let name = list.len() as u64 + 1;
        if word < 400 {
            list.push(Object {
                page,
                word,
                name,
                head,
                body: Vec::new(alloc),
            })?;
            word += size_of(head).min(100);
        }
    }
    Ok(())
}

/// A reference to a drawn object, or nil.
fn drawn_reference(draws: &mut Draws, list: &[Object]) -> u64 {
    let most = list.len().min(1000) as u32;
    match list.get(draws.below(2 * most) as usize) {
        Some(object) => reference(object.page, object.word),
        None => 0,
    }
}

/// Draws the body of an object with this head.
fn drawn_body(
    alloc: Global,
    draws: &mut Draws,
    list: &[Object],
    head: u64,
) -> Result<Vec<u64>, Fail> {
    let mut body = Vec::new(alloc);
    for i in 2..size_of(head) {
        let word = if is_reference(head, usize::from(i) - 2) {
            drawn_reference(draws, list)
        } else {
            u64::from(draws.below(1000))
        };
        body.push(word)?;
    }
    Ok(body)
}

/// Draws the objects of all pages.
fn drawn_objects(alloc: Global, draws: &mut Draws) -> Result<Vec<Object>, Fail> {
    let mut list = Vec::new(alloc);
    for page in WRITTEN as u16..FRESH as u16 {
        draw_page(alloc, draws, page, &mut list)?;
    }
    let mut bodies = Vec::new(alloc);
    for object in &list {
        bodies.push(drawn_body(alloc, draws, &list, object.head)?)?;
    }
    for (object, body) in list.iter_mut().zip(bodies) {
        object.body = body;
    }
    Ok(list)
}

/// The words of the pages of some objects.
fn words_of(alloc: Global, list: &[Object]) -> Result<Vec<PageWord>, Fail> {
    let mut words = Vec::new(alloc);
    for object in list {
        let page = PageNo::from(object.page);
        let word = usize::from(object.word);
        words.push((page, word, object.head))?;
        words.push((page, word + 1, object.name))?;
        for (i, value) in object.body.iter().enumerate() {
            words.push((page, word + 2 + i.min(512), *value))?;
        }
        // Of two words for one place the last is taken.
        let end = u32::from(object.word) + u32::from(size_of(object.head));
        words.push((page, 0, page_head(page, end)))?;
    }
    Ok(words)
}

/// A word of a page in a file.
fn word_at(bytes: &[u8; 4096], i: u16) -> u64 {
    let mut le = [0; 8];
    for k in 0..8usize {
        if let Some(byte) = bytes.get(8 * usize::from(i) + k) {
            le[k] = *byte;
        }
    }
    u64::from_le_bytes(le)
}

/// The object at a word of a page in a file.
fn object_at(alloc: Global, page: u16, bytes: &[u8; 4096], word: u16) -> Result<Object, Fail> {
    let word = word.min(512);
    let head = word_at(bytes, word);
    let mut body = Vec::new(alloc);
    for i in 2..size_of(head).min(512) {
        body.push(word_at(bytes, word + i))?;
    }
    Ok(Object {
        page,
        word,
        name: word_at(bytes, word + 1),
        head,
        body,
    })
}

/// Adds the objects of a page in a file.
fn read_page(
    alloc: Global,
    page: u16,
    bytes: &[u8; 4096],
    list: &mut Vec<Object>,
) -> Result<(), Fail> {
    let used = (word_at(bytes, 0) >> 32).min(512) as u16;
    let mut next = 2;
    for word in 2..used {
        if word == next {
            let object = object_at(alloc, page, bytes, word)?;
            next = word + size_of(object.head).min(512);
            list.push(object)?;
        }
    }
    Ok(())
}

/// Adds the objects of images.
fn read_pages(
    alloc: Global,
    catalog: &Catalog,
    images: &Pages,
    list: &mut Vec<Object>,
) -> Result<(), Fail>
    requires { AreSoundPages catalog.now BASE 16384 images.now.images }
{
    for page in WRITTEN..1000 {
        if let Some(image) = images.get(page) {
            let mut bytes = [0; 4096];
            image.to_file(catalog, &mut bytes);
            read_page(alloc, page as u16, &bytes, list)?;
        }
    }
    Ok(())
}

/// The name of what stands in the first root slot, or 0.
fn root_name(catalog: &Catalog, written: &Pages, list: &[Object]) -> u64
    requires { AreSoundPages catalog.now BASE 16384 written.now.images }
{
    let mut bytes = [0; 4096];
    if let Some(image) = written.get(2) {
        image.to_file(catalog, &mut bytes);
    }
    name_of(list, word_at(&bytes, 2))
}

/// The name of the object that stands there, or 0.
fn name_of(list: &[Object], at: u64) -> u64 {
    match find(list, at) {
        Some(i) => list.get(i).map_or(0, |object| object.name),
        None => 0,
    }
}

/// What an object says by names: its name, its head, and its body with names in the places of references.
fn line(alloc: Global, list: &[Object], object: &Object) -> Result<Vec<u64>, Fail> {
    let mut words = Vec::new(alloc);
    words.push(object.name)?;
    words.push(object.head)?;
    for (i, word) in object.body.iter().enumerate() {
        words.push(if is_reference(object.head, i) {
            name_of(list, *word)
        } else {
            *word
        })?;
    }
    Ok(words)
}

/// Marks what the marked objects refer to, and answers how many marks are new.
fn spread(list: &[Object], marks: &mut [bool]) -> u32 {
    let mut more = 0u32;
    for (k, object) in list.iter().enumerate() {
        if marks.get(k) != Some(&true) {
            continue;
        }
        for (i, word) in object.body.iter().enumerate() {
            if is_reference(object.head, i) {
                more = more.saturating_add(mark(list, *word, marks));
            }
        }
    }
    more
}

/// Marks the object that stands there, and answers how many marks are new.
fn mark(list: &[Object], at: u64, marks: &mut [bool]) -> u32 {
    let Some(i) = find(list, at) else {
        return 0;
    };
    let Some(marked) = marks.get_mut(i) else {
        return 0;
    };
    if *marked {
        return 0;
    }
    *marked = true;
    1
}

/// Which objects are there after a pass: the root, those of written and of pinned pages, and what they lead to.
fn living(alloc: Global, list: &[Object], root: u64, pinned: &[PageNo]) -> Result<Vec<bool>, Fail> {
    let mut marks = Vec::new(alloc);
    for object in list {
        let page = PageNo::from(object.page);
        marks.push(page < SPACE || pinned.contains(&page))?;
    }
    mark(list, root, &mut marks);
    for _ in 0..list.len() {
        if spread(list, &mut marks) == 0 {
            break;
        }
    }
    Ok(marks)
}

/// Draws which pages of the space are pinned.
fn drawn_pins(alloc: Global, draws: &mut Draws, space: &Pages) -> Result<Vec<PageNo>, Fail> {
    let mut pinned = Vec::new(alloc);
    for page in SPACE..FRESH {
        if space.get(page).is_some() && draws.below(4) == 0 {
            pinned.push(page)?;
        }
    }
    Ok(pinned)
}

/// How many living objects are on pages of the space that are not pinned.
fn moving(list: &[Object], marks: &[bool], pinned: &[PageNo]) -> u32 {
    let mut count = 0u32;
    for (object, living) in list.iter().zip(marks) {
        let page = PageNo::from(object.page);
        if *living && page >= SPACE && !pinned.contains(&page) {
            count = count.saturating_add(1);
        }
    }
    count
}

/// Just the living objects are there afterwards, and each says what it said.
fn expect_alike(
    alloc: Global,
    before: &[Object],
    marks: &[bool],
    after: &[Object],
) -> Result<(), Fail> {
    let mut count = 0usize;
    for (object, living) in before.iter().zip(marks) {
        let now = after.iter().find(|other| other.name == object.name);
        expect(now.is_some() == *living)?;
        if let Some(other) = now {
            expect(line(alloc, before, object)? == line(alloc, after, other)?)?;
            count = count.saturating_add(1);
        }
    }
    expect(after.len() == count)
}

/// The objects of the space and of written pages.
fn read_all(
    alloc: Global,
    catalog: &Catalog,
    space: &Pages,
    written: &Pages,
) -> Result<Vec<Object>, Fail>
    requires space { AreSoundPages catalog.now BASE 16384 space.now.images }
    requires written { AreSoundPages catalog.now BASE 16384 written.now.images }
{
    let mut list = Vec::new(alloc);
    read_pages(alloc, catalog, space, &mut list)?;
    read_pages(alloc, catalog, written, &mut list)?;
    Ok(list)
}

/// A pass with these pinned pages leaves what a walk by names tells. The answer is the number of objects that moved.
fn expect_walk(
    alloc: Global,
    catalog: &Catalog,
    before: &[Object],
    root: u64,
    space: &mut Pages,
    written: &mut Pages,
    pinned: &[PageNo],
) -> Result<u32, Fail>
    requires space { AreSoundPages catalog.now BASE 16384 space.old.images }
    requires written { AreSoundPages catalog.now BASE 16384 written.old.images }
{
    let marks = living(alloc, before, root, pinned)?;
    let numbers = carry(alloc, catalog, space, written, pinned, FRESH)?;
    let after = read_all(alloc, catalog, space, written)?;
    expect(root_name(catalog, written, &after) == name_of(before, root))?;
    expect_alike(alloc, before, &marks, &after)?;
    expect(numbers[5] == moving(before, &marks, pinned))?;
    Ok(numbers[5])
}

/// A pass over pages drawn from a seed, with drawn pins.
fn expect_drawn(alloc: Global, seed: u64) -> Result<u32, Fail> {
    let catalog = types(alloc)?;
    let mut draws = Draws { state: seed };
    let before = drawn_objects(alloc, &mut draws)?;
    let words = words_of(alloc, &before)?;
    let root = drawn_reference(&mut draws, &before);
    let mut written = pages_between(alloc, &catalog, root, &words, WRITTEN, SPACE)?;
    let mut space = pages_between(alloc, &catalog, 0, &words, SPACE, FRESH)?;
    let pinned = drawn_pins(alloc, &mut draws, &space)?;
    let moved = expect_walk(
        alloc,
        &catalog,
        &before,
        root,
        &mut space,
        &mut written,
        &pinned,
    )?;
    Ok(moved)
}

#[test]
fn drawn_passes_show_what_a_walk_shows(rt: HostRuntime) -> Result<(), Fail> {
    let mut moved = 0u32;
    for seed in 1..7 {
        moved = moved.saturating_add(expect_drawn(rt.alloc(), seed)?);
    }
    expect(moved > 0)
}
