//! Values taken from the description of the format, and calls that succeed with ample memory.
use super::*;
use pm3_types::{Catalog, Tail, TypeMap, TypeNo};
use std::alloc::Global;
use std::test::Fail;

/// Two fields, the second a reference, and a tail of references.
const PART: TypeNo = 0;

/// Three fields and no tail.
const PLAIN: TypeNo = 1;

/// One field, a reference, and a tail of bytes.
const CHUNK: TypeNo = 8;

/// Nine types, of which these tests use three.
fn types(alloc: Global) -> Result<Catalog, Fail> {
    let part = TypeMap::new(2, 2, Tail::Refs).ok_or("two fields")?;
    let plain = TypeMap::new(3, 4, Tail::Empty).ok_or("three fields")?;
    let chunk = TypeMap::new(1, 1, Tail::Bytes).ok_or("one field")?;
    let mut catalog = Catalog::new(alloc);
    assert_added(catalog.add(part)?, PART)?;
    for _ in 1..8 {
        catalog.add(plain)?;
    }
    assert_added(catalog.add(chunk)?, CHUNK)?;
    Ok(catalog)
}

fn assert_added(number: TypeNo, wanted: TypeNo) -> Result<(), Fail> {
    if number == wanted {
        return Ok(());
    }
    Err(Fail::from("a type has another number"))
}

/// The reference of a file to an offset of a page.
fn reference(page: u32, offset: u32) -> u64 {
    u64::from(page) * 4_294_967_296 + u64::from(offset)
}

/// The bytes of a page whose words are 0 but for these.
fn bytes_of(words: &[(usize, u64)]) -> [u8; 4096] {
    let mut bytes = [0; 4096];
    for (at, word) in words {
        if *at < 512 {
            bytes[8 * *at..8 * *at + 8].copy_from_slice(&word.to_le_bytes());
        }
    }
    bytes
}

/// A page of two objects, in a file.
const TWO: [(usize, u64); 11] = [
    (0, 4 + 12 * 4_294_967_296),
    (2, 65536),
    (3, 5),
    (4, 77),
    (5, 3 * 4_294_967_296 + 16),
    (6, 5 * 4_294_967_296 + 4088),
    (7, 8 + 9 * 65536),
    (8, 6),
    (9, 0),
    (10, 0x0807_0605_0403_0201),
    (11, 9),
];

/// Words that depart from the form of that page, each with the word that is named.
const FAULTS: [(usize, u64, u32); 25] = [
    (0, 5 + 12 * 4_294_967_296, 0),
    (0, 4 + 2 * 4_294_967_296, 0),
    (0, 4 + 513 * 4_294_967_296, 0),
    (0, 0, 0),
    (1, 1, 1),
    (2, 9 + 65536, 2),
    (2, 7 * 65536, 2),
    (2, 65536 + 281_474_976_710_656, 2),
    (2, 1 + 65536, 2),
    (3, 0, 3),
    (3, 4_611_686_018_427_387_904, 3),
    (5, 2 * 4_294_967_296 + 16, 5),
    (5, 64 * 4_294_967_296 + 16, 5),
    (5, 3 * 4_294_967_296 + 8, 5),
    (5, 3 * 4_294_967_296 + 20, 5),
    (5, 3 * 4_294_967_296 + 4096, 5),
    (6, 16, 6),
    (7, 8 + 17 * 65536, 7),
    (7, 12 + 9 * 65536, 7),
    (8, 0, 8),
    (9, 1, 9),
    (11, 0x109, 11),
    (12, 1, 12),
    (100, 1, 100),
    (511, 1, 511),
];

#[test]
fn each_fault_is_named_by_its_word(rt: HostRuntime) -> Result<(), Fail> {
    let catalog = types(rt.alloc())?;
    let sound = bytes_of(&TWO);
    assert!(rt; Image::from_file(rt.alloc(), 4, 64, &catalog, &sound).is_ok());
    for (at, word, wanted) in FAULTS {
        let mut bytes = sound;
        if at < 512 {
            bytes[8 * at..8 * at + 8].copy_from_slice(&word.to_le_bytes());
        }
        let fault = Image::from_file(rt.alloc(), 4, 64, &catalog, &bytes).err();
        assert_eq!(rt;
            fault,
            Some(ImageFault::Damaged {
                page: 4,
                word: wanted
            }),
            "word {at}"
        );
    }
    Ok(())
}

/// The value of a place of an object, where the place is on the page.
#[tactic(auto, unfolding(pm3_types::specs::Layout::word_in, pm3_types::specs::Layout::is_address))]
fn value_of(image: &Image, at: Addr, place: u32) -> Option<u64> {
    if at < BASE || (at - BASE) % 4096 / 8 + 2 + u64::from(place) >= 512 || !image.is_object(at) {
        return None;
    }
    Some(image.field(at, place))
}

/// The type, the length of the tail and the name of an object that was not forwarded.
#[tactic(auto, unfolding(pm3_types::specs::Layout::word_in, pm3_types::specs::Layout::is_address))]
fn header_of(image: &Image, at: Addr) -> Option<(TypeNo, u32, u64)> {
    if at < BASE || (at - BASE) % 4096 / 8 + 1 >= 512 || !image.is_object(at) {
        return None;
    }
    if image.forwarded(at).is_some() {
        return None;
    }
    Some((image.type_of(at), image.tail_len(at), image.name_of(at)))
}

#[test]
fn page_4_of_the_format_has_one_object(rt: HostRuntime) -> Result<(), Fail> {
    let catalog = types(rt.alloc())?;
    let mut bytes = [0; 4096];
    bytes[..40].copy_from_slice(&[
        4, 0, 0, 0, 5, 0, 0, 0, 0, 0, 0, 0, 0, 0, 0, 0, 8, 0, 0, 0, 0, 0, 0, 0, 1, 0, 0, 0, 0, 0,
        0, 0, 0, 0, 0, 0, 0, 0, 0, 0,
    ]);
    let image = Image::from_file(rt.alloc(), 4, 16384, &catalog, &bytes)?;
    let at = BASE + 4096 * 4 + 16;
    assert_eq!(rt; image.page(), 4);
    assert_eq!(rt; image.first(), Some(at));
    assert_eq!(rt; image.next(at), None);
    assert_eq!(rt; header_of(&image, at), Some((CHUNK, 0, 1)));
    assert_eq!(rt; value_of(&image, at, 0), Some(0));
    assert_eq!(rt; image.is_object(at + 8), false);
    let mut again = [7; 4096];
    image.to_file(&catalog, &mut again);
    assert_eq!(rt; again, bytes);
    Ok(())
}

/// Makes an object where it fits.
fn make(image: &mut Image, catalog: &Catalog, ty: TypeNo, tail: u32, name: u64) -> Option<Addr> {
    let map = catalog.get(ty)?;
    if name == 0 || name >= 1 << 62 || (tail > 0 && map.tail == Tail::Empty) {
        return None;
    }
    let words = heads::object_size(map, tail);
    if words > 512 || !image.fits(words as u32) {
        return None;
    }
    Some(image.place(catalog, ty, tail, name))
}

#[test]
fn objects_are_placed_one_after_another(rt: HostRuntime) -> Result<(), Fail> {
    let catalog = types(rt.alloc())?;
    let mut image = Image::blank(rt.alloc(), 3)?;
    assert_eq!(rt; image.first(), None);
    assert!(rt; image.fits(510) && !image.fits(511));
    let first = BASE + 4096 * 3 + 16;
    assert_eq!(rt; make(&mut image, &catalog, CHUNK, 5, 1), Some(first));
    assert_eq!(rt; image.words[2], 327_688);
    let second = first + 32;
    assert_eq!(rt; make(&mut image, &catalog, PART, 2, 9), Some(second));
    assert_eq!(rt; image.words[0], 3 + 12 * 4_294_967_296);
    assert!(rt; image.fits(500) && !image.fits(501));
    assert_eq!(rt; image.next(first), Some(second));
    assert_eq!(rt; image.next(second), None);
    assert_eq!(rt; header_of(&image, second), Some((PART, 2, 9)));
    assert_eq!(rt; header_of(&image, first + 8), None);
    let copy = image.copy()?;
    assert!(rt; copy.is_same(&image));
    assert_eq!(rt; copy.first(), Some(first));
    assert_eq!(rt; value_of(&copy, second, 3), Some(0));
    Ok(())
}

/// Copies an object of so many words to another page where it fits there.
#[tactic(auto, unfolding(pm3_types::specs::Layout::word_in, pm3_types::specs::Layout::is_address))]
fn duplicate(target: &mut Image, source: &Image, at: Addr, size: u32) -> Option<Addr> {
    if at < BASE || (at - BASE) % 4096 / 8 + u64::from(size) > 512 || !source.is_object(at) {
        return None;
    }
    if size < 2 || !target.fits(size) {
        return None;
    }
    Some(target.place_copy(source, at, size))
}

#[test]
fn an_object_is_copied_as_it_is(rt: HostRuntime) -> Result<(), Fail> {
    let catalog = types(rt.alloc())?;
    let mut source = Image::blank(rt.alloc(), 3)?;
    let first = BASE + 4096 * 3 + 16;
    assert_eq!(rt; make(&mut source, &catalog, PLAIN, 0, 1), Some(first));
    assert_eq!(rt; make(&mut source, &catalog, PART, 2, 9), Some(first + 40));
    let mut target = Image::blank(rt.alloc(), 5)?;
    let to = BASE + 4096 * 5 + 16;
    assert_eq!(rt; duplicate(&mut target, &source, first + 40, 6), Some(to));
    assert_eq!(rt; header_of(&target, to), Some((PART, 2, 9)));
    assert_eq!(rt; target.words[0], 5 + 8 * 4_294_967_296);
    assert_eq!(rt; target.next(to), None);
    Ok(())
}

#[test]
fn a_free_page_has_no_objects(rt: HostRuntime) -> Result<(), Fail> {
    let catalog = types(rt.alloc())?;
    let zeros = [0; 4096];
    let free = Image::from_file(rt.alloc(), 3, 16384, &catalog, &zeros)?;
    assert_eq!(rt; free.first(), None);
    let mut again = [7; 4096];
    free.to_file(&catalog, &mut again);
    assert_eq!(rt; again, zeros);
    Ok(())
}

#[test]
fn roots_keep_their_bytes(rt: HostRuntime) -> Result<(), Fail> {
    let catalog = types(rt.alloc())?;
    assert!(rt; Image::from_file(rt.alloc(), 2, 64, &catalog, &[0; 4096]).is_err());
    let bytes = bytes_of(&[
        (0, 2 + 18 * 4_294_967_296),
        (2, reference(4, 16)),
        (17, reference(63, 4088)),
    ]);
    assert_eq!(rt; reference(4, 16), 17_179_869_200);
    assert_eq!(rt; reference(4, 16).to_le_bytes(), [0x10, 0, 0, 0, 4, 0, 0, 0]);
    let roots = Image::from_file(rt.alloc(), 2, 16384, &catalog, &bytes)?;
    assert_eq!(rt; roots.words[2], BASE + 4096 * 4 + 16);
    assert!(rt; !roots.fits(2));
    let mut again = [7; 4096];
    roots.to_file(&catalog, &mut again);
    assert_eq!(rt; again, bytes);
    Ok(())
}

/// Words that depart from the form of a page of roots.
const ROOT_FAULTS: [(usize, u64); 5] = [
    (0, 2 + 19 * 4_294_967_296),
    (1, 1),
    (3, 2 * 4_294_967_296 + 16),
    (18, 1),
    (511, 1),
];

#[test]
fn each_fault_of_roots_is_named_by_its_word(rt: HostRuntime) -> Result<(), Fail> {
    let catalog = types(rt.alloc())?;
    let bytes = bytes_of(&[(0, 2 + 18 * 4_294_967_296)]);
    for (at, word) in ROOT_FAULTS {
        let mut damaged = bytes;
        if at < 512 {
            damaged[8 * at..8 * at + 8].copy_from_slice(&word.to_le_bytes());
        }
        let fault = Image::from_file(rt.alloc(), 2, 64, &catalog, &damaged).err();
        assert_eq!(rt;
            fault,
            Some(ImageFault::Damaged {
                page: 2,
                word: at as u32
            })
        );
    }
    Ok(())
}

/// Writes the first place of an object, where the place is on the page.
#[tactic(auto, unfolding(pm3_types::specs::Layout::word_in, pm3_types::specs::Layout::is_address))]
fn set_first(image: &mut Image, at: Addr, value: u64) {
    if at >= BASE && (at - BASE) % 4096 / 8 + 2 < 512 && image.is_object(at) {
        image.set_field(at, 0, value);
    }
}

/// Forwards an object that is there and was not forwarded yet.
fn forward(image: &mut Image, at: Addr, to: Addr) -> bool {
    if to >= 1 << 63 || !image.is_object(at) || image.forwarded(at).is_some() {
        return false;
    }
    image.forward(at, to);
    true
}

#[test]
fn places_roots_and_heads_are_written(rt: HostRuntime) -> Result<(), Fail> {
    let catalog = types(rt.alloc())?;
    let mut image = Image::from_file(rt.alloc(), 4, 64, &catalog, &bytes_of(&TWO))?;
    let at = BASE + 4096 * 4 + 16;
    if image.is_object(at) {
        set_first(&mut image, at, 78);
    }
    assert_eq!(rt; value_of(&image, at, 0), Some(78));
    assert_eq!(rt; value_of(&image, at, 2), Some(BASE + 4096 * 5 + 4088));
    assert!(rt; forward(&mut image, at, BASE + 4096 * 9 + 16));
    assert!(rt; !forward(&mut image, at, BASE));
    assert_eq!(rt;
        image.words[2],
        9_223_372_036_854_775_808 + BASE + 4096 * 9 + 16
    );
    assert_eq!(rt; image.words[3], 5);
    assert!(rt; image.is_object(at));
    let head = [(0, 2 + 18 * 4_294_967_296)];
    let mut roots = Image::from_file(rt.alloc(), 2, 64, &catalog, &bytes_of(&head))?;
    if roots.page() == 2 {
        roots.set_root(15, at);
        assert_eq!(rt; roots.root(15), at);
        assert_eq!(rt; roots.root(0), 0);
    }
    Ok(())
}
