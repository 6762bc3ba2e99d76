//! What stands at the places of objects, and new objects, in one image.
ghost use Rattle.std.specs.Prelude.{ℕ, ◌≡◌, ◌≢◌, ◌+◌, ◌^◌, ◌<◌, ◌≤◌, ◌==◌, ◌&&◌, not, nat_le, true, false, None, Some, IfSome, MatchResult, MatchOption, length, slice_get};
ghost use Rattle.pm3_types.specs.Layout.{begins_at, word_in, address, end_of, size_by, has_tail, head_of, placed_on, tail_words};
ghost use Rattle.pm3_types.specs.PageForm.{IsSound};
ghost use Rattle.pm3_access.specs.Spots.{spot_at, word_of, IsByteOfWord, value_at_place, with_value_at_place, IsValueFor};
ghost use Rattle.pm3_access.specs.Making.{IsMadeOn};

use crate::places::{NoPlace, Place};
use crate::spots::{Spot, byte, find, set_byte};
use pm3_page::{Addr, BASE, Image};
use pm3_types::{Catalog, Tail, TypeMap, TypeNo};

/// Where a place of the object at `at` lies, or None exactly where the object has no such place.
#[tactic(auto, using(crate::proofs::Bodies::is_unmoved, crate::proofs::Bodies::body_within))]
fn spot(image: &Image, catalog: &Catalog, at: Addr, place: Place) -> Option<Spot>
    requires object { begins_at BASE image.now at ≡ true }
    requires sound { IsSound catalog.now BASE 16384 image.now }
    ensures spot { result ≡ spot_at catalog.now image.now.sheet (word_in BASE at) place }
    ensures within { IfSome result (λ spot. word_in BASE at + 2 + word_of spot < 512) }
    ensures byte { IfSome result IsByteOfWord }
{
    let Some(map) = catalog.get(image.type_of(at)) else {
        return None;
    };
    find(map, image.tail_len(at), place)
}

/// The value at a place of the object at `at`.
pub(crate) fn read_place(
    image: &Image,
    catalog: &Catalog,
    at: Addr,
    place: Place,
) -> Result<u64, NoPlace>
    requires object { begins_at BASE image.now at ≡ true }
    requires sound { IsSound catalog.now BASE 16384 image.now }
    ensures { MatchResult result (λ value. value_at_place catalog.now image.now (word_in BASE at) place ≡ Some value) (λ _. value_at_place catalog.now image.now (word_in BASE at) place ≡ None) }
{
    match spot(image, catalog, at, place) {
        Some(Spot::Word(word)) => Ok(image.field(at, word)),
        Some(Spot::ByteOf(word, k)) => Ok(byte(image.field(at, word), k)),
        None => Err(NoPlace),
    }
}

/// Writes the value at a place of the object at `at`.
pub(crate) fn write_place(
    image: &mut Image,
    catalog: &Catalog,
    at: Addr,
    place: Place,
    value: u64,
) -> Result<(), NoPlace>
    requires object { begins_at BASE image.old at ≡ true }
    requires sound { IsSound catalog.now BASE 16384 image.old }
    requires value { IsValueFor place value }
    ensures { MatchResult result (λ _. with_value_at_place catalog.now image.old (word_in BASE at) place value ≡ Some image.new) (λ _. (with_value_at_place catalog.now image.old (word_in BASE at) place value ≡ None) × (image.new ≡ image.old)) }
{
    match spot(image, catalog, at, place) {
        Some(Spot::Word(word)) => {
            image.set_field(at, word, value);
            Ok(())
        }
        Some(Spot::ByteOf(word, k)) => {
            let before = image.field(at, word);
            image.set_field(at, word, set_byte(before, k, value));
            Ok(())
        }
        None => Err(NoPlace),
    }
}

/// Places a new object, or answers None exactly where it does not fit.
pub(crate) fn place_object(
    image: &mut Image,
    catalog: &Catalog,
    ty: TypeNo,
    tail: u32,
    name: u64,
) -> Option<Addr>
    requires there { ty < length catalog.now }
    requires named { (0 < name) × (name < 2 ^ 62) }
    requires empty { has_tail (slice_get catalog.now ty) ≡ false → tail ≡ 0 }
    requires small { size_by (slice_get catalog.now ty) tail ≤ 510 }
    ensures { let size : ℕ = size_by (slice_get catalog.now ty) tail in IsMadeOn BASE (Some image.old) size image.old (placed_on image.old size (head_of ty tail) name) result image.new }
{
    let Some(map) = catalog.get(ty) else {
        unreachable!()
    };
    if !image.fits(object_words(map, tail)) {
        return None;
    }
    Some(image.place(catalog, ty, tail, name))
}

/// The words of an object.
fn object_words(map: TypeMap, tail: u32) -> u32
    requires { 2 + map.count + tail_words map.tail tail ≤ 510 }
    ensures { result ≡ 2 + map.count + tail_words map.tail tail }
{
    let words = match map.tail {
        Tail::Empty => 0,
        Tail::Refs => tail,
        Tail::Bytes => (tail + 7) / 8,
    };
    2 + u32::from(map.count) + words
}
