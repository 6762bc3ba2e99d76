//! The objects of images, in the order of their addresses, and the places of an object.
ghost use Rattle.std.specs.Prelude.{◌≡◌, ◌+◌, ◌<◌, ◌≤◌, ◌++◌, ℕ, List, true, Some, IfOk, IfSome, OnOk};
ghost use Rattle.pm3_types.specs.Fields.{is_reference};
ghost use Rattle.pm3_types.specs.Layout.{begins_at, word_in, size_at, tail_words};
ghost use Rattle.pm3_types.specs.PageForm.{map_at, tail_at};
ghost use Rattle.pm3_types.specs.PassMoves.{IsListOf};
ghost use Rattle.pm3_page.specs.PageMap.{IsAtHome};
ghost use Rattle.pm3_types.specs.Whole.{IsWhole};
ghost use Rattle.pm3_page.specs.Next.{IsNext};
ghost use Rattle.pm3_copy.specs.References.{IsNextReference, IsNextInTail};
ghost use Rattle.pm3_copy.specs.Whole.{IsObjectOf};

use pm3_page::{Addr, BASE, Image, Pages};
use pm3_types::{Catalog, Memory, Tail, TypeMap};
use std::alloc::Global;

/// The addresses of all objects of the images, in rising order.
pub(crate) fn objects_of(alloc: Global, images: &Pages) -> Result<Vec<Addr>, Memory>
    requires { IsAtHome images.now.images }
    ensures { IfOk result (λ list. IsListOf (IsObjectOf BASE images.now.images) list.items) }
{
    let mut list = Vec::new(alloc);
    let mut from = 0;
    while let Some(page) = images.next(from) {
        let Some(image) = images.get(page) else {
            unreachable!()
        };
        add_objects(image, &mut list)?;
        from = page + 1;
    }
    Ok(list)
}

/// Adds the addresses of the objects of an image to the list.
fn add_objects(image: &Image, list: &mut Vec<Addr>) -> Result<(), Memory>
    ensures { OnOk result ((more : List ℕ) × (list.new.items ≡ list.old.items ++ more) × IsListOf (λ a. begins_at BASE image.now a ≡ true) more) }
{
    let mut at = 0;
    while let Some(next) = image.next(at) {
        let Ok(()) = list.push(next) else {
            return Err(Memory);
        };
        at = next;
    }
    Ok(())
}

/// The type map of the object at `at`.
pub(crate) fn map_of(catalog: &Catalog, image: &Image, at: Addr) -> TypeMap
    requires object { begins_at BASE image.now at ≡ true }
    requires whole { IsWhole catalog.now image.now.sheet (word_in BASE at) }
    ensures { Some result ≡ map_at catalog.now image.now.sheet (word_in BASE at) }
{
    let Some(map) = catalog.get(image.type_of(at)) else {
        unreachable!()
    };
    map
}

/// The words of the object at `at`, with its head and its name.
pub(crate) fn size_of(catalog: &Catalog, image: &Image, at: Addr) -> u32
    requires object { begins_at BASE image.now at ≡ true }
    requires whole { IsWhole catalog.now image.now.sheet (word_in BASE at) }
    ensures size { result ≡ size_at catalog.now image.now.sheet (word_in BASE at) }
    ensures within { word_in BASE at + result ≤ 512 }
    ensures low { 2 ≤ result }
{
    let map = map_of(catalog, image, at);
    let tail = words_of_tail(map.tail, image.tail_len(at));
    2 + u32::from(map.count) + tail as u32
}

/// The words that a tail of so many references or bytes takes.
fn words_of_tail(tail: Tail, len: u32) -> u64
    ensures { result ≡ tail_words tail len }
{
    match tail {
        Tail::Empty => 0,
        Tail::Refs => u64::from(len),
        Tail::Bytes => (u64::from(len) + 7) / 8,
    }
}

/// The first reference of an object with this map and a tail of this length, from a place on.
pub(crate) fn next_reference(map: TypeMap, len: u32, from: u32) -> Option<u32>
    ensures { IsNextReference map len from result }
{
    if let Some(field) = next_field(map, from) {
        return Some(field);
    }
    next_in_tail(map, len, from)
}

/// The first field from this one on that is a reference.
fn next_field(map: TypeMap, from: u32) -> Option<u32>
    ensures next { IsNext (is_reference map) from result }
    ensures within { IfSome result (λ field. field < map.count) }
{
    if from >= u32::from(map.count) {
        return None;
    }
    let rest = map.refs >> from;
    if rest == 0 {
        return None;
    }
    Some(from + rest.trailing_zeros())
}

/// The first reference of the tail from a place on.
fn next_in_tail(map: TypeMap, len: u32, from: u32) -> Option<u32>
    ensures { IsNextInTail map len from result }
{
    if map.tail != Tail::Refs {
        return None;
    }
    let count = u32::from(map.count);
    let place = from.max(count);
    if place - count < len {
        Some(place)
    } else {
        None
    }
}
