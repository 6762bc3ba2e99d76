//! What objects, images and pages lead to is found.
ghost use Rattle.std.specs.Prelude.{◌≡◌, ◌≢◌, ◌+◌, ◌<◌, ◌≤◌, ℕ, true, Some, slice_index};
ghost use Rattle.std.specs.FinMap as map;
ghost use Rattle.std.specs.FinSet as set;
ghost use Rattle.pm3_types.specs.Layout.{PageImage, begins_at, page_in, word_in, size_at};
ghost use Rattle.pm3_types.specs.PageForm.{IsSound};
ghost use Rattle.pm3_page.specs.PageMap.{IsAtHome};
ghost use Rattle.pm3_page.specs.PageSheets.{AreSoundPages};
ghost use Rattle.pm3_copy.specs.Finds.{Adds};
ghost use Rattle.pm3_copy.specs.References.{RefersIn, RootsOn, ObjectsOn, RefersOn, RefersFrom};
ghost use Rattle.pm3_types.specs.Whole.{IsWhole};
ghost use Rattle.pm3_copy.specs.Whole.{IsObjectOf};

use crate::finds::Found;
use crate::objects::{map_of, next_reference};
use pm3_page::{Addr, BASE, Image, PageNo, PageSet, Pages, ROOTS_PAGE};
use pm3_types::Catalog;

/// The number of root slots.
const ROOT_SLOTS: u32 = 16;

/// Finds the objects that the object at `at` refers to.
#[inline(always)]
pub(crate) fn find_referred(catalog: &Catalog, image: &Image, at: Addr, found: &mut Found)
    requires object { begins_at BASE image.now at ≡ true }
    requires whole { IsWhole catalog.now image.now.sheet (word_in BASE at) }
    ensures { Adds (RefersIn catalog.now image.now.sheet (word_in BASE at)) found.old found.new }
{
    let map = map_of(catalog, image, at);
    let tail = image.tail_len(at);
    let mut from = 0;
    while let Some(place) = next_reference(map, tail, from) {
        found.find(image.field(at, place));
        from = place + 1;
    }
}

/// Finds all objects of an image.
pub(crate) fn find_objects(image: &Image, found: &mut Found)
    ensures { Adds (λ b. begins_at BASE image.now b ≡ true) found.old found.new }
{
    let mut at = 0;
    while let Some(next) = image.next(at) {
        found.find(next);
        at = next;
    }
}

/// Finds the objects that images of other pages refer to.
pub(crate) fn find_from_images(catalog: &Catalog, images: &Pages, found: &mut Found)
    requires { AreSoundPages catalog.now BASE 16384 images.now.images }
    ensures { Adds (RefersFrom catalog.now BASE images.now.images) found.old found.new }
{
    let mut from = 0;
    while let Some(page) = images.next(from) {
        let Some(image) = images.get(page) else {
            unreachable!()
        };
        find_from_image(catalog, image, found);
        from = page + 1;
    }
}

/// Finds the objects that an image refers to.
fn find_from_image(catalog: &Catalog, image: &Image, found: &mut Found)
    requires { IsSound catalog.now BASE 16384 image.now }
    ensures { Adds (RefersOn catalog.now BASE image.now) found.old found.new }
{
    if image.page() == ROOTS_PAGE {
        find_from_roots(image, found);
    } else {
        find_from_objects(catalog, image, found);
    }
}

/// Finds the objects in the root slots.
fn find_from_roots(image: &Image, found: &mut Found)
    requires { image.now.page ≡ 2 }
    ensures { Adds (RootsOn image.now) found.old found.new }
{
    for slot in 0..ROOT_SLOTS {
        found.find(image.root(slot));
    }
}

/// Finds the objects that the objects of an image refer to.
fn find_from_objects(catalog: &Catalog, image: &Image, found: &mut Found)
    requires { IsSound catalog.now BASE 16384 image.now }
    ensures { Adds (ObjectsOn catalog.now BASE image.now) found.old found.new }
{
    let mut at = 0;
    while let Some(next) = image.next(at) {
        find_referred(catalog, image, next, found);
        at = next;
    }
}

/// Finds all objects on the pages of a set.
pub(crate) fn find_on_pages(images: &Pages, pages: &PageSet, found: &mut Found)
    requires { IsAtHome images.now.images }
    ensures { Adds (λ b. IsObjectOf BASE images.now.images b × (set.contains pages.now (page_in BASE b) ≡ true)) found.old found.new }
{
    let mut from = 0;
    while let Some(page) = pages.next(from) {
        find_on_page(images, page, found);
        from = page + 1;
    }
}

/// Finds all objects on a page.
fn find_on_page(images: &Pages, page: PageNo, found: &mut Found)
    requires { IsAtHome images.now.images }
    ensures { Adds (λ b. IsObjectOf BASE images.now.images b × (page_in BASE b ≡ page)) found.old found.new }
{
    if let Some(image) = images.get(page) {
        find_objects(image, found);
    }
}
