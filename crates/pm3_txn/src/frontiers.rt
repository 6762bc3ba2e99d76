//! The frontier with which a heap starts.
ghost use Rattle.std.specs.Prelude.{◌≡◌, ℕ, ◌+◌, ◌<◌, ◌≤◌, ◌↔◌, true, max, Some, length, IsTrue};
ghost use Rattle.std.specs.FinMap as map;
ghost use Rattle.pm3_core.specs.declared.naming.TheConstants.{BASE};
ghost use Rattle.pm3_core.specs.Naming.{page_in};
ghost use Rattle.pm3_types.specs.Fields.{is_reference};
ghost use Rattle.pm3_types.specs.Layout.{PageImage, begins_at, is_start, word_in, size_by};
ghost use Rattle.pm3_types.specs.PageForm.{IsReferenceIn, map_at, tail_at};
ghost use Rattle.pm3_types.specs.Whole.{IsWhole};
ghost use Rattle.pm3_page.specs.PageSheets.{sheets_of};
ghost use Rattle.pm3_journal.specs.Opened.{IsOpenStore};
ghost use Rattle.pm3_table.specs.Entries.{images_refer};
ghost use Rattle.pm3_txn.specs.Frontiers.{IsTop, Below, IsPlaceNamed, IsObjectNamed, IsSlotNamed, IsRootNamed, IsNamedOn, IsNamedUnder};

use pm3_core::PAGE_BYTES;
use pm3_disk::Disk;
use pm3_journal::Opened;
use pm3_page::{Addr, BASE, Image, Pages, ROOTS_PAGE};
use pm3_types::{Catalog, Tail, TypeMap};

/// The number of root slots.
const ROOT_SLOTS: u32 = 16;

/// The frontier of a heap over an open store: the greatest of the high page and one above each page that the opened images have
/// or name.
pub(crate) fn frontier_of<D: Disk>(opened: &Opened<D>) -> u32
    requires { IsOpenStore D.Disk opened.now }
    ensures top { IsTop (λ p. images_refer opened.now.catalog (sheets_of opened.now.images.images) p ≡ true) opened.now.marks.high_page result }
    ensures low { (3 ≤ result) × (result ≤ opened.now.marks.pages) }
{
    above_images(
        &opened.catalog,
        &opened.images,
        u64::from(opened.marks.high_page),
    ) as u32
}

/// The greatest of a number and one above each page that the images have or name.
fn above_images(catalog: &Catalog, images: &Pages, least: u64) -> u64
    requires { (page : ℕ) (image : PageImage) → map.get images.now.images page ≡ Some image → (s : ℕ) → is_start image.sheet s ≡ true → IsWhole catalog.now image.sheet s }
    ensures { IsTop (Below (IsNamedUnder catalog.now images.now.images) 16384) least result }
{
    let mut top = least;
    for page in 0..16384u32 {
        top = above_page(catalog, images, page, top);
    }
    top
}

/// The same for the image of one page.
fn above_page(catalog: &Catalog, images: &Pages, page: u32, least: u64) -> u64
    requires { (image : PageImage) → map.get images.now.images page ≡ Some image → (s : ℕ) → is_start image.sheet s ≡ true → IsWhole catalog.now image.sheet s }
    ensures { IsTop (IsNamedUnder catalog.now images.now.images page) least result }
{
    let Some(image) = images.get(page) else {
        return least;
    };
    above_image(catalog, image, least)
}

/// The same for one image.
fn above_image(catalog: &Catalog, image: &Image, least: u64) -> u64
    requires { (s : ℕ) → is_start image.now.sheet s ≡ true → IsWhole catalog.now image.now.sheet s }
    ensures { IsTop (IsNamedOn catalog.now image.now) least result }
{
    let top = least.max(u64::from(image.page()) + 1);
    let top = above_roots(image, top);
    above_objects(catalog, image, top)
}

fn above_roots(image: &Image, least: u64) -> u64
    ensures { IsTop (IsRootNamed image.now) least result }
{
    if image.page() != ROOTS_PAGE {
        return least;
    }
    let mut top = least;
    for slot in 0..ROOT_SLOTS {
        top = above_word(image.root(slot), top);
    }
    top
}

fn above_objects(catalog: &Catalog, image: &Image, least: u64) -> u64
    requires { (s : ℕ) → is_start image.now.sheet s ≡ true → IsWhole catalog.now image.now.sheet s }
    ensures { IsTop (Below (IsObjectNamed catalog.now image.now.sheet) 512) least result }
{
    let mut top = least;
    for word in 0..512u32 {
        top = above_object(catalog, image, word, top);
    }
    top
}

fn above_object(catalog: &Catalog, image: &Image, word: u32, least: u64) -> u64
    requires low { word < 512 }
    requires whole { is_start image.now.sheet word ≡ true → IsWhole catalog.now image.now.sheet word }
    ensures { IsTop (IsObjectNamed catalog.now image.now.sheet word) least result }
{
    let at = BASE + PAGE_BYTES * u64::from(image.page()) + 8 * u64::from(word);
    if !image.is_object(at) {
        return least;
    }
    above_fields(catalog, image, at, least)
}

/// The same for the references in the object at `at`.
fn above_fields(catalog: &Catalog, image: &Image, at: Addr, least: u64) -> u64
    requires object { begins_at BASE image.now at ≡ true }
    requires whole { IsWhole catalog.now image.now.sheet (word_in BASE at) }
    ensures { IsTop (IsObjectNamed catalog.now image.now.sheet (word_in BASE at)) least result }
{
    let Some(map) = catalog.get(image.type_of(at)) else {
        unreachable!()
    };
    let len = image.tail_len(at);
    above_places(map, len, image, at, least)
}

fn above_places(map: TypeMap, len: u32, image: &Image, at: Addr, least: u64) -> u64
    requires object { begins_at BASE image.now at ≡ true }
    requires within { word_in BASE at + size_by (Some map) len ≤ 512 }
    ensures { IsTop (λ p. (k : ℕ) × IsPlaceNamed (Some map) len image.now.sheet (word_in BASE at) k p) least result }
{
    let mut top = least;
    for place in 0..references_end(map, len) {
        top = above_place(map, len, image, at, place, top);
    }
    top
}

fn above_place(map: TypeMap, len: u32, image: &Image, at: Addr, place: u32, least: u64) -> u64
    requires object { begins_at BASE image.now at ≡ true }
    requires within { word_in BASE at + 2 + place < 512 }
    ensures { IsTop (IsPlaceNamed (Some map) len image.now.sheet (word_in BASE at) place) least result }
{
    if !is_reference_place(map, len, place) {
        return least;
    }
    above_word(image.field(at, place), least)
}

/// The greater of a number and of one above the page in which a word falls.
fn above_word(word: u64, least: u64) -> u64
    ensures { result ≡ max least (page_in word + 1) }
{
    least.max(word.saturating_sub(BASE) / PAGE_BYTES + 1)
}

/// A number above the places of all references of an object with this map and a tail of this length.
fn references_end(map: TypeMap, len: u32) -> u32
    requires { size_by (Some map) len ≤ 512 }
    ensures above { (k : ℕ) → IsReferenceIn (Some map) len k → k < result }
    ensures within { result + 2 ≤ size_by (Some map) len }
{
    let count = u32::from(map.count);
    match map.tail {
        Tail::Refs => count + len,
        Tail::Empty | Tail::Bytes => count,
    }
}

/// Whether a place of an object with this map and a tail of this length is that of a reference.
fn is_reference_place(map: TypeMap, len: u32, place: u32) -> bool
    ensures { IsTrue result ↔ IsReferenceIn (Some map) len place }
{
    let count = u32::from(map.count);
    if place < count {
        return is_reference_field(map, place);
    }
    map.tail == Tail::Refs && place - count < len
}

/// Whether a field of the type is a reference.
#[tactic(auto, unfolding(pm3_types::specs::Fields::is_reference))]
fn is_reference_field(map: TypeMap, field: u32) -> bool
    requires { field < map.count }
    ensures { result ≡ is_reference map field }
{
    map.refs >> field & 1 == 1
}
