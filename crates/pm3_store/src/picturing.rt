//! The images of a journal's records, as they are held.
ghost use Rattle.std.specs.Prelude.{◌≡◌, ◌+◌, ◌*◌, ◌<◌, ◌≤◌, ◌⊎◌, ℕ, true, [], length, slice_index_or, Some, None, IfOk, IfErr, OnOk, Ok, Err};
ghost use Rattle.std.specs.FinMap as map;
ghost use Rattle.pm3_core.specs.declared.naming.TheConstants.{BASE};
ghost use Rattle.pm3_types.specs.PageForm.{IsSound};
ghost use Rattle.pm3_page.specs.PageBytes.{file_bytes, page_read};
ghost use Rattle.pm3_journal.specs.Offsets.{has_offset};
ghost use Rattle.pm3_journal.specs.Pages.{page_at};
ghost use Rattle.pm3_store.specs.Recovering.{ArePictures, bytes_at, IsFirstBad};

use crate::causes::OpenCause;
use pm3_disk::Disk;
use pm3_journal::{FilePages, Journal};
use pm3_page::{Image, ImageFault, PageNo, Pages};
use pm3_types::Catalog;
use std::alloc::Global;

/// Takes the images of the journal's records, as they are held in memory.
pub(crate) fn read_images<D: Disk>(
    alloc: Global,
    journal: &mut Journal<D>,
    catalog: &Catalog,
) -> Result<Pages, OpenCause>
    requires most { journal.old.pages ≤ 16384 }
    requires within { (i : ℕ) → i < length journal.old.images
        → (2 ≤ page_at journal.old.images i) × (page_at journal.old.images i < journal.old.pages) }
    requires placed { (i : ℕ) → i < length journal.old.images
        → has_offset (slice_index_or journal.old.offsets (page_at journal.old.images i) None) ≡ true }
    ensures pictures { IfOk result (λ images. ArePictures catalog.now BASE journal.old.pages journal.old.images
        (length journal.old.images) images.images) }
    ensures first { IfErr result (λ cause. (cause ≡ OpenCause.Memory)
        ⊎ IsFirstBad catalog.now BASE journal.old.pages journal.old.images journal.old.offsets cause) }
    ensures journal { journal.new ≡ record journal.old { images = [] } }
{
    let count = journal.pages();
    let items = journal.take_images();
    let mut images = Pages::new(alloc);
    if images.reserve(count).is_err() {
        return Err(OpenCause::Memory);
    }
    match add_images(alloc, journal, catalog, &items, &mut images) {
        Ok(()) => Ok(images),
        Err(cause) => Err(cause),
    }
}

/// Adds these images to a collection without any, which has room for all pages.
fn add_images<D: Disk>(
    alloc: Global,
    journal: &Journal<D>,
    catalog: &Catalog,
    items: &FilePages,
    images: &mut Pages,
) -> Result<(), OpenCause>
    requires most { journal.now.pages ≤ 16384 }
    requires within { (i : ℕ) → i < length items.now.items
        → (2 ≤ page_at items.now.items i) × (page_at items.now.items i < journal.now.pages) }
    requires placed { (i : ℕ) → i < length items.now.items
        → has_offset (slice_index_or journal.now.offsets (page_at items.now.items i) None) ≡ true }
    requires none { images.old.images ≡ map.empty }
    requires room { journal.now.pages ≤ images.old.spare }
    ensures pictures { OnOk result (ArePictures catalog.now BASE journal.now.pages items.now.items (length items.now.items) images.new.images) }
    ensures first { IfErr result (λ cause. (cause ≡ OpenCause.Memory)
        ⊎ IsFirstBad catalog.now BASE journal.now.pages items.now.items journal.now.offsets cause) }
{
    for index in 0..items.len() {
        match picture(alloc, journal, catalog, items, index) {
            Ok(image) => images.put(image),
            Err(cause) => return Err(cause),
        }
    }
    Ok(())
}

/// The image at an index.
fn picture<D: Disk>(
    alloc: Global,
    journal: &Journal<D>,
    catalog: &Catalog,
    items: &FilePages,
    index: usize,
) -> Result<Image, OpenCause>
    requires most { journal.now.pages ≤ 16384 }
    requires low { index < length items.now.items }
    requires within { (2 ≤ page_at items.now.items index) × (page_at items.now.items index < journal.now.pages) }
    requires placed { has_offset (slice_index_or journal.now.offsets (page_at items.now.items index) None) ≡ true }
    ensures page { IfOk result (λ image. image.page ≡ page_at items.now.items index) }
    ensures read { IfOk result (λ image. page_read catalog.now BASE journal.now.pages (page_at items.now.items index)
        (bytes_at items.now.items index) ≡ Ok image.sheet) }
    ensures same { IfOk result (λ image. file_bytes catalog.now BASE image ≡ bytes_at items.now.items index) }
    ensures sound { IfOk result (λ image. IsSound catalog.now BASE journal.now.pages image) }
    ensures bad { IfErr result (λ cause. (cause ≡ OpenCause.Memory) ⊎ ((word : ℕ) × (place : ℕ)
        × (page_read catalog.now BASE journal.now.pages (page_at items.now.items index) (bytes_at items.now.items index) ≡ Err word)
        × (slice_index_or journal.now.offsets (page_at items.now.items index) None ≡ Some place)
        × (cause ≡ OpenCause.JournalDamaged (place + 8 * word)))) }
{
    let page = items.number(index);
    let word = match Image::from_file(alloc, page, journal.pages(), catalog, items.image(index)) {
        Ok(image) => return Ok(image),
        Err(ImageFault::Memory) => return Err(OpenCause::Memory),
        Err(ImageFault::Damaged { page: _, word }) => word,
    };
    Err(damage_at(journal, page, word))
}

/// The damage at a word of a page that a record has.
fn damage_at<D: Disk>(journal: &Journal<D>, page: PageNo, word: u32) -> OpenCause
    requires word { word < 512 }
    requires placed { has_offset (slice_index_or journal.now.offsets page None) ≡ true }
    ensures { (place : ℕ) × (slice_index_or journal.now.offsets page None ≡ Some place)
        × (result ≡ OpenCause.JournalDamaged (place + 8 * word)) }
{
    match journal.place_of(page, word) {
        Some(offset) => OpenCause::JournalDamaged { offset },
        None => unreachable!(),
    }
}
