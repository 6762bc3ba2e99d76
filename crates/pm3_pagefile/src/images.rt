//! An image, read from a page.
ghost use Rattle.std.specs.Prelude.{◌≡◌, ◌<◌, ◌≤◌, take, IfOk, IfErr, IsErrOf};
ghost use Rattle.pm3_disk.specs.Content.{IfTold};
ghost use Rattle.pm3_disk.specs.Faults.{Rose};
ghost use Rattle.pm3_types.specs.PageForm.{IsSound};
ghost use Rattle.pm3_types.specs.PageOne.{padded};
ghost use Rattle.pm3_pagefile.specs.Loading.{IsLoaded, read_of};
ghost use Rattle.pm3_pagefile.specs.PageBytes.{page_at};

use crate::faults::LoadFault;
use crate::padding::PAGE_SIZE;
use crate::transfer::fetch_page;
use pm3_disk::Reader;
use pm3_page::{BASE, Image, ImageFault, PageNo};
use pm3_types::Catalog;
use std::alloc::Global;

/// Reads the image of a page of a store of `pages` pages. A page that departs from its form, or that the file hasn't whole,
/// is damaged at the first word that departs or isn't whole.
pub fn load<R: Reader>(
    alloc: Global,
    reader: &mut R,
    pages: u32,
    catalog: &Catalog,
    page: PageNo,
) -> Result<Image, LoadFault>
    requires page { (2 ≤ page) × (page < pages) }
    requires pages { pages ≤ 16384 }
    ensures read { IfTold (R.content reader.old) (λ bytes. IsLoaded page (read_of catalog.now BASE pages page (page_at page bytes)) result) }
    ensures page { IfOk result (λ image. image.page ≡ page) }
    ensures sound { IfOk result (λ image. IsSound catalog.now BASE pages image) }
    ensures same { R.content reader.new ≡ R.content reader.old }
    ensures later { R.faults reader.old ≤ R.faults reader.new }
    ensures cause { IsErrOf result LoadFault.PageFault → Rose (R.faults reader.old) (R.faults reader.new) }
    ensures calm { ¬ IsErrOf result LoadFault.PageFault → R.faults reader.new ≡ R.faults reader.old }
{
    let mut bytes = [0; PAGE_SIZE];
    let Ok(count) = fetch_page(reader, page, &mut bytes) else {
        return Err(LoadFault::PageFault);
    };
    decode(alloc, pages, catalog, page, &bytes, count as u32)
}

/// The image of a page of which the file has so many bytes, with zeros behind them.
fn decode(
    alloc: Global,
    pages: u32,
    catalog: &Catalog,
    page: PageNo,
    bytes: &[u8; PAGE_SIZE],
    count: u32,
) -> Result<Image, LoadFault>
    requires page { (2 ≤ page) × (page < pages) }
    requires pages { pages ≤ 16384 }
    requires bound { count ≤ 4096 }
    requires zeros { bytes.now ≡ padded 4096 (take count bytes.now) }
    ensures read { IsLoaded page (read_of catalog.now BASE pages page (take count bytes.now)) result }
    ensures page { IfOk result (λ image. image.page ≡ page) }
    ensures sound { IfOk result (λ image. IsSound catalog.now BASE pages image) }
    ensures damage { IfErr result (λ fault. fault ≡ LoadFault.PageFault → ⊥) }
{
    let whole = count as usize == PAGE_SIZE;
    let missing = count / 8;
    match Image::from_file(alloc, page, pages, catalog, bytes) {
        Ok(image) if whole => Ok(image),
        Ok(_) => Err(LoadFault::Damaged {
            page,
            word: missing,
        }),
        Err(ImageFault::Damaged { word, .. }) if whole => Err(LoadFault::Damaged { page, word }),
        Err(ImageFault::Damaged { word, .. }) => Err(LoadFault::Damaged {
            page,
            word: word.min(missing),
        }),
        Err(ImageFault::Memory) => Err(LoadFault::Memory),
    }
}
