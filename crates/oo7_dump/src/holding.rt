//! The images of pages, loaded as they are wanted.
ghost use Rattle.std.specs.Prelude.{◌≡◌, ◌<◌, ◌≤◌, ℕ, true, Some, IsSome, IsErrOf, OnOk};
ghost use Rattle.std.specs.FinMap as map;
ghost use Rattle.pm3_core.specs.declared.naming.TheConstants.{BASE};
ghost use Rattle.pm3_types.specs.Layout.{begins_at, page_in};
ghost use Rattle.oo7_dump.specs.Held.{AreSound, IsHeld};
ghost use Rattle.oo7_dump.specs.Loads.{fault_of, Loads};
ghost use Rattle.oo7_dump.specs.Lost.{IsUnread};

use crate::addresses::page_of;
use crate::faults::DumpFault;
use pm3_disk::Reader;
use pm3_page::{Addr, Image, PageNo, Pages};
use pm3_pagefile::{LoadFault, load};
use pm3_types::Catalog;
use std::alloc::Global;

/// Loads the image of a page, unless it is held already.
pub(crate) fn hold<R: Reader>(
    alloc: Global,
    reader: &mut R,
    pages: u32,
    catalog: &Catalog,
    images: &mut Pages,
    page: PageNo,
) -> Result<(), DumpFault>
    requires pages { pages ≤ 16384 }
    requires page { (2 ≤ page) × (page < pages) }
    requires sound { AreSound catalog.now pages images.old.images }
    ensures loads { Loads R.Reader catalog.now pages reader.old reader.new images.old.images images.new.images (fault_of result) }
    ensures held { OnOk result (IsSome (map.get images.new.images page)) }
    ensures damaged { (number word : ℕ) → IsErrOf result (DumpFault.Damaged number word)
        → (number ≡ page) × IsUnread catalog.now pages (R.content reader.old) images.new.images page word }
{
    if images.get(page).is_some() {
        return Ok(());
    }
    if images.reserve(1).is_err() {
        return Err(DumpFault::Memory);
    }
    match load(alloc, reader, pages, catalog, page) {
        Ok(image) => {
            images.put(image);
            Ok(())
        }
        Err(LoadFault::PageFault) => Err(DumpFault::PageFault),
        Err(LoadFault::Damaged { page: _, word }) => Err(DumpFault::Damaged { page, word }),
        Err(LoadFault::Memory) => Err(DumpFault::Memory),
    }
}

/// The image on which an object lies whose page is held.
pub(crate) fn image_at(pages: u32, images: &Pages, at: Addr) -> &Image
    requires low { page_in BASE at < pages }
    requires held { IsHeld images.now.images at }
    ensures on { map.get images.now.images (page_in BASE at) ≡ Some result.now }
    ensures begins { begins_at BASE result.now at ≡ true }
{
    let Some(image) = images.get(page_of(at, pages)) else {
        unreachable!()
    };
    image
}
