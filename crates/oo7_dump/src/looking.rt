//! What objects and root slots refer to.
ghost use Rattle.std.specs.Prelude.{◌≡◌, ◌≤◌, ℕ, List, Some, IsSome, IfOk, OnOk, IsErrOf};
ghost use Rattle.std.specs.FinMap as map;
ghost use Rattle.pm3_core.specs.declared.naming.TheConstants.{BASE};
ghost use Rattle.pm3_types.specs.Layout.{PageImage};
ghost use Rattle.pm3_types.specs.Numbering.{meet, names_of};
ghost use Rattle.pm3_types.specs.Shown as shown;
ghost use Rattle.oo7_dump.specs.Held.{AreAmong, AreHeld, AreSound, IsHeld};
ghost use Rattle.oo7_dump.specs.Loads.{fault_of, Loads};
ghost use Rattle.oo7_dump.specs.Lost.{IsOneLost};
ghost use Rattle.oo7_dump.specs.Places.{HasPlaces};
ghost use Rattle.oo7_dump.specs.Raw.{raw_at, root_words};

use crate::faults::DumpFault;
use crate::holding::image_at;
use crate::meeting::meet_places;
use crate::met::Met;
use crate::object::places_of;
use pm3_disk::Reader;
use pm3_page::{Addr, Image, Pages, ROOTS_PAGE};
use pm3_types::{Catalog, Memory, TypeMap};
use std::alloc::Global;

/// Meets what an object refers to that was met.
pub(crate) fn look_at<R: Reader>(
    alloc: Global,
    reader: &mut R,
    pages: u32,
    catalog: &Catalog,
    images: &mut Pages,
    met: &mut Met,
    at: Addr,
) -> Result<(), DumpFault>
    requires pages { pages ≤ 16384 }
    requires sound { AreSound catalog.now pages images.old.images }
    requires held { AreHeld images.old.images met.old }
    requires at { IsHeld images.old.images at }
    ensures loads { Loads R.Reader catalog.now pages reader.old reader.new images.old.images images.new.images (fault_of result) }
    ensures held { OnOk result (AreHeld images.new.images met.new) }
    ensures met { OnOk result ((all : shown.Images) → AreAmong images.new.images all
        → met.new ≡ meet (raw_at catalog.now BASE all) met.old (names_of catalog.now (raw_at catalog.now BASE all at))) }
    ensures damaged { (page word : ℕ) → IsErrOf result (DumpFault.Damaged page word) → (names : List ℕ)
        × ((all : shown.Images) → AreAmong images.old.images all → names_of catalog.now (raw_at catalog.now BASE all at) ≡ names)
        × IsOneLost catalog.now pages (R.content reader.old) images.new.images names page word }
{
    let (map, places) = parts_at(pages, catalog, images, at);
    meet_places(alloc, reader, pages, catalog, images, met, map, at, places)
}

/// The map of the type of an object whose page is held, and how many places it has for references.
fn parts_at(pages: u32, catalog: &Catalog, images: &Pages, at: Addr) -> (TypeMap, u32)
    requires sound { AreSound catalog.now pages images.now.images }
    requires held { IsHeld images.now.images at }
    ensures { HasPlaces catalog.now pages images.now.images at result.0 result.1 }
{
    let image = image_at(pages, images, at);
    let Some(map) = catalog.get(image.type_of(at)) else {
        unreachable!()
    };
    (map, places_of(map, image.tail_len(at)))
}

/// The addresses in the root slots of page 2, which is held.
pub(crate) fn root_addresses(alloc: Global, images: &Pages) -> Result<Vec<Addr>, Memory>
    requires home { (image : PageImage) → map.get images.now.images 2 ≡ Some image → image.page ≡ 2 }
    requires there { IsSome (map.get images.now.images 2) }
    ensures { IfOk result (λ names. (all : shown.Images) → AreAmong images.now.images all → root_words (map.get all 2) ≡ names.items) }
{
    let Some(image) = images.get(ROOTS_PAGE) else {
        unreachable!()
    };
    slots(alloc, image)
}

/// The addresses in the root slots of an image.
fn slots(alloc: Global, image: &Image) -> Result<Vec<Addr>, Memory>
    requires { image.now.page ≡ 2 }
    ensures { IfOk result (λ names. names.items ≡ root_words (Some image.now.sheet)) }
{
    let mut names = Vec::new(alloc);
    for slot in 0..16u32 {
        let Ok(()) = names.push(image.root(slot)) else {
            return Err(Memory);
        };
    }
    Ok(names)
}
