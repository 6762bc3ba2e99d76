//! Objects are met by references that lead to them.
ghost use Rattle.std.specs.Prelude.{◌≡◌, ◌≢◌, ◌+◌, ◌<◌, ◌≤◌, ◌∷◌, [], ℕ, true, false, cond, All, IsErrOf, OnOk};
ghost use Rattle.pm3_core.specs.declared.naming.TheConstants.{BASE};
ghost use Rattle.pm3_types.specs.Layout.{is_address, page_in, word_in};
ghost use Rattle.pm3_types.specs.Numbering.{is_among};
ghost use Rattle.pm3_types.specs.PageForm.{is_memory_reference};
ghost use Rattle.oo7_dump.specs.Held.{AreHeld, AreSound, IsHeld};
ghost use Rattle.oo7_dump.specs.Loads.{fault_of, Loads};
ghost use Rattle.oo7_dump.specs.Lost.{IsLost, IsOneLost};
ghost use Rattle.oo7_dump.specs.Meeting.{Meets};
ghost use Rattle.oo7_dump.specs.Places.{HasPlaces, is_place, place_word, references_in};

use crate::addresses::{page_of, word_of};
use crate::faults::DumpFault;
use crate::holding::{hold, image_at};
use crate::met::Met;
use crate::object::is_place;
use pm3_disk::Reader;
use pm3_page::{Addr, Pages};
use pm3_types::{Catalog, Memory, TypeMap};
use std::alloc::Global;

/// Meets the objects to which these references lead, in order. The pages of those that weren't met before are loaded.
pub(crate) fn meet_all<R: Reader>(
    alloc: Global,
    reader: &mut R,
    pages: u32,
    catalog: &Catalog,
    images: &mut Pages,
    met: &mut Met,
    names: &[Addr],
) -> Result<(), DumpFault>
    requires pages { pages ≤ 16384 }
    requires sound { AreSound catalog.now pages images.old.images }
    requires held { AreHeld images.old.images met.old }
    requires references { All (λ name. is_memory_reference BASE pages name ≡ true) names.now }
    ensures loads { Loads R.Reader catalog.now pages reader.old reader.new images.old.images images.new.images (fault_of result) }
    ensures held { OnOk result (AreHeld images.new.images met.new) }
    ensures met { OnOk result (Meets catalog.now images.new.images met.old met.new names.now) }
    ensures damaged { (page word : ℕ) → IsErrOf result (DumpFault.Damaged page word)
        → IsOneLost catalog.now pages (R.content reader.old) images.new.images names.now page word }
{
    for name in names {
        match meet_one(alloc, reader, pages, catalog, images, met, *name) {
            Ok(()) => {}
            Err(fault) => return Err(fault),
        }
    }
    Ok(())
}

/// Meets what the references in so many places of an object lead to, in order. The object is one that was met.
pub(crate) fn meet_places<R: Reader>(
    alloc: Global,
    reader: &mut R,
    pages: u32,
    catalog: &Catalog,
    images: &mut Pages,
    met: &mut Met,
    map: TypeMap,
    at: Addr,
    places: u32,
) -> Result<(), DumpFault>
    requires pages { pages ≤ 16384 }
    requires sound { AreSound catalog.now pages images.old.images }
    requires held { AreHeld images.old.images met.old }
    requires at { IsHeld images.old.images at }
    requires places { HasPlaces catalog.now pages images.old.images at map places }
    ensures loads { Loads R.Reader catalog.now pages reader.old reader.new images.old.images images.new.images (fault_of result) }
    ensures held { OnOk result (AreHeld images.new.images met.new) }
    ensures met { OnOk result (Meets catalog.now images.new.images met.old met.new (references_in map (place_word images.old.images at) places)) }
    ensures damaged { (page word : ℕ) → IsErrOf result (DumpFault.Damaged page word)
        → IsOneLost catalog.now pages (R.content reader.old) images.new.images (references_in map (place_word images.old.images at) places) page word }
{
    for place in 0..places {
        match meet_place(alloc, reader, pages, catalog, images, met, map, at, place) {
            Ok(()) => {}
            Err(fault) => return Err(fault),
        }
    }
    Ok(())
}

/// Meets what the reference in a place of an object leads to, if there is one.
fn meet_place<R: Reader>(
    alloc: Global,
    reader: &mut R,
    pages: u32,
    catalog: &Catalog,
    images: &mut Pages,
    met: &mut Met,
    map: TypeMap,
    at: Addr,
    place: u32,
) -> Result<(), DumpFault>
    requires pages { pages ≤ 16384 }
    requires sound { AreSound catalog.now pages images.old.images }
    requires held { AreHeld images.old.images met.old }
    requires at { IsHeld images.old.images at }
    requires within { word_in BASE at + 2 + place < 512 }
    requires refers { is_place map place ≡ true → is_memory_reference BASE pages (place_word images.old.images at place) ≡ true }
    ensures loads { Loads R.Reader catalog.now pages reader.old reader.new images.old.images images.new.images (fault_of result) }
    ensures held { OnOk result (AreHeld images.new.images met.new) }
    ensures met { OnOk result (Meets catalog.now images.new.images met.old met.new (cond (is_place map place) (place_word images.old.images at place ∷ []) [])) }
    ensures damaged { (page word : ℕ) → IsErrOf result (DumpFault.Damaged page word)
        → (is_place map place ≡ true) × IsLost catalog.now pages (R.content reader.old) images.new.images (place_word images.old.images at place) page word }
{
    if !is_place(map, place) {
        return Ok(());
    }
    let name = word_at(pages, images, at, place);
    meet_one(alloc, reader, pages, catalog, images, met, name)
}

/// The word in a place of an object whose page is held.
fn word_at(pages: u32, images: &Pages, at: Addr, place: u32) -> u64
    requires low { page_in BASE at < pages }
    requires held { IsHeld images.now.images at }
    requires within { word_in BASE at + 2 + place < 512 }
    ensures { result ≡ place_word images.now.images at place }
{
    image_at(pages, images, at).field(at, place)
}

/// Meets the object to which a reference leads, unless it is nil or was met before.
fn meet_one<R: Reader>(
    alloc: Global,
    reader: &mut R,
    pages: u32,
    catalog: &Catalog,
    images: &mut Pages,
    met: &mut Met,
    name: Addr,
) -> Result<(), DumpFault>
    requires pages { pages ≤ 16384 }
    requires sound { AreSound catalog.now pages images.old.images }
    requires held { AreHeld images.old.images met.old }
    requires reference { is_memory_reference BASE pages name ≡ true }
    ensures loads { Loads R.Reader catalog.now pages reader.old reader.new images.old.images images.new.images (fault_of result) }
    ensures held { OnOk result (AreHeld images.new.images met.new) }
    ensures met { OnOk result (Meets catalog.now images.new.images met.old met.new (name ∷ [])) }
    ensures damaged { (page word : ℕ) → IsErrOf result (DumpFault.Damaged page word)
        → IsLost catalog.now pages (R.content reader.old) images.new.images name page word }
{
    if name == 0 {
        return Ok(());
    }
    if met.has(name) {
        return Ok(());
    }
    meet_new(alloc, reader, pages, catalog, images, met, name)
}

/// Meets an object that wasn't met before.
fn meet_new<R: Reader>(
    alloc: Global,
    reader: &mut R,
    pages: u32,
    catalog: &Catalog,
    images: &mut Pages,
    met: &mut Met,
    name: Addr,
) -> Result<(), DumpFault>
    requires pages { pages ≤ 16384 }
    requires sound { AreSound catalog.now pages images.old.images }
    requires held { AreHeld images.old.images met.old }
    requires some { name ≢ 0 }
    requires address { is_address BASE name ≡ true }
    requires page { (3 ≤ page_in BASE name) × (page_in BASE name < pages) }
    requires new { is_among met.old name ≡ false }
    ensures loads { Loads R.Reader catalog.now pages reader.old reader.new images.old.images images.new.images (fault_of result) }
    ensures held { OnOk result (AreHeld images.new.images met.new) }
    ensures met { OnOk result (Meets catalog.now images.new.images met.old met.new (name ∷ [])) }
    ensures damaged { (page word : ℕ) → IsErrOf result (DumpFault.Damaged page word)
        → IsLost catalog.now pages (R.content reader.old) images.new.images name page word }
{
    let page = page_of(name, pages);
    match hold(alloc, reader, pages, catalog, images, page) {
        Ok(()) => {}
        Err(fault) => return Err(fault),
    }
    let Some(image) = images.get(page) else {
        unreachable!()
    };
    if !image.is_object(name) {
        return Err(DumpFault::Damaged {
            page,
            word: word_of(name),
        });
    }
    match met.add(name) {
        Ok(()) => Ok(()),
        Err(Memory) => Err(DumpFault::Memory),
    }
}
