//! All objects that the roots reach are met.
ghost use Rattle.std.specs.Prelude.{◌≡◌, ◌≤◌, ℕ, List, [], IsSome, IfOk, OnOk, IsErrOf};
ghost use Rattle.std.specs.FinMap as map;
ghost use Rattle.pm3_core.specs.declared.naming.TheConstants.{BASE};
ghost use Rattle.pm3_types.specs.Numbering.{meet};
ghost use Rattle.pm3_types.specs.Shown as shown;
ghost use Rattle.oo7_dump.specs.ByAddress.{AreAllMet};
ghost use Rattle.oo7_dump.specs.Held.{AreAmong, AreHeld, AreSound};
ghost use Rattle.oo7_dump.specs.Loads.{fault_of, Loads};
ghost use Rattle.oo7_dump.specs.Lost.{AreMentioned, HasLost, IsOneLost};
ghost use Rattle.oo7_dump.specs.Raw.{raw_at, root_words};

use crate::faults::DumpFault;
use crate::holding::hold;
use crate::looking::{look_at, root_addresses};
use crate::meeting::meet_all;
use crate::met::Met;
use pm3_disk::Reader;
use pm3_page::{Pages, ROOTS_PAGE};
use pm3_types::{Catalog, Memory};
use std::alloc::Global;

/// Meets all objects that the roots reach, breadth first. The pages on which they lie are held then.
pub(crate) fn meet_reached<R: Reader>(
    alloc: Global,
    reader: &mut R,
    pages: u32,
    catalog: &Catalog,
    images: &mut Pages,
) -> Result<Met, DumpFault>
    requires pages { (3 ≤ pages) × (pages ≤ 16384) }
    requires sound { AreSound catalog.now pages images.old.images }
    ensures loads { Loads R.Reader catalog.now pages reader.old reader.new images.old.images images.new.images (fault_of result) }
    ensures roots { OnOk result (IsSome (map.get images.new.images 2)) }
    ensures held { IfOk result (λ met. AreHeld images.new.images met) }
    ensures met { IfOk result (λ met. AreAllMet catalog.now BASE (AreAmong images.new.images) met) }
    ensures damaged { (page word : ℕ) → IsErrOf result (DumpFault.Damaged page word)
        → HasLost catalog.now pages (R.content reader.old) images.new.images page word }
{
    match hold(alloc, reader, pages, catalog, images, ROOTS_PAGE) {
        Ok(()) => {}
        Err(fault) => return Err(fault),
    }
    let mut met = Met::new(alloc);
    match meet_from_roots(alloc, reader, pages, catalog, images, &mut met) {
        Ok(()) => Ok(met),
        Err(fault) => Err(fault),
    }
}

/// Meets all objects that the roots reach, where page 2 is held and none was met before.
fn meet_from_roots<R: Reader>(
    alloc: Global,
    reader: &mut R,
    pages: u32,
    catalog: &Catalog,
    images: &mut Pages,
    met: &mut Met,
) -> Result<(), DumpFault>
    requires pages { pages ≤ 16384 }
    requires sound { AreSound catalog.now pages images.old.images }
    requires there { IsSome (map.get images.old.images 2) }
    requires none { met.old ≡ [] }
    ensures loads { Loads R.Reader catalog.now pages reader.old reader.new images.old.images images.new.images (fault_of result) }
    ensures held { OnOk result (AreHeld images.new.images met.new) }
    ensures met { OnOk result (AreAllMet catalog.now BASE (AreAmong images.new.images) met.new) }
    ensures damaged { (page word : ℕ) → IsErrOf result (DumpFault.Damaged page word) → (names : List ℕ)
        × AreMentioned catalog.now images.new.images names × IsOneLost catalog.now pages (R.content reader.old) images.new.images names page word }
{
    let roots = match root_addresses(alloc, images) {
        Ok(roots) => roots,
        Err(Memory) => return Err(DumpFault::Memory),
    };
    match meet_all(alloc, reader, pages, catalog, images, met, &roots) {
        Ok(()) => {}
        Err(fault) => return Err(fault),
    }
    look_at_all(alloc, reader, pages, catalog, images, met)
}

/// Looks at each object that was met, in order, and so at those that are met on the way.
fn look_at_all<R: Reader>(
    alloc: Global,
    reader: &mut R,
    pages: u32,
    catalog: &Catalog,
    images: &mut Pages,
    met: &mut Met,
) -> Result<(), DumpFault>
    requires pages { pages ≤ 16384 }
    requires sound { AreSound catalog.now pages images.old.images }
    requires held { AreHeld images.old.images met.old }
    requires roots { (all : shown.Images) → AreAmong images.old.images all → met.old ≡ meet (raw_at catalog.now BASE all) [] (root_words (map.get all 2)) }
    ensures loads { Loads R.Reader catalog.now pages reader.old reader.new images.old.images images.new.images (fault_of result) }
    ensures held { OnOk result (AreHeld images.new.images met.new) }
    ensures met { OnOk result (AreAllMet catalog.now BASE (AreAmong images.new.images) met.new) }
    ensures damaged { (page word : ℕ) → IsErrOf result (DumpFault.Damaged page word) → (names : List ℕ)
        × AreMentioned catalog.now images.new.images names × IsOneLost catalog.now pages (R.content reader.old) images.new.images names page word }
{
    let mut next = 0;
    while let Some(at) = met.at(next) {
        match look_at(alloc, reader, pages, catalog, images, met, at) {
            Ok(()) => next += 1,
            Err(fault) => return Err(fault),
        }
    }
    Ok(())
}
