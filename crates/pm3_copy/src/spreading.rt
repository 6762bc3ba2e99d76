//! Which objects turn persistent: a work list of those that have been found.
ghost use Rattle.std.specs.Prelude.{◌≡◌, ◌<◌, [], ℕ, true, Some, IfOk, OnOk};
ghost use Rattle.std.specs.FinSet as set;
ghost use Rattle.std.specs.List.{Contains};
ghost use Rattle.pm3_types.specs.Layout.{begins_at, page_in};
ghost use Rattle.pm3_types.specs.PassMoves.{IsListOf};
ghost use Rattle.pm3_types.specs.PassSets.{Promoted};
ghost use Rattle.pm3_page.specs.PageMap.{IsAtHome};
ghost use Rattle.pm3_page.specs.PageSheets.{AreSoundPages};
ghost use Rattle.pm3_copy.specs.Finds.{Adds, AreFound};
ghost use Rattle.pm3_copy.specs.Spreading.{before_of, AreTurned, AreWhole, LeadsTo, TurnsPage};
ghost use Rattle.pm3_copy.specs.Whole.{IsObjectOf};

use crate::finding::{find_from_images, find_objects, find_referred};
use crate::finds::Found;
use pm3_page::{Addr, BASE, Image, PageNo, PageSet, Pages, page_of};
use pm3_types::{Catalog, Memory};
use std::alloc::Global;

/// Finds the objects of the space that turn persistent, and answers the pinned pages that turn with them.
pub(crate) fn promote(
    alloc: Global,
    catalog: &Catalog,
    volatile: &Pages,
    written: &Pages,
    pinned: &PageSet,
    found: &mut Found,
) -> Result<PageSet, Memory>
    requires volatile { AreSoundPages catalog.now BASE 16384 volatile.now.images }
    requires written { AreSoundPages catalog.now BASE 16384 written.now.images }
    requires objects { IsListOf (IsObjectOf BASE volatile.now.images) found.old.objects }
    requires none { found.old.list ≡ [] }
    ensures objects { OnOk result (found.new.objects ≡ found.old.objects) }
    ensures promoted { OnOk result (AreFound (Promoted catalog.now BASE (before_of volatile.now.images written.now.images pinned.now)) found.new) }
    ensures turned { IfOk result (AreTurned catalog.now BASE (before_of volatile.now.images written.now.images pinned.now)) }
{
    find_from_images(catalog, written, found);
    let mut turned = PageSet::new(alloc);
    let mut next = 0;
    while next < found.len() {
        let at = found.get(next);
        bring_along(catalog, volatile, pinned, at, found, &mut turned)?;
        next += 1;
    }
    Ok(turned)
}

/// Finds what turns persistent with the object at `at`.
fn bring_along(
    catalog: &Catalog,
    volatile: &Pages,
    pinned: &PageSet,
    at: Addr,
    found: &mut Found,
    turned: &mut PageSet,
) -> Result<(), Memory>
    requires sound { AreSoundPages catalog.now BASE 16384 volatile.now.images }
    requires object { IsObjectOf BASE volatile.now.images at }
    requires objects { IsListOf (IsObjectOf BASE volatile.now.images) found.old.objects }
    requires whole { AreWhole BASE volatile.now.images turned.old found.old }
    ensures found { OnOk result (Adds (LeadsTo catalog.now BASE volatile.now.images pinned.now at) found.old found.new) }
    ensures turned { OnOk result (TurnsPage pinned.now (page_in BASE at) turned.old turned.new) }
    ensures whole { OnOk result (AreWhole BASE volatile.now.images turned.new found.new) }
{
    let page = page_of(at);
    let Some(image) = volatile.get(page) else {
        unreachable!()
    };
    find_referred(catalog, image, at, found);
    turn(image, page, pinned, found, turned)?;
    Ok(())
}

/// Finds all objects of a page if it is pinned and was not turned before, and turns it.
fn turn(
    image: &Image,
    page: PageNo,
    pinned: &PageSet,
    found: &mut Found,
    turned: &mut PageSet,
) -> Result<(), Memory>
    requires page { page < 16384 }
    requires whole { set.contains turned.old page ≡ true → (b : ℕ) → begins_at BASE image.now b ≡ true → Contains found.old.list b }
    ensures found { OnOk result (Adds (λ b. (set.contains pinned.now page ≡ true) × (begins_at BASE image.now b ≡ true)) found.old found.new) }
    ensures turned { OnOk result (TurnsPage pinned.now page turned.old turned.new) }
{
    if !pinned.has(page) || turned.has(page) {
        return Ok(());
    }
    find_objects(image, found);
    turned.add(page)?;
    Ok(())
}
