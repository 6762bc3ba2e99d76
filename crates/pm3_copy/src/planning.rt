//! A pass is planned.
ghost use Rattle.std.specs.Prelude.{◌≡◌, ◌↔◌, ◌+◌, ◌<◌, ◌≤◌, ◌^◌, ℕ, List, [], length, true, false, IfOk, OnOk};
ghost use Rattle.std.specs.List.{Contains};
ghost use Rattle.std.specs.FinMap as map;
ghost use Rattle.std.specs.FinSet as set;
ghost use Rattle.pm3_types.specs.Fields.{Fields};
ghost use Rattle.pm3_types.specs.PassMoves.{AreMovers, IsListOf, IsRising};
ghost use Rattle.pm3_types.specs.PassSets.{Promoted, Kept};
ghost use Rattle.pm3_page.specs.PageSheets.{AreSoundPages};
ghost use Rattle.pm3_copy.specs.Blocks.{AreBothNumbered, AreOnSome};
ghost use Rattle.pm3_copy.specs.Planning.{IsPlan};
ghost use Rattle.pm3_copy.specs.Spreading.{before_of, AreTurned, Frees};
ghost use Rattle.pm3_copy.specs.Whole.{IsObjectOf};

use crate::blocks::Blocks;
use crate::finds::Found;
use crate::index::Index;
use crate::keeping::keep;
use crate::leaving::Leaving;
use crate::movers::movers;
use crate::objects::objects_of;
use crate::plans::Plan;
use crate::spreading::promote;
use crate::wanted::pages_for;
use pm3_page::{Addr, BASE, PageNo, PageSet, Pages};
use pm3_types::{Catalog, Memory};
use std::alloc::Global;

/// Plans a pass over the images of a space and the written images of persistent pages, with these pinned pages.
///
/// What the written images refer to turns persistent, with all that it refers to and, on a pinned page, all objects of that
/// page. The other objects on pinned pages stay where they are, and what these refer to moves to new pages of the space. All
/// else is dead. Nothing is changed yet.
pub fn plan(
    alloc: Global,
    catalog: &Catalog,
    volatile: &Pages,
    written: &Pages,
    pinned: &PageSet,
) -> Result<Plan, Memory>
    requires volatile { AreSoundPages catalog.now BASE 16384 volatile.now.images }
    requires written { AreSoundPages catalog.now BASE 16384 written.now.images }
    ensures plan { IfOk result (IsPlan catalog.now BASE (before_of volatile.now.images written.now.images pinned.now)) }
    ensures few_turned { IfOk result (λ plan. set.len plan.turned ≤ plan.pins) }
{
    let Moving {
        promoted,
        kept,
        turned,
        freed,
        index,
    } = find_moving(alloc, catalog, volatile, written, pinned)?;
    let persistent = pages_for(catalog, volatile, &promoted);
    let staying = pages_for(catalog, volatile, &kept);
    let moved = (promoted.len() + kept.len()) as u32;
    let going = Leaving::of(promoted)?;
    let left = Leaving::of(kept)?;
    Ok(Plan {
        persistent,
        volatile: staying,
        pins: pinned.len(),
        moved,
        promoted: going,
        kept: left,
        index,
        turned,
        freed,
    })
}

/// The objects that move, of each kind, and their index, the pinned pages that turn persistent, and the pages that are given up.
#[derive(Debug, Drop)]
struct Moving {
    promoted: Vec<Addr>,
    kept: Vec<Addr>,
    turned: PageSet,
    freed: PageSet,
    index: Index,
}

/// Finds the objects that move.
fn find_moving(
    alloc: Global,
    catalog: &Catalog,
    volatile: &Pages,
    written: &Pages,
    pinned: &PageSet,
) -> Result<Moving, Memory>
    requires volatile { AreSoundPages catalog.now BASE 16384 volatile.now.images }
    requires written { AreSoundPages catalog.now BASE 16384 written.now.images }
    ensures promoted { IfOk result (λ moving. let before = before_of volatile.now.images written.now.images pinned.now in
        AreMovers BASE before (Promoted catalog.now BASE before) moving.promoted.items) }
    ensures kept { IfOk result (λ moving. let before = before_of volatile.now.images written.now.images pinned.now in
        AreMovers BASE before (Kept catalog.now BASE before) moving.kept.items) }
    ensures turned { IfOk result (λ moving. AreTurned catalog.now BASE (before_of volatile.now.images written.now.images pinned.now) moving.turned) }
    ensures freed { IfOk result (λ moving. (p : ℕ) → (set.contains moving.freed p ≡ true) ↔ ((map.contains_key volatile.now.images p ≡ true) × (set.contains pinned.now p ≡ false))) }
    ensures numbered { IfOk result (λ moving. AreBothNumbered BASE moving.index.blocks.by_page.items moving.index.numbers.items moving.promoted.items moving.kept.items) }
{
    let mut found = none_found(alloc, volatile)?;
    let turned = promote(alloc, catalog, volatile, written, pinned, &mut found)?;
    let promoted = movers(alloc, &found, pinned, &[])?;
    keep(catalog, volatile, pinned, &mut found);
    let kept = movers(alloc, &found, pinned, &promoted)?;
    drop(found);
    let freed = unpinned(alloc, volatile, pinned)?;
    let index = index_of(alloc, &freed, &promoted, &kept)?;
    Ok(Moving {
        promoted,
        kept,
        turned,
        freed,
        index,
    })
}

/// All objects of these images, of which none has been found.
fn none_found(alloc: Global, images: &Pages) -> Result<Found, Memory>
    requires { (catalog : List Fields) × AreSoundPages catalog BASE 16384 images.now.images }
    ensures objects { IfOk result (λ found. IsListOf (IsObjectOf BASE images.now.images) found.objects) }
    ensures none { IfOk result (λ found. found.list ≡ []) }
{
    let objects = objects_of(alloc, images)?;
    let pages = unpinned(alloc, images, &PageSet::new(alloc))?;
    let blocks = Blocks::of(alloc, &pages)?;
    let found = Found::none(objects, blocks)?;
    Ok(found)
}

/// The index of the objects that move from these pages, by their places in both lists, one behind the other.
fn index_of(
    alloc: Global,
    pages: &PageSet,
    promoted: &[Addr],
    kept: &[Addr],
) -> Result<Index, Memory>
    requires promoted { AreOnSome BASE pages.now promoted.now }
    requires kept { AreOnSome BASE pages.now kept.now }
    requires promoted_rise { IsRising promoted.now }
    requires kept_rise { IsRising kept.now }
    requires apart { (a : ℕ) → Contains promoted.now a → Contains kept.now a → ⊥ }
    requires few { length promoted.now + length kept.now < 2 ^ 32 }
    ensures { IfOk result (λ index. AreBothNumbered BASE index.blocks.by_page.items index.numbers.items promoted.now kept.now) }
{
    let mut index = Index::over(alloc, Blocks::of(alloc, pages)?)?;
    index.number(0, promoted);
    index.number(promoted.len(), kept);
    Ok(index)
}

/// The pages of these images that are not pinned.
fn unpinned(alloc: Global, images: &Pages, pinned: &PageSet) -> Result<PageSet, Memory>
    ensures { IfOk result (λ freed. (p : ℕ) → (set.contains freed p ≡ true) ↔ ((map.contains_key images.now.images p ≡ true) × (set.contains pinned.now p ≡ false))) }
{
    let mut freed = PageSet::new(alloc);
    let mut from = 0;
    while let Some(page) = images.next(from) {
        free(pinned, page, &mut freed)?;
        from = page + 1;
    }
    Ok(freed)
}

/// Adds a page to the set unless it is pinned.
fn free(pinned: &PageSet, page: PageNo, freed: &mut PageSet) -> Result<(), Memory>
    requires { page < 16384 }
    ensures { OnOk result (Frees pinned.now page freed.old freed.new) }
{
    if pinned.has(page) {
        return Ok(());
    }
    freed.add(page)?;
    Ok(())
}
