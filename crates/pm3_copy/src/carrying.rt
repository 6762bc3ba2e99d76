//! A pass is carried out.
ghost use Rattle.std.specs.Prelude.{◌≡◌, ◌+◌, ◌<◌, ◌≤◌, ◌++◌, ◌⊎◌, ℕ, List, length, true, false, None};
ghost use Rattle.std.specs.FinMap as map;
ghost use Rattle.std.specs.FinSet as set;
ghost use Rattle.std.specs.List.{All, Contains};
ghost use Rattle.std.specs.Ordering.{nat_cmp};
ghost use Rattle.pm3_types.specs.PassMoves.{IsRising, sizes, settled, pages_wanted};
ghost use Rattle.pm3_types.specs.PassShown.{AreJoined};
ghost use Rattle.pm3_types.specs.Shown as shown;
ghost use Rattle.pm3_page.specs.PageMap.{IsAtHome};
ghost use Rattle.pm3_page.specs.PageSheets.{AreSoundPages, sheets_of};
ghost use Rattle.pm3_copy.specs.CarriedOut.{IsCarriedOut};
ghost use Rattle.pm3_copy.specs.Blocks.{AreBothNumbered};
ghost use Rattle.pm3_copy.specs.Fresh.{AreBlank, AreLeast, AreNext};
ghost use Rattle.pm3_copy.specs.Moving.{AreMoved};
ghost use Rattle.pm3_copy.specs.Planning.{IsPlan};
ghost use Rattle.pm3_copy.specs.Sending.{ArePlaced};
ghost use Rattle.pm3_copy.specs.Spreading.{before_of};
ghost use Rattle.pm3_copy.specs.Tables.{AreTables, follows};
ghost use Rattle.pm3_copy.specs.Whole.{IsObjectOf};

use crate::index::Index;
use crate::leaving::Leaving;
use crate::moving::{Moved, move_all};
use crate::plans::Plan;
use crate::sending::{give_up, hand_out, send_all};
use crate::tables::Tables;
use crate::update_pages::update_all;
use pm3_page::{BASE, PageSet, Pages};
use pm3_types::Catalog;

/// What a pass has done.
#[derive(Debug, Drop)]
pub struct Report {
    /// The pinned pages that have turned persistent.
    pub promoted: PageSet,
    /// The pages of the space that were given up.
    pub freed: PageSet,
    /// The number of pinned pages.
    pub pins: u32,
    /// The number of objects that have moved.
    pub moved: u32,
}

/// Copies all objects that move to the fresh pages, and answers the tables of their moves, with the index of both.
fn move_both(
    catalog: &Catalog,
    volatile: &Pages,
    promoted: Leaving,
    kept: Leaving,
    index: Index,
    fresh: &mut Pages,
) -> Tables
    requires volatile { AreSoundPages catalog.now BASE 16384 volatile.now.images }
    requires promoted { All (IsObjectOf BASE volatile.now.images) promoted }
    requires numbered { AreBothNumbered BASE index.blocks.by_page.items index.numbers.items promoted kept }
    requires kept { All (IsObjectOf BASE volatile.now.images) kept }
    requires promoted_rise { IsRising promoted }
    requires kept_rise { IsRising kept }
    requires apart { (a : ℕ) → Contains promoted a → Contains kept a → ⊥ }
    requires fresh { AreSoundPages catalog.now BASE 16384 fresh.old.images }
    requires room { (first : List ℕ) × (second : List ℕ) × AreNext fresh.old.images 1 (first ++ second)
        × (length first ≡ pages_wanted (sizes catalog.now BASE (sheets_of volatile.now.images) promoted))
        × (length second ≡ pages_wanted (sizes catalog.now BASE (sheets_of volatile.now.images) kept)) }
    ensures olds { (result.promoted.olds.items ≡ promoted) × (result.kept.olds.items ≡ kept) }
    ensures tables { AreTables BASE result }
    ensures moved { AreMoved catalog.now BASE volatile.now.images promoted kept (follows result) fresh.old.images fresh.new.images }
    ensures settled { (first second : List ℕ) → AreNext fresh.old.images 1 (first ++ second)
        → length first ≡ pages_wanted (sizes catalog.now BASE (sheets_of volatile.now.images) promoted)
        → length second ≡ pages_wanted (sizes catalog.now BASE (sheets_of volatile.now.images) kept)
        → (result.promoted.news.items ≡ settled BASE (sizes catalog.now BASE (sheets_of volatile.now.images) promoted) first)
        × (result.kept.news.items ≡ settled BASE (sizes catalog.now BASE (sheets_of volatile.now.images) kept) second) }
    ensures sound { AreSoundPages catalog.now BASE 16384 fresh.new.images }
{
    let Moved { table, last } = move_all(catalog, volatile, promoted, 0, fresh);
    let others = move_all(catalog, volatile, kept, last, fresh);
    Tables {
        promoted: table,
        kept: others.table,
        index,
    }
}

/// Gives up some pages of the space and turns others, and hands out the filled pages: the first to the written ones, and the
/// others to the space.
fn part(
    persistent: u32,
    staying: u32,
    turned: &PageSet,
    freed: &PageSet,
    volatile: &mut Pages,
    written: &mut Pages,
    filled: &mut Pages,
)
    requires volatile_home { IsAtHome volatile.old.images }
    requires filled_home { IsAtHome filled.old.images }
    requires apart { (p : ℕ) → map.contains_key volatile.old.images p ≡ true → map.get written.old.images p ≡ None }
    requires filled_apart { (p : ℕ) → map.contains_key filled.old.images p ≡ true → (map.get written.old.images p ≡ None) × (map.get volatile.old.images p ≡ None) }
    requires turned { (p : ℕ) → set.contains turned.now p ≡ true → map.contains_key volatile.old.images p ≡ true }
    requires freed { (p : ℕ) → set.contains turned.now p ≡ true → set.contains freed.now p ≡ false }
    requires pages { (first : List ℕ) × (second : List ℕ) × AreLeast (map.contains_key filled.old.images) 0 (first ++ second) × (length first ≡ persistent) × (length second ≡ staying) }
    requires written_room { persistent + set.len turned.now ≤ written.old.spare }
    requires volatile_room { staying ≤ volatile.old.spare }
    ensures { (first second : List ℕ) → AreLeast (map.contains_key filled.old.images) 0 (first ++ second) → length first ≡ persistent → length second ≡ staying
        → ArePlaced first second turned.now freed.now volatile.old.images written.old.images filled.old.images volatile.new.images written.new.images }
{
    give_up(freed, volatile);
    send_all(turned, volatile, written);
    let next = hand_out(persistent, 0, filled, written);
    hand_out(staying, next, filled, volatile);
}

/// Carries out the plan of a pass over these images, on as many fresh pages as the plan wants. It takes no memory.
///
/// Afterwards the written images also have the pages that have turned persistent, and those of the space are the ones that stay.
/// What both show is said by `carried_law`.
pub fn carry_out(
    plan: Plan,
    catalog: &Catalog,
    volatile: &mut Pages,
    written: &mut Pages,
    fresh: Pages,
) -> Report
    requires plan { (pinned : set.FinSet nat_cmp) × IsPlan catalog.now BASE (before_of volatile.old.images written.old.images pinned) plan
        × ((p : ℕ) → set.contains pinned p ≡ true → map.contains_key volatile.old.images p ≡ true) }
    requires volatile { AreSoundPages catalog.now BASE 16384 volatile.old.images }
    requires written { AreSoundPages catalog.now BASE 16384 written.old.images }
    requires apart { (p : ℕ) → map.contains_key volatile.old.images p ≡ true → map.get written.old.images p ≡ None }
    requires no_roots { map.get volatile.old.images 2 ≡ None }
    requires fresh { AreBlank fresh.images }
    requires fresh_apart { (p : ℕ) → map.contains_key fresh.images p ≡ true → (map.get written.old.images p ≡ None) × (map.get volatile.old.images p ≡ None) }
    requires wanted { map.len fresh.images ≡ plan.persistent + plan.volatile }
    requires written_room { plan.persistent + set.len plan.turned ≤ written.old.spare }
    requires volatile_room { plan.volatile ≤ volatile.old.spare }
    ensures carried { (pinned : set.FinSet nat_cmp) (all now : shown.Images) → IsPlan catalog.now BASE (before_of volatile.old.images written.old.images pinned) plan
        → ((p : ℕ) → set.contains pinned p ≡ true → map.contains_key volatile.old.images p ≡ true)
        → AreJoined (sheets_of volatile.old.images) (sheets_of written.old.images) all → AreJoined (sheets_of volatile.new.images) (sheets_of written.new.images) now
        → IsCarriedOut catalog.now BASE (before_of volatile.old.images written.old.images pinned) (map.keys fresh.images) all now (sheets_of volatile.new.images) (sheets_of written.new.images) }
    ensures apart { (p : ℕ) → map.contains_key volatile.new.images p ≡ true → map.get written.new.images p ≡ None }
    ensures volatile { AreSoundPages catalog.now BASE 16384 volatile.new.images }
    ensures written { AreSoundPages catalog.now BASE 16384 written.new.images }
    ensures bounded { (pages : ℕ) → AreSoundPages catalog.now BASE pages volatile.old.images → AreSoundPages catalog.now BASE pages written.old.images
        → ((p : ℕ) → map.contains_key fresh.images p ≡ true → p < pages)
        → AreSoundPages catalog.now BASE pages volatile.new.images × AreSoundPages catalog.now BASE pages written.new.images }
    ensures report { result ≡ record { promoted = plan.turned; freed = plan.freed; pins = plan.pins; moved = plan.moved } }
{
    let Plan {
        persistent,
        volatile: staying,
        pins,
        moved,
        promoted,
        kept,
        index,
        turned,
        freed,
    } = plan;
    let mut filled = fresh;
    let tables = move_both(catalog, volatile, promoted, kept, index, &mut filled);
    part(
        persistent,
        staying,
        &turned,
        &freed,
        volatile,
        written,
        &mut filled,
    );
    update_all(catalog, volatile, &tables);
    update_all(catalog, written, &tables);
    Report {
        promoted: turned,
        freed,
        pins,
        moved,
    }
}
