//! Objects move to fresh pages.
ghost use Rattle.std.specs.Prelude.{◌≡◌, ◌≢◌, ◌+◌, ◌<◌, ◌≤◌, ◌++◌, ℕ, List, Some, length};
ghost use Rattle.std.specs.FinMap as map;
ghost use Rattle.std.specs.List.{All};
ghost use Rattle.pm3_types.specs.Layout.{PageImage, address, end_of};
ghost use Rattle.pm3_types.specs.PassMoves.{size_from, sizes, pages_wanted};
ghost use Rattle.pm3_page.specs.Next.{IsLeast};
ghost use Rattle.pm3_page.specs.PageSheets.{AreSoundPages, sheets_of};
ghost use Rattle.pm3_copy.specs.Fresh.{AreNext};
ghost use Rattle.pm3_copy.specs.Moving.{AreCopied, AreSettled, PutsCopy};
ghost use Rattle.pm3_copy.specs.Whole.{IsObjectOf};

use crate::copying::copy_object;
use crate::leaving::Leaving;
use crate::tables::Table;
use crate::wanted::{PAGE_WORDS, size_at};
use pm3_page::{Addr, BASE, PageNo, Pages, page_of};
use pm3_types::Catalog;

/// Where the next object goes: the page that is being filled, and the word behind its last object.
#[derive(Debug, Drop)]
struct Spot {
    page: PageNo,
    end: u32,
}

/// Moves that were made, and the last page that they filled.
#[derive(Debug, Drop)]
pub(crate) struct Moved {
    pub(crate) table: Table,
    pub(crate) last: PageNo,
}

/// Copies the objects to the next fresh pages behind one, in order, with their references as they are.
pub(crate) fn move_all(
    catalog: &Catalog,
    volatile: &Pages,
    leaving: Leaving,
    after: PageNo,
    fresh: &mut Pages,
) -> Moved
    requires volatile { AreSoundPages catalog.now BASE 16384 volatile.now.images }
    requires objects { All (IsObjectOf BASE volatile.now.images) leaving }
    requires fresh { AreSoundPages catalog.now BASE 16384 fresh.old.images }
    requires low { after < 16384 }
    requires room { (pages : List ℕ) × (more : List ℕ) × AreNext fresh.old.images (after + 1) (pages ++ more) × (length pages ≡ pages_wanted (sizes catalog.now BASE (sheets_of volatile.now.images) leaving)) }
    ensures olds { result.table.olds.items ≡ leaving }
    ensures all { length result.table.news.items ≡ length leaving }
    ensures copied { AreCopied catalog.now BASE volatile.now.images leaving result.table.news.items fresh.old.images fresh.new.images }
    ensures settled { (pages more : List ℕ) → AreNext fresh.old.images (after + 1) (pages ++ more)
        → length pages ≡ pages_wanted (sizes catalog.now BASE (sheets_of volatile.now.images) leaving)
        → AreSettled catalog.now BASE volatile.now.images leaving result.table.news.items pages result.last × AreNext fresh.new.images (result.last + 1) more }
    ensures before { (p : ℕ) → p ≤ after → map.get fresh.new.images p ≡ map.get fresh.old.images p }
    ensures sound { AreSoundPages catalog.now BASE 16384 fresh.new.images }
    ensures last { result.last < 16384 }
{
    let mut table = leaving.begin();
    let mut spot = Spot {
        page: after,
        end: PAGE_WORDS,
    };
    for i in 0..table.olds.len() {
        let at = table.olds[i];
        let words = size_at(catalog, volatile, at);
        spot = room_for(fresh, spot, words);
        let to = copy_to(catalog, volatile, at, spot.page, fresh);
        let Ok(()) = table.news.push(to) else {
            unreachable!()
        };
        spot.end += words;
    }
    Moved {
        table,
        last: spot.page,
    }
}

/// Where an object of so many words goes: behind the last one if it fits there, or else to the next page.
fn room_for(fresh: &Pages, spot: Spot, words: u32) -> Spot
    requires within { spot.end + words < 1024 }
    requires low { spot.page < 16384 }
    requires room { 512 < spot.end + words → (p : ℕ) × IsLeast (map.contains_key fresh.now.images) (spot.page + 1) p }
    ensures same { spot.end + words ≤ 512 → result ≡ spot }
    ensures next { 512 < spot.end + words → IsLeast (map.contains_key fresh.now.images) (spot.page + 1) result.page }
    ensures begins { 512 < spot.end + words → result.end ≡ 2 }
    ensures low { result.page < 16384 }
{
    if spot.end + words <= PAGE_WORDS {
        return spot;
    }
    let Some(page) = fresh.next(spot.page + 1) else {
        unreachable!()
    };
    Spot { page, end: 2 }
}

/// Copies the object at `at` behind the last object of a page, and answers the new address.
fn copy_to(catalog: &Catalog, volatile: &Pages, at: Addr, page: PageNo, fresh: &mut Pages) -> Addr
    requires volatile { AreSoundPages catalog.now BASE 16384 volatile.now.images }
    requires object { IsObjectOf BASE volatile.now.images at }
    requires fresh { AreSoundPages catalog.now BASE 16384 fresh.old.images }
    requires target { (target : PageImage) × (map.get fresh.old.images page ≡ Some target) × (page ≢ 2)
        × (end_of target.sheet + size_from catalog.now BASE (sheets_of volatile.now.images) at ≤ 512) }
    ensures at { (target : PageImage) → map.get fresh.old.images page ≡ Some target → result ≡ address BASE page (end_of target.sheet) }
    ensures copied { PutsCopy catalog.now BASE volatile.now.images at page fresh.old.images fresh.new.images }
    ensures sound { AreSoundPages catalog.now BASE 16384 fresh.new.images }
{
    let Some(source) = volatile.get(page_of(at)) else {
        unreachable!()
    };
    let Some(target) = fresh.get_mut(page) else {
        unreachable!()
    };
    copy_object(catalog, source, at, target)
}
