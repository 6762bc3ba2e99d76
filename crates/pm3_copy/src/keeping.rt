//! Which objects stay in the space.
ghost use Rattle.std.specs.Prelude.{◌≡◌};
ghost use Rattle.pm3_types.specs.PassMoves.{IsListOf};
ghost use Rattle.pm3_types.specs.PassSets.{Live, Promoted};
ghost use Rattle.pm3_page.specs.PageMap.{Images};
ghost use Rattle.pm3_page.specs.PageSheets.{AreSoundPages};
ghost use Rattle.pm3_copy.specs.Finds.{Adds, AreFound};
ghost use Rattle.pm3_copy.specs.Spreading.{before_of, RefersFor};
ghost use Rattle.pm3_copy.specs.Whole.{IsObjectOf};

use crate::finding::{find_on_pages, find_referred};
use crate::finds::Found;
use pm3_page::{Addr, BASE, PageSet, Pages, page_of};
use pm3_types::Catalog;

/// Finds the objects that stay in the space, besides those that turn persistent, which have been found.
pub(crate) fn keep(catalog: &Catalog, volatile: &Pages, pinned: &PageSet, found: &mut Found)
    requires sound { AreSoundPages catalog.now BASE 16384 volatile.now.images }
    requires objects { IsListOf (IsObjectOf BASE volatile.now.images) found.old.objects }
    ensures objects { found.new.objects ≡ found.old.objects }
    ensures live { (written : Images) → let before = before_of volatile.now.images written pinned.now in
        AreFound (Promoted catalog.now BASE before) found.old → AreFound (Live catalog.now BASE before) found.new }
{
    let mut next = found.len();
    find_on_pages(volatile, pinned, found);
    while next < found.len() {
        let at = found.get(next);
        follow(catalog, volatile, at, found);
        next += 1;
    }
}

/// Finds the objects that the object at `at` refers to.
fn follow(catalog: &Catalog, volatile: &Pages, at: Addr, found: &mut Found)
    requires sound { AreSoundPages catalog.now BASE 16384 volatile.now.images }
    requires object { IsObjectOf BASE volatile.now.images at }
    ensures { Adds (RefersFor catalog.now BASE volatile.now.images at) found.old found.new }
{
    let Some(image) = volatile.get(page_of(at)) else {
        unreachable!()
    };
    find_referred(catalog, image, at, found);
}
