//! References of all images follow.
ghost use Rattle.std.specs.Prelude.{◌≡◌, true};
ghost use Rattle.std.specs.FinMap as map;
ghost use Rattle.pm3_page.specs.PageSheets.{AreSoundPages};
ghost use Rattle.pm3_copy.specs.Renaming.{AreUpdated, KeepsReferences, UpdatesPage};
ghost use Rattle.pm3_copy.specs.Tables.{follows, AreTables};

use crate::tables::Tables;
use crate::updating::update;
use pm3_page::{BASE, PageNo, Pages};
use pm3_types::Catalog;

/// Lets the references of all images follow.
pub(crate) fn update_all(catalog: &Catalog, pages: &mut Pages, tables: &Tables)
    requires tables { AreTables BASE tables.now }
    requires keeps { KeepsReferences BASE (follows tables.now) }
    requires sound { AreSoundPages catalog.now BASE 16384 pages.old.images }
    ensures updated { AreUpdated catalog.now (follows tables.now) pages.old.images pages.new.images }
    ensures sound { AreSoundPages catalog.now BASE 16384 pages.new.images }
    ensures spare { pages.new.spare ≡ pages.old.spare }
{
    let mut from = 0;
    while let Some(page) = pages.next(from) {
        update_page(catalog, pages, page, tables);
        from = page + 1;
    }
}

/// Lets the references of the image of a page follow.
fn update_page(catalog: &Catalog, pages: &mut Pages, page: PageNo, tables: &Tables)
    requires tables { AreTables BASE tables.now }
    requires keeps { KeepsReferences BASE (follows tables.now) }
    requires sound { AreSoundPages catalog.now BASE 16384 pages.old.images }
    requires there { map.contains_key pages.old.images page ≡ true }
    ensures updated { UpdatesPage catalog.now (follows tables.now) page pages.old.images pages.new.images }
    ensures sound { AreSoundPages catalog.now BASE 16384 pages.new.images }
    ensures spare { pages.new.spare ≡ pages.old.spare }
{
    let Some(image) = pages.get_mut(page) else {
        unreachable!()
    };
    update(catalog, image, tables);
}
