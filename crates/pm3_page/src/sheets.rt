//! The sheets of images, and which pages images can have.
ghost use Rattle.std.specs.Prelude.{◌≡◌, ◌<◌, ℕ, true};
ghost use Rattle.std.specs.FinMap as map;
ghost use Rattle.pm3_page.specs.PageMap.{Images};
ghost use Rattle.pm3_page.specs.PageSheets.{sheet_in, sheets_of};

use crate::addresses::MOST_PAGES;
use crate::pages::Pages;

/// The sheets of images: of each page that of its image, and none where it has none.
pub fn sheets_law()
    ensures { (images : Images) (page : ℕ) → map.get (sheets_of images) page ≡ sheet_in (map.get images page) }
{}

/// The pages under which images are kept are below 16,384. The call does nothing, but tells this of a collection.
pub fn pages_are_low(pages: &Pages)
    ensures { (page : ℕ) → map.contains_key pages.now.images page ≡ true → page < 16384 }
{
    let _behind = pages.next(MOST_PAGES);
}
