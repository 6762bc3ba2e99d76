//! How many pages moved objects take.
ghost use Rattle.std.specs.Prelude.{◌≡◌, ◌^◌, ◌<◌, ◌≤◌, length};
ghost use Rattle.std.specs.List.{All};
ghost use Rattle.pm3_types.specs.PassMoves.{size_from, sizes, pages_wanted};
ghost use Rattle.pm3_page.specs.PageSheets.{AreSoundPages, sheets_of};
ghost use Rattle.pm3_copy.specs.Whole.{IsObjectOf};

use crate::objects::size_of;
use pm3_page::{Addr, BASE, Pages, page_of};
use pm3_types::Catalog;

/// The number of words of a page.
pub(crate) const PAGE_WORDS: u32 = 512;

/// The number of pages that these objects take, placed one behind another in this order, each on the next page where it doesn't
/// fit behind the last.
pub(crate) fn pages_for(catalog: &Catalog, images: &Pages, list: &[Addr]) -> u32
    requires sound { AreSoundPages catalog.now BASE 16384 images.now.images }
    requires objects { All (IsObjectOf BASE images.now.images) list.now }
    requires few { length list.now < 2 ^ 32 }
    ensures { result ≡ pages_wanted (sizes catalog.now BASE (sheets_of images.now.images) list.now) }
{
    let mut pages = 0;
    let mut end = PAGE_WORDS;
    for at in list {
        let words = size_at(catalog, images, *at);
        if end + words > PAGE_WORDS {
            pages += 1;
            end = 2;
        }
        end += words;
    }
    pages
}

/// The words of the object at `at`.
pub(crate) fn size_at(catalog: &Catalog, images: &Pages, at: Addr) -> u32
    requires sound { AreSoundPages catalog.now BASE 16384 images.now.images }
    requires object { IsObjectOf BASE images.now.images at }
    ensures size { result ≡ size_from catalog.now BASE (sheets_of images.now.images) at }
    ensures bounds { (2 ≤ result) × (result ≤ 510) }
{
    let Some(image) = images.get(page_of(at)) else {
        unreachable!()
    };
    size_of(catalog, image, at)
}
