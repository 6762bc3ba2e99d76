//! The volatile pages of a group.
ghost use Rattle.std.specs.Prelude.{◌≡◌, None};
ghost use Rattle.std.specs.FinMap as map;
ghost use Rattle.std.specs.FinSet as set;

use crate::free_pages::FreePages;
use pm3_page::{PageNo, Pages};
use std::alloc::Global;
use std::marker::Model;

/// The volatile pages of a group: their images, the pages that are free, and the page that objects are placed on.
#[derive(Debug, Drop)]
pub struct Space {
    pub(crate) number: u32,
    pub(crate) images: Pages,
    pub(crate) free: FreePages,
    pub(crate) current: Option<PageNo>,
}

impl Model for Space {
    ghost use Rattle.pm3_access.specs.Holding.{SpaceState};
    ghost use Rattle.pm3_access.specs.Codes.{space_code};
    ghost use Rattle.pm3_page.specs.PageMap.{IsAtHome};

    ghost Value = { SpaceState };

    ghost coded = { space_code };

    ghost view = { λ s. record { number = s.number; images = s.images.images; free = s.free.pages; room = s.free.room; current = s.current } };

    ghost invariant = { λ s. IsAtHome s.images.images };
}

impl Space {
    /// A space without pages. It keeps `alloc` and takes memory as it grows.
    pub fn new(alloc: Global, number: u32) -> Space
        ensures { result ≡ record { number = number; images = map.empty; free = set.empty; room = 0; current = None } }
    {
        Space {
            number,
            images: Pages::new(alloc),
            free: FreePages::new(alloc),
            current: None,
        }
    }

    /// Whether the space has an image of the page.
    pub fn has(&self, page: PageNo) -> bool
        ensures { result ≡ map.contains_key self.now.images page }
    {
        self.images.get(page).is_some()
    }
}
