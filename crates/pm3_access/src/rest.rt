//! What stays of a holding that was parted.
ghost use Rattle.std.specs.Prelude.{◌≡◌, is_some};
ghost use Rattle.std.specs.FinMap as map;

use crate::rest_space::RestSpace;
use pm3_page::{PageNo, Pages};
use std::alloc::Global;
use std::marker::Model;

/// What stays of a holding when the images of its space and the written images are moved out.
#[derive(Debug, Drop)]
pub struct Rest {
    pub(crate) alloc: Global,
    /// The pages held alone that were not written.
    pub(crate) pages: Pages,
    /// The images found of all pages held alone.
    pub(crate) found: Pages,
    pub(crate) space: Option<RestSpace>,
}

impl Model for Rest {
    ghost use Rattle.pm3_access.specs.Parts.{RestState};
    ghost use Rattle.pm3_access.specs.Codes.{rest_code};
    ghost use Rattle.pm3_access.specs.Holding.{AreFound};
    ghost use Rattle.pm3_page.specs.PageMap.{IsAtHome};

    ghost Value = { RestState };

    ghost coded = { rest_code };

    ghost view = { λ r. record { pages = r.pages; found = r.found.images; space = r.space } };

    ghost invariant = { λ r. IsAtHome r.pages.images × IsAtHome r.found.images × AreFound r.pages.images r.found.images };
}

impl Rest {
    /// Whether a space is held.
    pub(crate) fn has_space(&self) -> bool
        ensures { result ≡ is_some self.now.space }
    {
        self.space.is_some()
    }

    /// Whether a page was held alone when it was found.
    pub(crate) fn has_found(&self, page: PageNo) -> bool
        ensures { result ≡ map.contains_key self.now.found page }
    {
        self.found.get(page).is_some()
    }
}
