//! The plan of a pass.
ghost use Rattle.std.specs.Prelude.{◌≡◌};
ghost use Rattle.std.specs.FinSet as set;

use crate::index::Index;
use crate::leaving::Leaving;
use pm3_page::{PageNo, PageSet};
use std::marker::Model;

/// The plan of a pass, as `plan` makes it: how many pages it wants, and how many objects move.
#[derive(Debug, Drop)]
pub struct Plan {
    /// The number of fresh pages that the objects that turn persistent want.
    pub persistent: u32,
    /// The number of fresh pages that the objects that stay in the space want.
    pub volatile: u32,
    /// The number of pinned pages.
    pub pins: u32,
    /// The number of objects that move.
    pub moved: u32,
    pub(crate) promoted: Leaving,
    pub(crate) kept: Leaving,
    pub(crate) index: Index,
    pub(crate) turned: PageSet,
    pub(crate) freed: PageSet,
}

impl Model for Plan {
    ghost use Rattle.pm3_core.specs.declared.naming.TheConstants.{BASE};
    ghost use Rattle.pm3_copy.specs.Blocks.{AreBothNumbered};
    ghost use Rattle.pm3_copy.specs.Planning.{PlanState, plan_code};

    ghost Value = { PlanState };

    ghost coded = { plan_code };

    ghost view = { λ p. record {
      persistent = p.persistent;
      volatile = p.volatile;
      pins = p.pins;
      moved = p.moved;
      promoted = p.promoted;
      kept = p.kept;
      turned = p.turned;
      freed = p.freed;
    } };

    ghost invariant = { λ p. AreBothNumbered BASE p.index.blocks.by_page.items p.index.numbers.items p.promoted p.kept };
}

impl Plan {
    /// Whether a page turns persistent where it is.
    pub fn turns(&self, page: PageNo) -> bool
        ensures { result ≡ set.contains self.now.turned page }
    {
        self.turned.has(page)
    }

    /// How many pages the space gives up.
    pub fn freed_count(&self) -> u32
        ensures { result ≡ set.len self.now.freed }
    {
        self.freed.len()
    }
}
