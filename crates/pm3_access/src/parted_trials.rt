//! The parts of a holding under trial.
ghost use Rattle.std.specs.Prelude.{◌≡◌, true};

use super::*;
use crate::trial_ends::shows;
use crate::trials::Trial;
use pm3_page::{PageNo, PageSet};
use pm3_types::Catalog;
use std::alloc::Global;
use std::marker::Model;
use std::test::Fail;

/// What is held, parted for a commit, and the types of its objects.
#[derive(Drop)]
pub(crate) struct PartedTrial {
    pub(crate) alloc: Global,
    pub(crate) catalog: Catalog,
    pub(crate) parted: Parted,
    /// Whether all that is held is known to have the form of pages.
    pub(crate) is_sound: bool,
}

impl Model for PartedTrial {
    ghost use Rattle.std.specs.Prelude.{◌≡◌, true};
    ghost use Rattle.pm3_core.specs.declared.naming.TheConstants.{BASE};
    ghost use Rattle.pm3_access.specs.Access.{AreSound};
    ghost use Rattle.pm3_access.specs.Parting.{CanRejoin, joined};

    ghost Value = { Unit {0} };

    ghost view = { λ _. tt };

    ghost invariant = { λ t. CanRejoin t.parted × (t.is_sound ≡ true → AreSound t.catalog BASE 16384 (joined t.parted)) };
}

impl PartedTrial {
    /// Whether the space has page 3, and page 4 was written, and its object has this first field, or no page was written.
    fn is_parted(&self, field: Option<u64>) -> bool {
        self.parted.volatile.get(3).is_some() && shows(&self.parted.written, field)
    }

    /// The same, and the parts are joined again.
    pub(crate) fn joined(self, field: Option<u64>) -> Result<Trial, Fail> {
        if !self.is_parted(field) {
            return Err(Fail::from("it is parted otherwise"));
        }
        Ok(self.rejoin())
    }

    /// Joins the parts again.
    fn rejoin(self) -> Trial {
        let PartedTrial {
            alloc,
            catalog,
            parted,
            is_sound,
        } = self;
        let held = parted.rejoin();
        Trial {
            alloc,
            catalog,
            held,
            is_sound,
        }
    }

    /// Gives all back as it was taken.
    pub(crate) fn undo(self) -> Undone {
        let PartedTrial { parted, .. } = self;
        parted.undo()
    }

    /// Finishes a commit with these pages set free.
    pub(crate) fn finish(self, freed: &PageSet) -> Result<Undone, Fail> {
        let PartedTrial { mut parted, .. } = self;
        if !parted.has_space() || parted.reserve_free(freed.len()).is_err() {
            return Err(Fail::from("there is no space or no memory"));
        }
        Ok(parted.finish(freed))
    }
}

/// One page alone.
pub(crate) fn only(alloc: Global, page: PageNo) -> Result<PageSet, Fail> {
    if page >= 16384 {
        return Err(Fail::from("no such page"));
    }
    let mut pages = PageSet::new(alloc);
    pages.add(page)?;
    Ok(pages)
}
