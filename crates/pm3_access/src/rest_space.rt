//! What stays of a held space whose images were moved out.
ghost use Rattle.std.specs.Prelude.{◌≡◌, ◌<◌, ◌≤◌, ◌-◌, max, None, Some, OnOk, OnErr, MatchOption};
ghost use Rattle.std.specs.FinSet as set;
ghost use Rattle.pm3_access.specs.Holding.{AreHeld, undone_space};
ghost use Rattle.pm3_page.specs.PageMap.{IsAtHome};
ghost use Rattle.pm3_access.specs.Parts.{KeepsFound, rest_of, with_images, IsFinishedSpace};

use crate::free_pages::FreePages;
use crate::held_pages::HeldPages;
use crate::held_space::HeldSpace;
use crate::spaces::Space;
use pm3_page::{PageNo, PageSet, Pages};
use std::marker::Model;

/// A held space whose images, as they are now, were moved out.
#[derive(Debug, Drop)]
pub(crate) struct RestSpace {
    pub(crate) number: u32,
    pub(crate) found: Pages,
    pub(crate) free: FreePages,
    pub(crate) first: Option<PageNo>,
    pub(crate) current: Option<PageNo>,
    pub(crate) drawn: Vec<PageNo>,
}

impl Model for RestSpace {
    ghost use Rattle.std.specs.Prelude.{◌≤◌, length};
    ghost use Rattle.pm3_access.specs.Parts.{SpaceRest};
    ghost use Rattle.pm3_access.specs.Codes.{space_rest_code};
    ghost use Rattle.pm3_page.specs.PageMap.{IsAtHome};

    ghost Value = { SpaceRest };

    ghost coded = { space_rest_code };

    ghost view = { λ s. record { number = s.number; found = s.found.images; free = s.free.pages; room = s.free.room; first = s.first; current = s.current; drawn = s.drawn.items } };

    ghost invariant = { λ s. IsAtHome s.found.images × (length s.drawn.items ≤ s.free.kept) };
}

impl RestSpace {
    /// Moves the images out of a held space.
    pub(crate) fn of(space: HeldSpace) -> (Pages, RestSpace)
        ensures volatile { result.0.images ≡ space.images.left }
        ensures rest { result.1 ≡ rest_of space }
        ensures held { AreHeld space.images.left space.images.found }
    {
        let HeldSpace {
            number,
            pages,
            free,
            first,
            current,
            drawn,
        } = space;
        let HeldPages { left, found } = pages;
        let rest = RestSpace {
            number,
            found,
            free,
            first,
            current,
            drawn,
        };
        (left, rest)
    }

    /// The held space with these images.
    pub(crate) fn rejoin(self, volatile: Pages) -> HeldSpace
        requires home { IsAtHome volatile.images }
        requires kept { KeepsFound (Some self) volatile.images }
        ensures { result ≡ with_images volatile.images self }
    {
        let RestSpace {
            number,
            found,
            free,
            first,
            current,
            drawn,
        } = self;
        HeldSpace {
            number,
            pages: HeldPages {
                left: volatile,
                found,
            },
            free,
            first,
            current,
            drawn,
        }
    }

    /// The space as it was taken, with the pages drawn since among the free ones.
    pub(crate) fn undo(self) -> Space
        ensures space { result ≡ undone_space (with_images self.found self) result.room }
        ensures room { self.room ≤ result.room }
    {
        let RestSpace {
            number,
            found,
            mut free,
            first,
            drawn,
            ..
        } = self;
        free.release();
        free.add_all(&drawn);
        Space {
            number,
            images: found,
            free,
            current: first,
        }
    }

    /// The space with these images and without a current page. Free are the pages that were and have no image among these and the
    /// written ones, and the pages of `freed`.
    pub(crate) fn finish(self, volatile: Pages, written: &Pages, freed: &PageSet) -> Space
        requires home { IsAtHome volatile.images }
        requires room { set.len freed.now ≤ self.room }
        ensures { IsFinishedSpace self volatile.images written.now.images freed.now result }
    {
        let RestSpace {
            number,
            mut free,
            current: _,
            ..
        } = self;
        free.take_filled(&volatile, written);
        free.release();
        free.add_set(freed);
        Space {
            number,
            images: volatile,
            free,
            current: None,
        }
    }
}
