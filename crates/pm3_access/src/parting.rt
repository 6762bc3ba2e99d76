//! A holding is parted for a commit, and joined, undone or finished.
ghost use Rattle.std.specs.Prelude.{◌≡◌, ◌+◌, ◌<◌, ◌≤◌, ◌-◌, true, max, None, Some, is_some, IsOk, IfOk, OnOk, OnErr, MatchOption};
ghost use Rattle.std.specs.Option.{option_map};
ghost use Rattle.std.specs.FinMap as map;
ghost use Rattle.std.specs.FinSet as set;
ghost use Rattle.pm3_page.specs.Next.{IsNext};
ghost use Rattle.pm3_access.specs.Holding.{IsUndone, by_space, with_free};
ghost use Rattle.pm3_page.specs.PageMap.{IsAtHome};
ghost use Rattle.pm3_access.specs.Parts.{AreWritten, AreUnwritten, images_of_space, KeepsFound, rest_of, rest_with_free, HasRestRoom, RestFreeIs, HasRoomFor, IsFinished};
ghost use Rattle.pm3_access.specs.Parting.{joined, CanRejoin, parted_by_space};

use crate::held::Held;
use crate::held_pages::HeldPages;
use crate::held_space::HeldSpace;
use crate::moving::{put_all, take_written};
use crate::parted::Parted;
use crate::rest::Rest;
use crate::rest_space::RestSpace;
use crate::undone::Undone;
use pm3_page::{PageNo, PageSet, Pages};
use pm3_types::Memory;
use std::alloc::Global;

impl Held {
    /// Parts what is held for a commit: the images of the space, the images of the pages held alone that are not as they were
    /// found, and all else. It takes no memory: the room was made as each page was admitted.
    pub fn part(self) -> Result<Parted, (Memory, Held)>
        ensures joined { IfOk result (λ parted. joined parted ≡ self) }
        ensures rejoin { IfOk result (λ parted. CanRejoin parted) }
        ensures volatile { IfOk result (λ parted. parted.volatile.images ≡ images_of_space self.space) }
        ensures written { IfOk result (λ parted. AreWritten self.pages parted.written.images) }
        ensures others { IfOk result (λ parted. AreUnwritten self.pages parted.rest.pages.images) }
        ensures never_refused { IsOk result }
    {
        let Held {
            alloc,
            pages,
            space,
            mut written,
        } = self;
        let HeldPages { mut left, found } = pages;
        take_written(&mut left, &found, &mut written);
        let (volatile, space) = part_space(alloc, space);
        Ok(Parted {
            volatile,
            written,
            rest: Rest {
                alloc,
                pages: left,
                found,
                space,
            },
        })
    }
}

impl Parted {
    /// Whether a space is held.
    pub fn has_space(&self) -> bool
        ensures { result ≡ is_some self.now.rest.space }
    {
        self.rest.has_space()
    }

    /// Whether a page was held alone when it was found.
    pub fn has_found(&self, page: PageNo) -> bool
        ensures { result ≡ map.contains_key self.now.rest.found page }
    {
        self.rest.has_found(page)
    }

    /// Joins the parts again.
    pub fn rejoin(self) -> Held
        requires { CanRejoin self }
        ensures { result ≡ joined self }
    {
        let Parted {
            volatile,
            written,
            rest,
        } = self;
        let Rest {
            alloc,
            pages,
            found,
            space,
        } = rest;
        let (left, written) = put_all(pages, written);
        Held {
            alloc,
            pages: HeldPages { left, found },
            written,
            space: match space {
                Some(space) => Some(space.rejoin(volatile)),
                None => None,
            },
        }
    }

    /// Makes room for so many further free pages.
    pub fn reserve_free(&mut self, more: u32) -> Result<(), Memory>
        requires { is_some self.old.rest.space ≡ true }
        ensures room { OnOk result (self.new ≡ parted_by_space (λ s. rest_with_free s s.free (max s.room more)) self.old) }
        ensures enough { OnOk result (HasRoomFor self.new.rest.space more) }
        ensures joined { OnOk result (joined self.new ≡ by_space (λ s. with_free s s.free (max s.room more)) (joined self.old)) }
        ensures rejoin { CanRejoin self.old → CanRejoin self.new }
        ensures refused { OnErr result (self.new ≡ self.old) }
    {
        let Some(space) = &mut self.rest.space else {
            unreachable!()
        };
        space.free.reserve(more)
    }

    /// Adds a page to the free ones, in the room that was made.
    pub fn add_free(&mut self, page: PageNo)
        requires { HasRestRoom self.old.rest.space }
        ensures added { self.new ≡ parted_by_space (λ s. rest_with_free s (set.insert s.free page) (s.room - 1)) self.old }
        ensures joined { joined self.new ≡ by_space (λ s. with_free s (set.insert s.free page) (s.room - 1)) (joined self.old) }
        ensures rejoin { CanRejoin self.old → CanRejoin self.new }
    {
        let Some(space) = &mut self.rest.space else {
            unreachable!()
        };
        space.free.add(page);
    }

    /// The least free page from a number on, or None exactly where there is none.
    pub fn next_free(&self, start: PageNo) -> Option<PageNo>
        requires { is_some self.now.rest.space ≡ true }
        ensures { RestFreeIs self.now.rest.space (λ free. IsNext (set.contains free) start result) }
    {
        let Some(space) = &self.rest.space else {
            unreachable!()
        };
        space.free.next(start)
    }

    /// Takes the least free page out, or answers None exactly where there is none.
    pub fn least_free(&mut self) -> Option<PageNo>
        requires { is_some self.old.rest.space ≡ true }
        ensures least { RestFreeIs self.old.rest.space (λ free. IsNext (set.contains free) 0 result) }
        ensures taken { MatchOption result (self.new ≡ self.old) (λ page. self.new ≡ parted_by_space (λ s. rest_with_free s (set.remove s.free page) (s.room + 1)) self.old) }
        ensures joined { MatchOption result (joined self.new ≡ joined self.old) (λ page. joined self.new ≡ by_space (λ s. with_free s (set.remove s.free page) (s.room + 1)) (joined self.old)) }
        ensures rejoin { CanRejoin self.old → CanRejoin self.new }
    {
        let Some(space) = &mut self.rest.space else {
            unreachable!()
        };
        space.free.take_least()
    }

    /// Gives the pages and the space back as they were taken, except that the pages drawn since are free. It takes no memory.
    pub fn undo(self) -> Undone
        ensures pages { result.pages.images ≡ self.rest.found }
        ensures written { result.written.images ≡ map.empty }
        ensures space { IsUndone (joined self).space result.space }
    {
        let Parted {
            volatile: _,
            written: _,
            rest,
        } = self;
        let Rest {
            alloc,
            pages: _,
            found,
            space,
        } = rest;
        Undone {
            pages: found,
            written: Pages::new(alloc),
            space: match space {
                Some(space) => Some(space.undo()),
                None => None,
            },
        }
    }

    /// Gives the pages and the space back as they are now. The space has no current page, and free are the pages that were and have no
    /// image now, and those of `freed`. It takes no memory.
    pub fn finish(self, freed: &PageSet) -> Undone
        requires home { IsAtHome self.volatile.images }
        requires room { HasRoomFor self.rest.space (set.len freed.now) }
        ensures pages { result.pages.images ≡ self.rest.pages.images }
        ensures written { result.written.images ≡ self.written.images }
        ensures space { IsFinished self.rest.space self.volatile.images self.written.images freed.now result.space }
    {
        let Parted {
            volatile,
            written,
            rest,
        } = self;
        let Rest {
            alloc: _,
            pages,
            found: _,
            space,
        } = rest;
        let space = match space {
            Some(space) => Some(space.finish(volatile, &written, freed)),
            None => None,
        };
        Undone {
            pages,
            written,
            space,
        }
    }
}

/// Moves the images out of a held space.
fn part_space(alloc: Global, space: Option<HeldSpace>) -> (Pages, Option<RestSpace>)
    ensures volatile { result.0.images ≡ images_of_space space }
    ensures rest { result.1 ≡ option_map rest_of space }
    ensures home { IsAtHome result.0.images }
    ensures kept { KeepsFound result.1 result.0.images }
{
    match space {
        Some(space) => {
            let (volatile, rest) = RestSpace::of(space);
            (volatile, Some(rest))
        }
        None => (Pages::new(alloc), None),
    }
}
