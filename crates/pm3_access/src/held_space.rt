//! A space that is held.
ghost use Rattle.std.specs.Prelude.{ℕ, ◌≡◌, ◌+◌, ◌^◌, ◌<◌, ◌≤◌, true, false, Some, length, slice_get, MatchResult, ◌-◌, max, None, OnOk, OnErr, IfOk, IfErr, MatchOption};
ghost use Rattle.std.specs.Option.{option_copied};
ghost use Rattle.std.specs.FinMap as map;
ghost use Rattle.std.specs.FinSet as set;
ghost use Rattle.pm3_page.specs.Next.{IsNext};
ghost use Rattle.pm3_types.specs.Layout.{PageImage, has_tail, head_of, size_by};
ghost use Rattle.pm3_types.specs.PageForm.{IsSound};
ghost use Rattle.pm3_access.specs.Access.{begins_in, space_written};
ghost use Rattle.pm3_access.specs.Making.{IsMadeOn, space_made, current_in};
ghost use Rattle.pm3_access.specs.Sound.{HasLowPage};
ghost use Rattle.pm3_access.specs.Spots.{IsValueFor};
ghost use Rattle.pm3_access.specs.Holding.{HeldSpaceState, held_space, grown, with_free, undone_space};
ghost use Rattle.pm3_page.specs.PageMap.{IsAtHome};

use crate::free_pages::FreePages;
use crate::held_pages::HeldPages;
use crate::places::{NoPlace, Place};
use crate::spaces::Space;
use pm3_page::{Addr, BASE, Image, PageNo};
use pm3_types::{Catalog, Memory, TypeNo};
use std::alloc::Global;
use std::marker::Model;

/// A space that is held: its pages, and what has changed since it was taken.
#[derive(Debug, Drop)]
pub(crate) struct HeldSpace {
    pub(crate) number: u32,
    pub(crate) pages: HeldPages,
    pub(crate) free: FreePages,
    /// The current page when the space was taken.
    pub(crate) first: Option<PageNo>,
    pub(crate) current: Option<PageNo>,
    pub(crate) drawn: Vec<PageNo>,
}

impl Model for HeldSpace {
    ghost use Rattle.std.specs.Prelude.{◌+◌, ◌≤◌, length};
    ghost use Rattle.pm3_access.specs.Holding.{HeldSpaceState};
    ghost use Rattle.pm3_access.specs.Codes.{held_space_code};

    ghost Value = { HeldSpaceState };

    ghost coded = { held_space_code };

    ghost view = { λ s. record { number = s.number; images = s.pages; free = s.free.pages; room = s.free.room; first = s.first; current = s.current; drawn = s.drawn.items } };

    ghost invariant = { λ s. length s.drawn.items ≤ s.free.kept };
}

impl HeldSpace {
    /// Takes a space as it is.
    pub(crate) fn taken(alloc: Global, space: Space) -> Result<HeldSpace, (Memory, Space)>
        ensures taken { IfOk result (λ held. held ≡ held_space space) }
        ensures home { IsAtHome space.images }
        ensures refused { IfErr result (λ refusal. refusal.1 ≡ space) }
    {
        let Space {
            number,
            images,
            free,
            current,
        } = space;
        match HeldPages::taken(alloc, images) {
            Ok(pages) => Ok(HeldSpace {
                number,
                pages,
                free,
                first: current,
                current,
                drawn: Vec::new(alloc),
            }),
            Err((Memory, images)) => Err((
                Memory,
                Space {
                    number,
                    images,
                    free,
                    current,
                },
            )),
        }
    }

    /// The image of a page of the space as it is now.
    pub(crate) fn get(&self, page: PageNo) -> Option<&Image>
        ensures { option_copied result ≡ map.get self.now.images.left page }
    {
        self.pages.get(page)
    }

    /// Makes the image's page the current one, and room to set it free again.
    pub(crate) fn grow(&mut self, image: Image) -> Result<(), (Memory, Image)>
        requires { map.get self.old.images.left image.page ≡ None }
        ensures grown { OnOk result (self.new ≡ grown self.old image) }
        ensures same { OnErr result (self.new ≡ self.old) }
        ensures refused { IfErr result (λ refusal. refusal.1 ≡ image) }
    {
        let Ok(()) = self.free.keep(self.drawn.len() + 1) else {
            return Err((Memory, image));
        };
        let Ok(()) = self.drawn.reserve(1) else {
            return Err((Memory, image));
        };
        let page = image.page();
        match self.pages.grow(image) {
            Ok(()) => {
                let Ok(()) = self.drawn.push(page) else {
                    unreachable!()
                };
                self.current = Some(page);
                Ok(())
            }
            Err(refusal) => Err(refusal),
        }
    }

    /// Writes the value at a place of the object at `at`, on this page.
    pub(crate) fn write(
        &mut self,
        page: PageNo,
        catalog: &Catalog,
        at: Addr,
        place: Place,
        value: u64,
    ) -> Result<(), NoPlace>
        requires object { begins_in BASE (map.get self.old.images.left page) at ≡ true }
        requires sound { (image : PageImage) → map.get self.old.images.left page ≡ Some image → IsSound catalog.now BASE 16384 image }
        requires value { IsValueFor place value }
        ensures { MatchResult result (λ _. space_written catalog.now BASE self.old page at place value ≡ Some self.new) (λ _. (space_written catalog.now BASE self.old page at place value ≡ None) × (self.new ≡ self.old)) }
    {
        self.pages.write(page, catalog, at, place, value)
    }

    /// Places a new object on the current page, or answers None exactly where it does not fit or there is no such page.
    pub(crate) fn make(
        &mut self,
        catalog: &Catalog,
        ty: TypeNo,
        tail: u32,
        name: u64,
    ) -> Option<Addr>
        requires there { ty < length catalog.now }
        requires named { (0 < name) × (name < 2 ^ 62) }
        requires empty { has_tail (slice_get catalog.now ty) ≡ false → tail ≡ 0 }
        requires small { size_by (slice_get catalog.now ty) tail ≤ 510 }
        ensures made { let size : ℕ = size_by (slice_get catalog.now ty) tail in
            let made : HeldSpaceState = space_made self.old self.old.current (current_in self.old) size (head_of ty tail) name in
            IsMadeOn BASE (current_in self.old) size self.old made result self.new }
        ensures low { HasLowPage (current_in self.old) }
    {
        let Some(page) = self.current else {
            return None;
        };
        self.pages.make(page, catalog, ty, tail, name)
    }

    /// The space as it was taken, with the pages drawn since among the free ones.
    pub(crate) fn undo(self) -> Space
        ensures space { result ≡ undone_space self result.room }
        ensures room { self.room ≤ result.room }
    {
        let HeldSpace {
            number,
            pages,
            mut free,
            first,
            current: _,
            drawn,
        } = self;
        free.release();
        free.add_all(&drawn);
        Space {
            number,
            images: pages.into_found(),
            free,
            current: first,
        }
    }
}
