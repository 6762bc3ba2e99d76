//! What one transaction holds.
ghost use Rattle.std.specs.Prelude.{◌≡◌, ℕ, Bool, ◌<◌, ◌≤◌, ◌-◌, ◌+◌, ◌^◌, max, true, false, None, Some, length, slice_get, List, MatchResult, is_some, IfErr, IfSome, OnOk, OnErr, MatchOption};
ghost use Rattle.std.specs.Option.{option_copied};
ghost use Rattle.std.specs.FinMap as map;
ghost use Rattle.std.specs.FinSet as set;
ghost use Rattle.pm3_page.specs.Next.{IsNext};
ghost use Rattle.pm3_types.specs.Fields.{Fields};
ghost use Rattle.pm3_types.specs.Layout.{blank_sheet, has_tail, size_by};
ghost use Rattle.pm3_access.specs.Access.{is_object_held, AreSound, HaveForm, ImageHasForm, value_held, value_written};
ghost use Rattle.pm3_access.specs.Acts.{HaveGrown, IsReadStep, IsWriteStep, IsMakeStep, image_part, space_part};
ghost use Rattle.pm3_access.specs.Making.{IsMade};
ghost use Rattle.pm3_access.specs.Sound.{ImagesHaveForm, IsReferenceFor};
ghost use Rattle.pm3_access.specs.Spots.{IsValueFor};
ghost use Rattle.pm3_access.specs.Holding.{Holding, HeldSpaceState, nothing_held, image_in, with_admitted, admitted, with_held_space, HasRoom, FreeIs, IsUndone, by_space, grown, with_free};

use crate::held_pages::HeldPages;
use crate::held_space::HeldSpace;
use crate::objects::read_place;
use crate::places::{NoPlace, Place};
use crate::spaces::Space;
use crate::undone::Undone;
use pm3_page::{Addr, BASE, Image, PageNo, Pages, page_of};
use pm3_types::{Catalog, Memory, TypeNo};
use std::alloc::Global;
use std::marker::Model;

/// What one transaction holds: pages, each alone, and a space or none, as they were taken and as they are now.
#[derive(Debug, Drop)]
pub struct Held {
    pub(crate) alloc: Global,
    pub(crate) pages: HeldPages,
    pub(crate) space: Option<HeldSpace>,
    /// No images, and room for those of all pages held alone, so that to part them takes no memory.
    pub(crate) written: Pages,
}

impl Model for Held {
    ghost use Rattle.pm3_access.specs.Acts.{AreInPlace};
    ghost use Rattle.pm3_access.specs.Parts.{HaveRoomFor};
    ghost use Rattle.pm3_access.specs.Holding.{Holding, AreFound};
    ghost use Rattle.pm3_access.specs.Codes.{holding_code};

    ghost Value = { Holding };

    ghost coded = { holding_code };

    ghost view = { λ h. record { pages = h.pages; space = h.space } };

    ghost invariant = { λ h. AreFound h.pages.left h.pages.found × AreInPlace (record { pages = h.pages; space = h.space }) × HaveRoomFor h.pages.left h.written };
}

impl Held {
    /// Holds nothing. It keeps `alloc` and takes memory as pages are admitted.
    pub fn new(alloc: Global) -> Held
        ensures nothing { result ≡ nothing_held }
        ensures form { (catalog : List Fields) (refers : ℕ → Bool) → HaveForm catalog refers result }
    {
        Held {
            alloc,
            pages: HeldPages::new(alloc),
            space: None,
            written: Pages::new(alloc),
        }
    }

    /// Holds a page as it is, and keeps a copy of its image. After a refusal all is as it was, and the image is given back.
    pub fn admit(&mut self, image: Image) -> Result<(), (Memory, Image)>
        requires { image_in self.old image.page ≡ None }
        ensures admitted { OnOk result (self.new ≡ admitted self.old image) }
        ensures same { OnErr result (self.new ≡ self.old) }
        ensures form { (catalog : List Fields) (refers : ℕ → Bool) → HaveForm catalog refers self.old → ImageHasForm catalog refers image → HaveForm catalog refers self.new }
        ensures parts { OnOk result ((catalog : List Fields) → HaveGrown catalog BASE self.old self.new (λ book. image_part catalog BASE book image)) }
        ensures refused { IfErr result (λ refusal. refusal.1 ≡ image) }
    {
        let Ok(()) = self.written.reserve(self.pages.len() + 1) else {
            return Err((Memory, image));
        };
        self.pages.admit(image)
    }

    /// Holds a space as it is, and keeps copies of its images. After a refusal all is as it was, and the space is given back.
    pub fn admit_space(&mut self, space: Space) -> Result<(), (Memory, Space)>
        requires none { self.old.space ≡ None }
        requires absent { (page : ℕ) → map.contains_key space.images page ≡ true → image_in self.old page ≡ None }
        ensures admitted { OnOk result (self.new ≡ with_held_space self.old space) }
        ensures same { OnErr result (self.new ≡ self.old) }
        ensures form { (catalog : List Fields) (refers : ℕ → Bool) → HaveForm catalog refers self.old → ImagesHaveForm catalog refers space.images → HaveForm catalog refers self.new }
        ensures parts { OnOk result ((catalog : List Fields) → HaveGrown catalog BASE self.old self.new (λ book. space_part catalog BASE book space)) }
        ensures refused { IfErr result (λ refusal. refusal.1 ≡ space) }
    {
        match HeldSpace::taken(self.alloc, space) {
            Ok(held) => {
                self.space = Some(held);
                Ok(())
            }
            Err(refusal) => Err(refusal),
        }
    }

    /// Whether a page is held alone.
    pub fn has(&self, page: PageNo) -> bool
        ensures { result ≡ map.contains_key self.now.pages.left page }
    {
        self.pages.has(page)
    }

    /// Whether a space is held.
    pub fn has_space(&self) -> bool
        ensures { result ≡ is_some self.now.space }
    {
        self.space.is_some()
    }

    /// The image, as it is now, of a page that is held alone or is one of the held space. None exactly where there is none.
    pub fn image(&self, page: PageNo) -> Option<&Image>
        ensures { option_copied result ≡ image_in self.now page }
    {
        match self.pages.get(page) {
            Some(image) => Some(image),
            None => match &self.space {
                Some(space) => space.get(page),
                None => None,
            },
        }
    }

    /// Draws the blank image's page into the space and makes it the one that objects are placed on. It keeps room among the free pages
    /// for it. After a refusal all is as it was, and the image is given back.
    pub fn grow(&mut self, image: Image) -> Result<(), (Memory, Image)>
        requires space { is_some self.old.space ≡ true }
        requires blank { image.sheet ≡ blank_sheet }
        requires absent { image_in self.old image.page ≡ None }
        ensures grown { OnOk result (self.new ≡ by_space (λ s. grown s image) self.old) }
        ensures same { OnErr result (self.new ≡ self.old) }
        ensures form { (catalog : List Fields) (refers : ℕ → Bool) → 3 ≤ image.page → HaveForm catalog refers self.old → HaveForm catalog refers self.new }
        ensures refused { IfErr result (λ refusal. refusal.1 ≡ image) }
    {
        let Some(space) = &mut self.space else {
            unreachable!()
        };
        space.grow(image)
    }

    /// Makes room for so many further free pages.
    pub fn reserve_free(&mut self, more: u32) -> Result<(), Memory>
        requires { is_some self.old.space ≡ true }
        ensures room { OnOk result (self.new ≡ by_space (λ s. with_free s s.free (max s.room more)) self.old) }
        ensures refused { OnErr result (self.new ≡ self.old) }
        ensures form { (catalog : List Fields) (refers : ℕ → Bool) → HaveForm catalog refers self.old → HaveForm catalog refers self.new }
    {
        let Some(space) = &mut self.space else {
            unreachable!()
        };
        space.free.reserve(more)
    }

    /// Adds a page to the free ones, in the room that was made.
    pub fn add_free(&mut self, page: PageNo)
        requires { HasRoom self.old.space }
        ensures added { self.new ≡ by_space (λ s. with_free s (set.insert s.free page) (s.room - 1)) self.old }
        ensures form { (catalog : List Fields) (refers : ℕ → Bool) → HaveForm catalog refers self.old → HaveForm catalog refers self.new }
    {
        let Some(space) = &mut self.space else {
            unreachable!()
        };
        space.free.add(page);
    }

    /// Takes the least free page out, or answers None exactly where there is none.
    pub fn least_free(&mut self) -> Option<PageNo>
        requires { is_some self.old.space ≡ true }
        ensures least { FreeIs self.old.space (λ free. IsNext (set.contains free) 0 result) }
        ensures taken { MatchOption result (self.new ≡ self.old) (λ page. self.new ≡ by_space (λ s. with_free s (set.remove s.free page) (s.room + 1)) self.old) }
        ensures form { (catalog : List Fields) (refers : ℕ → Bool) → HaveForm catalog refers self.old → HaveForm catalog refers self.new }
    {
        let Some(space) = &mut self.space else {
            unreachable!()
        };
        space.free.take_least()
    }

    /// The value at a place of the object at `at`, or NoPlace exactly where the object has no such place.
    pub fn read(&self, catalog: &Catalog, at: Addr, place: Place) -> Result<u64, NoPlace>
        requires object { is_object_held BASE self.now at ≡ true }
        requires sound { AreSound catalog.now BASE 16384 self.now }
        ensures value { MatchResult result (λ value. value_held catalog.now BASE self.now at place ≡ Some value) (λ _. value_held catalog.now BASE self.now at place ≡ None) }
        ensures step { MatchResult result (λ value. IsReadStep catalog.now BASE self.now at place (Some value)) (λ _. IsReadStep catalog.now BASE self.now at place None) }
    {
        let Some(image) = self.image(page_of(at)) else {
            unreachable!()
        };
        read_place(image, catalog, at, place)
    }

    /// Writes the value at a place of the object at `at`, or answers NoPlace exactly where the object has no such place. All else is
    /// as it was.
    pub fn write(
        &mut self,
        catalog: &Catalog,
        at: Addr,
        place: Place,
        value: u64,
    ) -> Result<(), NoPlace>
        requires object { is_object_held BASE self.old at ≡ true }
        requires sound { AreSound catalog.now BASE 16384 self.old }
        requires value { IsValueFor place value }
        ensures written { MatchResult result (λ _. value_written catalog.now BASE self.old at place value ≡ Some self.new) (λ _. (value_written catalog.now BASE self.old at place value ≡ None) × (self.new ≡ self.old)) }
        ensures step { MatchResult result (λ _. IsWriteStep catalog.now BASE self.old at place value (Some self.new)) (λ _. IsWriteStep catalog.now BASE self.old at place value None) }
        ensures form { (refers : ℕ → Bool) → HaveForm catalog.now refers self.old → IsReferenceFor catalog.now BASE refers self.old at place value → HaveForm catalog.now refers self.new }
    {
        let page = page_of(at);
        if self.pages.has(page) {
            return self.pages.write(page, catalog, at, place, value);
        }
        let Some(space) = &mut self.space else {
            unreachable!()
        };
        space.write(page, catalog, at, place, value)
    }

    /// Places a new object on the current page of the space, with 0 in all its places, and answers its address. None exactly where it
    /// does not fit there or there is no current page.
    pub fn make(&mut self, catalog: &Catalog, ty: TypeNo, tail: u32, name: u64) -> Option<Addr>
        requires there { ty < length catalog.now }
        requires named { (0 < name) × (name < 2 ^ 62) }
        requires empty { has_tail (slice_get catalog.now ty) ≡ false → tail ≡ 0 }
        requires small { size_by (slice_get catalog.now ty) tail ≤ 510 }
        ensures made { IsMade BASE catalog.now self.old ty tail name result self.new }
        ensures step { IfSome result (λ at. IsMakeStep catalog.now BASE self.old ty tail name at self.new) }
        ensures form { (refers : ℕ → Bool) → refers 0 ≡ true → HaveForm catalog.now refers self.old → HaveForm catalog.now refers self.new }
        ensures sound { (pages : ℕ) → AreSound catalog.now BASE pages self.old → AreSound catalog.now BASE pages self.new }
    {
        let Some(space) = &mut self.space else {
            return None;
        };
        space.make(catalog, ty, tail, name)
    }

    /// Gives the pages and the space back as they were taken, except that the pages drawn since are free. It takes no memory.
    pub fn undo(self) -> Undone
        ensures pages { result.pages.images ≡ self.pages.found }
        ensures written { result.written.images ≡ map.empty }
        ensures space { IsUndone self.space result.space }
    {
        let Held {
            alloc: _,
            pages,
            space,
            written,
        } = self;
        Undone {
            pages: pages.into_found(),
            written,
            space: match space {
                Some(space) => Some(space.undo()),
                None => None,
            },
        }
    }
}
