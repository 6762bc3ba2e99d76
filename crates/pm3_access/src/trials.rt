//! A holding under trial: each call on a holding, and on the parts of one, stands here once, behind a test of its conditions.
ghost use Rattle.std.specs.Prelude.{◌≡◌, ◌≤◌, ℕ, List, true, IfOk};
ghost use Rattle.std.specs.FinMap as map;
ghost use Rattle.pm3_core.specs.declared.naming.TheConstants.{BASE};
ghost use Rattle.pm3_types.specs.Fields.{Fields};
ghost use Rattle.pm3_types.specs.Layout.{blank_sheet};
ghost use Rattle.pm3_types.specs.PageForm.{IsSound, is_memory_reference};
ghost use Rattle.pm3_access.specs.Access.{is_object_held};
ghost use Rattle.pm3_access.specs.Holding.{Holding};
ghost use Rattle.pm3_access.specs.Sound.{IsSoundValue};
ghost use Rattle.pm3_access.specs.Spots.{IsValueFor};

use super::*;
use crate::parted_trials::PartedTrial;
use crate::trial_types::{is_small, two_types};
use pm3_page::{Addr, BASE, Image, PageNo};
use pm3_types::{Catalog, Tail, TypeNo};
use std::alloc::Global;
use std::marker::Model;
use std::test::Fail;

/// What is held, and the types of its objects.
#[derive(Drop)]
pub(crate) struct Trial {
    pub(crate) alloc: Global,
    pub(crate) catalog: Catalog,
    pub(crate) held: Held,
    /// Whether all that is held is known to have the form of pages, so that places of objects may be read and written.
    pub(crate) is_sound: bool,
}

impl Model for Trial {
    ghost use Rattle.std.specs.Prelude.{◌≡◌, true};
    ghost use Rattle.pm3_core.specs.declared.naming.TheConstants.{BASE};
    ghost use Rattle.pm3_access.specs.Access.{AreSound};

    ghost Value = { Unit {0} };

    ghost view = { λ _. tt };

    ghost invariant = { λ t. t.is_sound ≡ true → AreSound t.catalog BASE 16384 t.held };
}

impl Trial {
    /// Holds nothing.
    pub(crate) fn empty(alloc: Global) -> Result<Trial, Fail> {
        let catalog = two_types(alloc)?;
        Ok(Trial {
            alloc,
            catalog,
            held: Held::new(alloc),
            is_sound: true,
        })
    }

    /// Holds a space alone. One that isn't new may have any images.
    fn over(alloc: Global, space: Space, is_new: bool) -> Result<Trial, Fail>
        requires { is_new ≡ true → space.images ≡ map.empty }
    {
        let catalog = two_types(alloc)?;
        let mut held = Held::new(alloc);
        if held.admit_space(space).is_err() {
            return Err(Fail::from("no memory"));
        }
        Ok(Trial {
            alloc,
            catalog,
            held,
            is_sound: is_new,
        })
    }

    /// Holds a new space alone.
    pub(crate) fn over_new(alloc: Global, number: u32) -> Result<Trial, Fail> {
        Trial::over(alloc, Space::new(alloc, number), true)
    }

    /// Holds a space alone that was given back.
    pub(crate) fn again(alloc: Global, space: Space) -> Result<Trial, Fail> {
        Trial::over(alloc, space, false)
    }

    /// Holds a page of a file alone.
    pub(crate) fn admit(&mut self, page: PageNo, bytes: &[u8; 4096]) -> Result<(), Fail> {
        let image = read_page(self.alloc, &self.catalog, page, bytes)?;
        if self.held.image(page).is_some() {
            return Err(Fail::from("the page is held"));
        }
        if self.held.admit(image).is_err() {
            return Err(Fail::from("no memory"));
        }
        Ok(())
    }

    /// Draws a blank page.
    pub(crate) fn grow(&mut self, page: PageNo) -> Result<(), Fail> {
        let image = blank_page(self.alloc, page)?;
        if !self.held.has_space() || self.held.image(page).is_some() {
            return Err(Fail::from("the page can't be drawn"));
        }
        if self.held.grow(image).is_err() {
            return Err(Fail::from("no memory"));
        }
        Ok(())
    }

    /// Adds a page to the free ones.
    pub(crate) fn add_free(&mut self, page: PageNo) -> Result<(), Fail> {
        if !self.held.has_space() {
            return Err(Fail::from("no space is held"));
        }
        if self.held.reserve_free(1).is_err() {
            return Err(Fail::from("no memory"));
        }
        self.held.add_free(page);
        Ok(())
    }

    /// Takes the least free page out.
    pub(crate) fn least_free(&mut self) -> Result<Option<PageNo>, Fail> {
        if !self.held.has_space() {
            return Err(Fail::from("no space is held"));
        }
        Ok(self.held.least_free())
    }

    /// Makes an object with a tail, or answers None where it doesn't fit on the page that objects are placed on.
    pub(crate) fn make(&mut self, ty: TypeNo, tail: u32, name: u64) -> Result<Option<Addr>, Fail> {
        let Some(map) = self.catalog.get(ty) else {
            return Err(Fail::from("no such type"));
        };
        if map.tail == Tail::Empty || !is_small(map, tail) || name == 0 || name > 1000 {
            return Err(Fail::from("no such object"));
        }
        let catalog = &self.catalog;
        Ok(self.held.make(catalog, ty, tail, name))
    }

    /// What a read answers, or None where there is no such place.
    pub(crate) fn read(&self, at: Addr, place: Place) -> Result<Option<u64>, Fail> {
        if !self.is_sound || !is_held(&self.held, at) {
            return Err(Fail::from("no object is held"));
        }
        match self.held.read(&self.catalog, at, place) {
            Ok(value) => Ok(Some(value)),
            Err(NoPlace) => Ok(None),
        }
    }

    /// Whether a write is done. It isn't where there is no such place.
    pub(crate) fn write(&mut self, at: Addr, place: Place, value: u64) -> Result<bool, Fail> {
        if !self.is_sound || !is_held(&self.held, at) {
            return Err(Fail::from("no object is held"));
        }
        if !may_stand(place, value) {
            return Err(Fail::from("no such value"));
        }
        let catalog = &self.catalog;
        match self.held.write(catalog, at, place, value) {
            Ok(()) => Ok(true),
            Err(NoPlace) => Ok(false),
        }
    }

    /// The address in a root slot.
    pub(crate) fn root(&self, slot: u32) -> Result<Addr, Fail> {
        if slot >= 16 || !self.held.has(2) {
            return Err(Fail::from("no such slot"));
        }
        Ok(self.held.root(slot))
    }

    /// Writes an address into a root slot.
    pub(crate) fn set_root(&mut self, slot: u32, at: Addr) -> Result<(), Fail> {
        if slot >= 16 || !self.held.has(2) || !may_refer(at) {
            return Err(Fail::from("no such slot or address"));
        }
        self.held.set_root(slot, at);
        Ok(())
    }

    /// Whether a page is held alone.
    pub(crate) fn has(&self, page: PageNo) -> bool {
        self.held.has(page)
    }

    /// Whether a space is held.
    pub(crate) fn has_space(&self) -> bool {
        self.held.has_space()
    }

    /// Gives all back as it was taken.
    pub(crate) fn undo(self) -> Undone {
        let Trial { held, .. } = self;
        held.undo()
    }

    /// Parts what is held for a commit.
    pub(crate) fn part(self) -> Result<PartedTrial, Fail> {
        let Trial {
            alloc,
            catalog,
            held,
            is_sound,
        } = self;
        match held.part() {
            Ok(parted) => Ok(PartedTrial {
                alloc,
                catalog,
                parted,
                is_sound,
            }),
            Err(_) => Err(Fail::from("no memory")),
        }
    }
}

/// A page as it stands in a file.
fn read_page(
    alloc: Global,
    catalog: &Catalog,
    page: PageNo,
    bytes: &[u8; 4096],
) -> Result<Image, Fail>
    ensures page { IfOk result (λ image. image.page ≡ page) }
    ensures sound { IfOk result (λ image. IsSound catalog.now BASE 16384 image) }
{
    if page < 2 || page >= 16384 {
        return Err(Fail::from("no such page"));
    }
    match Image::from_file(alloc, page, 16384, catalog, bytes) {
        Ok(image) => Ok(image),
        Err(_) => Err(Fail::from("the page is damaged")),
    }
}

/// A page without objects.
fn blank_page(alloc: Global, page: PageNo) -> Result<Image, Fail>
    ensures page { IfOk result (λ image. image.page ≡ page) }
    ensures low { IfOk result (λ image. 3 ≤ image.page) }
    ensures blank { IfOk result (λ image. image.sheet ≡ blank_sheet) }
{
    if page < 3 || page >= 16384 {
        return Err(Fail::from("no such page"));
    }
    Ok(Image::blank(alloc, page)?)
}

/// The page of an address, or another one.
fn page_near(at: Addr) -> PageNo {
    (at.saturating_sub(BASE) / 4096 % 16384) as PageNo
}

/// Whether an object is held at the address.
fn is_held(held: &Held, at: Addr) -> bool
    ensures { result ≡ true → is_object_held BASE held.now at ≡ true }
{
    let page = page_near(at);
    match held.image(page) {
        Some(image) => image.page() == page && image.is_object(at),
        None => false,
    }
}

/// Whether a word may stand in the place of a reference: nil, or the address of a word of page 3.
#[tactic(auto, unfolding(pm3_types::specs::PageForm::is_memory_reference, pm3_types::specs::Layout::is_address, pm3_types::specs::Layout::page_in, pm3_types::specs::Layout::word_in))]
fn may_refer(word: u64) -> bool
    ensures { result ≡ true → is_memory_reference BASE 16384 word ≡ true }
{
    let first = BASE + 4096 * 3;
    word == 0 || (word >= first + 16 && word < first + 4096 && (word - first) % 8 == 0)
}

/// Whether a value may stand at a place, of whichever object that is: a byte, or a word that may stand in the place of a reference.
fn may_stand(place: Place, value: u64) -> bool
    ensures value { result ≡ true → IsValueFor place value }
    ensures sound { result ≡ true → (catalog : List Fields) (held : Holding) (at : ℕ) → IsSoundValue catalog BASE 16384 held at place value }
{
    match place {
        Place::Byte(_) => value < 256,
        Place::Field(_) | Place::Tail(_) => may_refer(value),
    }
}
