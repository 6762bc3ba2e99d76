//! Pages that are held: one place where the images are kept as they were found.
ghost use Rattle.std.specs.Prelude.{ℕ, Option, ◌≡◌, ◌+◌, ◌^◌, ◌<◌, ◌≤◌, true, false, None, Some, length, slice_get, MatchResult, OnOk, OnErr, IfOk, IfErr};
ghost use Rattle.std.specs.Option.{option_copied};
ghost use Rattle.std.specs.FinMap as map;
ghost use Rattle.pm3_types.specs.Layout.{PageImage, has_tail, head_of, size_by};
ghost use Rattle.pm3_types.specs.PageForm.{IsSound};
ghost use Rattle.pm3_access.specs.Access.{begins_in, images_written};
ghost use Rattle.pm3_access.specs.Making.{IsMadeOn, images_made};
ghost use Rattle.pm3_access.specs.Sound.{HasLowPage};
ghost use Rattle.pm3_access.specs.Spots.{IsValueFor};
ghost use Rattle.pm3_access.specs.Holding.{no_images, as_found, with_admitted, with_grown};
ghost use Rattle.pm3_page.specs.PageMap.{IsAtHome};
ghost use Rattle.pm3_access.specs.Roots.{images_rooted};

use crate::objects::{place_object, write_place};
use crate::places::{NoPlace, Place};
use pm3_page::{Addr, BASE, Image, PageNo, Pages};
use pm3_types::{Catalog, Memory, TypeNo};
use std::alloc::Global;
use std::marker::Model;

/// Pages that are held: their images as they are now, and as they were when the pages were taken.
#[derive(Debug, Drop)]
pub(crate) struct HeldPages {
    pub(crate) left: Pages,
    pub(crate) found: Pages,
}

impl Model for HeldPages {
    ghost use Rattle.pm3_access.specs.Holding.{HeldImages, AreHeld};
    ghost use Rattle.pm3_access.specs.Codes.{held_images_code};

    ghost Value = { HeldImages };

    ghost coded = { held_images_code };

    ghost view = { λ p. record { left = p.left.images; found = p.found.images } };

    ghost invariant = { λ p. AreHeld p.left.images p.found.images };
}

impl HeldPages {
    /// No pages.
    pub(crate) fn new(alloc: Global) -> HeldPages
        ensures { result ≡ no_images }
    {
        HeldPages {
            left: Pages::new(alloc),
            found: Pages::new(alloc),
        }
    }

    /// Takes these pages as they are, each under its own number.
    pub(crate) fn taken(alloc: Global, found: Pages) -> Result<HeldPages, (Memory, Pages)>
        requires { IsAtHome found.images }
        ensures taken { IfOk result (λ pages. pages ≡ as_found found.images) }
        ensures refused { IfErr result (λ refusal. refusal.1 ≡ found) }
    {
        match copy_all(alloc, &found) {
            Ok(left) => Ok(HeldPages { left, found }),
            Err(Memory) => Err((Memory, found)),
        }
    }

    /// The image of a page as it is now.
    pub(crate) fn get(&self, page: PageNo) -> Option<&Image>
        ensures { option_copied result ≡ map.get self.now.left page }
    {
        self.left.get(page)
    }

    /// The number of pages.
    pub(crate) fn len(&self) -> u32
        ensures count { result ≡ map.len self.now.left }
        ensures few { result ≤ 16384 }
    {
        self.left.len()
    }

    /// Whether a page is held.
    pub(crate) fn has(&self, page: PageNo) -> bool
        ensures { result ≡ map.contains_key self.now.left page }
    {
        self.left.get(page).is_some()
    }

    /// Takes a page as it is.
    pub(crate) fn admit(&mut self, image: Image) -> Result<(), (Memory, Image)>
        requires { map.get self.old.left image.page ≡ None }
        ensures admitted { OnOk result (self.new ≡ with_admitted self.old image) }
        ensures same { OnErr result (self.new ≡ self.old) }
        ensures refused { IfErr result (λ refusal. refusal.1 ≡ image) }
    {
        let Ok(found) = image.copy() else {
            return Err((Memory, image));
        };
        let Ok(()) = self.left.reserve(1) else {
            return Err((Memory, image));
        };
        let Ok(()) = self.found.reserve(1) else {
            return Err((Memory, image));
        };
        self.found.put(found);
        self.left.put(image);
        Ok(())
    }

    /// Takes a page that was not there.
    pub(crate) fn grow(&mut self, image: Image) -> Result<(), (Memory, Image)>
        requires { map.get self.old.left image.page ≡ None }
        ensures grown { OnOk result (self.new ≡ with_grown self.old image) }
        ensures same { OnErr result (self.new ≡ self.old) }
        ensures refused { IfErr result (λ refusal. refusal.1 ≡ image) }
    {
        let Ok(()) = self.left.reserve(1) else {
            return Err((Memory, image));
        };
        self.left.put(image);
        Ok(())
    }

    /// Writes the value at a place of the object at `at`, on this page.
    pub(crate) fn write(
        &mut self,
        page: PageNo,
        catalog: &Catalog,
        at: Addr,
        place: Place,
        value: u64,
    ) -> Result<(), NoPlace>
        requires object { begins_in BASE (map.get self.old.left page) at ≡ true }
        requires sound { (image : PageImage) → map.get self.old.left page ≡ Some image → IsSound catalog.now BASE 16384 image }
        requires value { IsValueFor place value }
        ensures { MatchResult result (λ _. images_written catalog.now BASE self.old page at place value ≡ Some self.new) (λ _. (images_written catalog.now BASE self.old page at place value ≡ None) × (self.new ≡ self.old)) }
    {
        let Some(image) = self.left.get_mut(page) else {
            unreachable!()
        };
        write_place(image, catalog, at, place, value)
    }

    /// Writes an address, or 0 for nil, into a root slot of page 2.
    pub(crate) fn set_root(&mut self, slot: u32, at: u64)
        requires held { map.contains_key self.old.left 2 ≡ true }
        requires slot { slot < 16 }
        ensures { images_rooted self.old slot at ≡ Some self.new }
    {
        let Some(image) = self.left.get_mut(2) else {
            unreachable!()
        };
        image.set_root(slot, at);
    }

    /// Places a new object on this page, or answers None exactly where it does not fit or the page is not held.
    pub(crate) fn make(
        &mut self,
        page: PageNo,
        catalog: &Catalog,
        ty: TypeNo,
        tail: u32,
        name: u64,
    ) -> Option<Addr>
        requires there { ty < length catalog.now }
        requires named { (0 < name) × (name < 2 ^ 62) }
        requires empty { has_tail (slice_get catalog.now ty) ≡ false → tail ≡ 0 }
        requires small { size_by (slice_get catalog.now ty) tail ≤ 510 }
        ensures made { let size : ℕ = size_by (slice_get catalog.now ty) tail in
            let image : Option PageImage = map.get self.old.left page in
            IsMadeOn BASE image size self.old (images_made self.old page image size (head_of ty tail) name) result self.new }
        ensures low { HasLowPage (map.get self.old.left page) }
    {
        let Some(image) = self.left.get_mut(page) else {
            return None;
        };
        place_object(image, catalog, ty, tail, name)
    }

    /// The images as the pages were taken.
    pub(crate) fn into_found(self) -> Pages
        ensures found { result.images ≡ self.found }
        ensures home { IsAtHome result.images }
    {
        let HeldPages { left: _, found } = self;
        found
    }
}

/// Equal images.
fn copy_all(alloc: Global, pages: &Pages) -> Result<Pages, Memory>
    requires { IsAtHome pages.now.images }
    ensures { IfOk result (λ copies. copies.images ≡ pages.now.images) }
{
    let mut copies = Pages::new(alloc);
    let mut from = 0;
    while let Some(page) = pages.next(from) {
        let Some(image) = pages.get(page) else {
            unreachable!()
        };
        let Ok(behind) = add_copy(&mut copies, image) else {
            return Err(Memory);
        };
        from = behind;
    }
    Ok(copies)
}

/// Adds an equal image, and answers the page behind its own.
fn add_copy(copies: &mut Pages, image: &Image) -> Result<PageNo, Memory>
    requires { map.get copies.old.images image.now.page ≡ None }
    ensures added { OnOk result (copies.new.images ≡ map.insert copies.old.images image.now.page image.now) }
    ensures behind { IfOk result (λ behind. (behind ≡ image.now.page + 1) × (behind ≤ 16384)) }
{
    copies.reserve(1)?;
    copies.put(image.copy()?);
    Ok(image.page() + 1)
}
