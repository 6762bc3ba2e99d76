//! Images of pages, each under its page number.
ghost use Rattle.std.specs.Prelude.{◌≡◌, ◌+◌, ◌<◌, ◌≤◌, ◌↔◌, max, IsTrue, IfSome, OnOk, OnErr, is_some, if◌then◌else◌};
ghost use Rattle.std.specs.Option.{option_copied, option_copied_mut};
ghost use Rattle.std.specs.Borrow.{sem};
ghost use Rattle.std.specs.FinMap as map;
ghost use Rattle.pm3_page.specs.Next.{IsNext};

use crate::addresses::PageNo;
use crate::images::Image;
use crate::slots::Slots;
use pm3_types::Memory;
use std::alloc::Global;
use std::marker::Model;

/// Images of pages, each under the number of its page, and room for further ones.
#[derive(Debug, Drop)]
pub struct Pages {
    /// Where the image of each page is in the list.
    slots: Slots,
    /// The images, in no order.
    images: Vec<Image>,
    /// How many images more there is room for.
    spare: usize,
}

impl Model for Pages {
    ghost use Rattle.pm3_page.specs.PageMap.{PageMap, page_map_code, images_of};
    ghost use Rattle.pm3_page.specs.PageStore.{IsStored};

    ghost Value = { PageMap };

    ghost coded = { page_map_code };

    ghost view = { λ p. record { images = images_of p.slots.by_page.items p.images.items; spare = p.spare } };

    ghost invariant = { λ p. IsStored p.slots p.images p.spare };
}

impl Pages {
    ghost use Rattle.pm3_page.specs.PageLends.{lends_image};

    /// No images, and no room. It takes memory from `alloc` once room is asked for.
    pub fn new(alloc: Global) -> Pages
        ensures images { result.images ≡ map.empty }
        ensures spare { result.spare ≡ 0 }
    {
        Pages {
            slots: Slots::new(alloc),
            images: Vec::new(alloc),
            spare: 0,
        }
    }

    /// The number of images.
    pub fn len(&self) -> u32
        ensures count { result ≡ map.len self.now.images }
        ensures few { result ≤ 16384 }
    {
        self.images.len() as u32
    }

    /// Whether there is no image.
    pub fn is_empty(&self) -> bool
        ensures { IsTrue result ↔ (self.now.images ≡ map.empty) }
    {
        self.images.is_empty()
    }

    /// The number of further images that there is room for.
    pub fn spare(&self) -> usize
        ensures { result ≡ self.now.spare }
    {
        self.spare
    }

    /// Makes room for at least so many further images. After a refusal all is as it was.
    pub fn reserve(&mut self, more: u32) -> Result<(), Memory>
        ensures images { self.new.images ≡ self.old.images }
        ensures room { OnOk result (self.new.spare ≡ max self.old.spare more) }
        ensures refused { OnErr result (self.new ≡ self.old) }
    {
        let more = more as usize;
        if more <= self.spare {
            return Ok(());
        }
        let Ok(()) = self.slots.reserve(more) else {
            return Err(Memory);
        };
        let Ok(()) = self.images.reserve(more) else {
            return Err(Memory);
        };
        self.spare = more;
        Ok(())
    }

    /// Puts an image under its page, in the room that was made.
    pub fn put(&mut self, image: Image)
        requires room { 0 < self.old.spare }
        requires absent { map.get self.old.images image.page ≡ None }
        ensures images { self.new.images ≡ map.insert self.old.images image.page image }
        ensures spare { self.new.spare + 1 ≡ self.old.spare }
    {
        let page = image.page();
        self.slots.put(page);
        let Ok(()) = self.images.push(image) else {
            unreachable!()
        };
        self.spare -= 1;
    }

    /// The image of a page, or None exactly where it isn't there.
    pub fn get(&self, page: PageNo) -> Option<&Image>
        ensures { option_copied result ≡ map.get self.now.images page }
    {
        self.images.get(self.slots.slot(page))
    }

    /// The image of a page to write to, or None exactly where it isn't there. What is left behind the reference is then the page's image.
    pub fn get_mut(&mut self, page: PageNo) -> Option<&mut Image>
        ensures* writes_back { sem 𝓛 (lends_image self.entry page result) }
        ensures value { option_copied_mut result ≡ map.get self.old.images page }
    {
        let slot = self.slots.slot(page);
        self.images.get_mut(slot)
    }

    /// Takes the image of a page out, or answers None exactly where it isn't there. Its room is spare then.
    pub fn take(&mut self, page: PageNo) -> Option<Image>
        ensures image { result ≡ map.get self.old.images page }
        ensures images { self.new.images ≡ map.remove self.old.images page }
        ensures spare { self.new.spare ≡ self.old.spare + (if is_some result then 1 else 0) }
    {
        let slot = self.slots.slot(page);
        if slot >= self.images.len() {
            return None;
        }
        self.slots.take(page, slot);
        self.spare += 1;
        Some(self.images.swap_remove(slot))
    }

    /// The least page from `start` on that has an image here, or None exactly where there is none.
    pub fn next(&self, start: PageNo) -> Option<PageNo>
        ensures next { IsNext (map.contains_key self.now.images) start result }
        ensures within { IfSome result (λ page. page < 16384) }
    {
        self.slots.next(start)
    }
}
