//! Where the image of each page stands in a list of images.
ghost use Rattle.std.specs.Prelude.{◌≡◌, ℕ, ◌+◌, ◌-◌, ◌<◌, ◌≤◌, ◌==◌, [], ◌∷◌, ◌++◌, if◌then◌else◌, length, IfSome, OnOk, vec_capacity};
ghost use Rattle.pm3_page.specs.PageMap.{slot_of};
ghost use Rattle.pm3_page.specs.PageIndex.{IsIndex, IsReady};
ghost use Rattle.pm3_page.specs.Bits.{has_bit};
ghost use Rattle.pm3_page.specs.Next.{IsNext};

use crate::addresses::{MOST_PAGES, PageNo};
use crate::bits::Bits;
use pm3_types::Memory;
use std::alloc::Global;

/// The slot of a page without an image: above the index of any image.
const ABSENT: u16 = 65535;

/// The index of each page's image, and the page of each index.
#[derive(Debug, Drop)]
pub(crate) struct Slots {
    /// By page, the index of its image, or 65,535 where it has none.
    by_page: Vec<u16>,
    /// By index, the page.
    homes: Vec<u16>,
    /// The pages that have an image.
    held: Bits,
}

impl Slots {
    /// No page has an image.
    pub(crate) fn new(alloc: Global) -> Slots
        ensures index { IsIndex result.by_page.items result.homes.items result.held.words.items }
        ensures slots { result.by_page.items ≡ [] }
        ensures homes { result.homes.items ≡ [] }
    {
        Slots {
            by_page: Vec::new(alloc),
            homes: Vec::new(alloc),
            held: Bits::new(alloc),
        }
    }

    /// The index of the page's image, or 65,535 where it has none.
    pub(crate) fn slot(&self, page: PageNo) -> usize
        ensures { result ≡ slot_of self.now.by_page.items page }
    {
        match self.by_page.get(page as usize) {
            Some(slot) => usize::from(*slot),
            None => usize::from(ABSENT),
        }
    }

    /// The least page from `start` on that has an image.
    pub(crate) fn next(&self, start: PageNo) -> Option<PageNo>
        requires { length self.now.held.words.items ≤ 256 }
        ensures next { IsNext (has_bit self.now.held.words.items) start result }
        ensures within { IfSome result (λ page. page < 16384) }
    {
        self.held.next(start)
    }

    /// Makes the tables, and room for so many further pages.
    pub(crate) fn reserve(&mut self, more: usize) -> Result<(), Memory>
        requires { IsIndex self.old.by_page.items self.old.homes.items self.old.held.words.items }
        ensures index { IsIndex self.new.by_page.items self.new.homes.items self.new.held.words.items }
        ensures slots { (page : ℕ) → slot_of self.new.by_page.items page ≡ slot_of self.old.by_page.items page }
        ensures homes { self.new.homes.items ≡ self.old.homes.items }
        ensures ready { OnOk result (IsReady self.new.by_page.items self.new.held.words.items) }
        ensures still_ready { IsReady self.old.by_page.items self.old.held.words.items → IsReady self.new.by_page.items self.new.held.words.items }
        ensures room { OnOk result (length self.new.homes.items + more ≤ vec_capacity self.new.homes) }
        ensures capacity { vec_capacity self.old.homes ≤ vec_capacity self.new.homes }
    {
        let Ok(()) = self.by_page.resize(MOST_PAGES as usize, ABSENT) else {
            return Err(Memory);
        };
        let Ok(()) = self.held.grow(MOST_PAGES - 1) else {
            return Err(Memory);
        };
        let Ok(()) = self.homes.reserve(more) else {
            return Err(Memory);
        };
        Ok(())
    }

    /// Gives the page the next index.
    pub(crate) fn put(&mut self, page: PageNo)
        requires index { IsIndex self.old.by_page.items self.old.homes.items self.old.held.words.items }
        requires ready { IsReady self.old.by_page.items self.old.held.words.items }
        requires page { page < 16384 }
        requires absent { length self.old.homes.items ≤ slot_of self.old.by_page.items page }
        requires room { length self.old.homes.items < vec_capacity self.old.homes }
        ensures index { IsIndex self.new.by_page.items self.new.homes.items self.new.held.words.items }
        ensures ready { IsReady self.new.by_page.items self.new.held.words.items }
        ensures slots { (q : ℕ) → slot_of self.new.by_page.items q ≡ (if q == page then length self.old.homes.items else slot_of self.old.by_page.items q) }
        ensures homes { length self.new.homes.items ≡ length self.old.homes.items + 1 }
        ensures capacity { vec_capacity self.old.homes ≤ vec_capacity self.new.homes }
    {
        self.by_page[page as usize] = self.homes.len() as u16;
        self.held.set(page);
        let Ok(()) = self.homes.push(page as u16) else {
            unreachable!()
        };
    }

    /// Takes the page's index away, and gives it to the page that has the last.
    pub(crate) fn take(&mut self, page: PageNo, slot: usize)
        requires index { IsIndex self.old.by_page.items self.old.homes.items self.old.held.words.items }
        requires slot { slot ≡ slot_of self.old.by_page.items page }
        requires there { slot < length self.old.homes.items }
        ensures index { IsIndex self.new.by_page.items self.new.homes.items self.new.held.words.items }
        ensures ready { IsReady self.old.by_page.items self.old.held.words.items → IsReady self.new.by_page.items self.new.held.words.items }
        ensures slots { (q : ℕ) → slot_of self.new.by_page.items q ≡ (if q == page then 65535 else (if slot_of self.old.by_page.items q == (length self.old.homes.items - 1) then slot else slot_of self.old.by_page.items q)) }
        ensures homes { length self.new.homes.items + 1 ≡ length self.old.homes.items }
        ensures capacity { vec_capacity self.new.homes ≡ vec_capacity self.old.homes }
    {
        self.by_page[page as usize] = ABSENT;
        self.held.clear(page);
        self.homes.swap_remove(slot);
        if slot < self.homes.len() {
            let moved = usize::from(self.homes[slot]);
            self.by_page[moved] = slot as u16;
        }
    }
}
