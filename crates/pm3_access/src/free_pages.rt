//! The free pages of a space.
ghost use Rattle.std.specs.Prelude.{◌≡◌, ◌+◌, ◌<◌, ◌≤◌, ◌==◌, ◌&&◌, ◌||◌, ◌^◌, ℕ, Bool, max, not, length, filter, slice_index, vec_capacity, OnOk, OnErr, IsSome, MatchOption, Contains, EachIndex};
ghost use Rattle.std.specs.FinSet as set;
ghost use Rattle.std.specs.Ordering.{nat_cmp};
ghost use Rattle.pm3_page.specs.Next.{IsNext};
ghost use Rattle.pm3_access.specs.FreeList.{with_pages};
ghost use Rattle.pm3_access.specs.Parts.{is_filled};

use pm3_page::{PageNo, PageSet, Pages};
use pm3_types::Memory;
use std::alloc::Global;
use std::marker::Model;

/// Pages that are free, and room for further ones and for those drawn.
#[derive(Debug, Drop)]
pub(crate) struct FreePages {
    pages: Vec<PageNo>,
    /// Room for further pages.
    room: usize,
    /// Room beside that, by which the pages drawn can be set free again without memory.
    kept: usize,
}

impl Model for FreePages {
    ghost use Rattle.std.specs.Prelude.{◌+◌, ◌≤◌, length, vec_capacity};
    ghost use Rattle.std.specs.FinSet as set;
    ghost use Rattle.pm3_access.specs.FreeList.{FreeList};
    ghost use Rattle.pm3_access.specs.Codes.{free_list_code};

    ghost Value = { FreeList };

    ghost coded = { free_list_code };

    ghost view = { λ f. record { pages = set.from_list f.pages.items; room = f.room; kept = f.kept } };

    ghost invariant = { λ f. length f.pages.items + f.room + f.kept ≤ vec_capacity f.pages };
}

impl FreePages {
    /// No page, and no room.
    pub(crate) fn new(alloc: Global) -> FreePages
        ensures { result ≡ record { pages = set.empty; room = 0; kept = 0 } }
    {
        FreePages {
            pages: Vec::new(alloc),
            room: 0,
            kept: 0,
        }
    }

    /// Makes room for at least so many further pages.
    pub(crate) fn reserve(&mut self, more: u32) -> Result<(), Memory>
        ensures pages { self.new.pages ≡ self.old.pages }
        ensures room { OnOk result (self.new.room ≡ max self.old.room more) }
        ensures kept { self.new.kept ≡ self.old.kept }
        ensures refused { OnErr result (self.new ≡ self.old) }
    {
        let more = more as usize;
        if more <= self.room {
            return Ok(());
        }
        let Some(wanted) = more.checked_add(self.kept) else {
            return Err(Memory);
        };
        let Ok(()) = self.pages.reserve(wanted) else {
            return Err(Memory);
        };
        self.room = more;
        Ok(())
    }

    /// Keeps room for at least so many pages, beside that for further ones.
    pub(crate) fn keep(&mut self, drawn: usize) -> Result<(), Memory>
        ensures pages { self.new.pages ≡ self.old.pages }
        ensures room { self.new.room ≡ self.old.room }
        ensures kept { self.old.kept ≤ self.new.kept }
        ensures enough { OnOk result (drawn ≤ self.new.kept) }
    {
        if drawn <= self.kept {
            return Ok(());
        }
        let Some(wanted) = self.room.checked_add(drawn) else {
            return Err(Memory);
        };
        let Ok(()) = self.pages.reserve(wanted) else {
            return Err(Memory);
        };
        self.kept = drawn;
        Ok(())
    }

    /// Makes the room that was kept room for further pages.
    pub(crate) fn release(&mut self)
        ensures pages { self.new.pages ≡ self.old.pages }
        ensures room { self.new.room ≡ self.old.room + self.old.kept }
    {
        self.room += self.kept;
        self.kept = 0;
    }

    /// Adds a page, in the room that was made.
    pub(crate) fn add(&mut self, page: PageNo)
        requires { 0 < self.old.room }
        ensures pages { self.new.pages ≡ set.insert self.old.pages page }
        ensures room { self.new.room + 1 ≡ self.old.room }
        ensures kept { self.new.kept ≡ self.old.kept }
    {
        let Ok(()) = self.pages.push(page) else {
            unreachable!()
        };
        self.room -= 1;
    }

    /// Adds all pages of a list, in the room that was made.
    pub(crate) fn add_all(&mut self, pages: &[PageNo])
        requires { length pages.now ≤ self.old.room }
        ensures pages { self.new.pages ≡ with_pages self.old.pages pages.now }
        ensures room { self.new.room + length pages.now ≡ self.old.room }
    {
        for page in pages {
            self.add(*page);
        }
    }

    /// Adds all pages of a set, in the room that was made.
    pub(crate) fn add_set(&mut self, pages: &PageSet)
        requires { set.len pages.now ≤ self.old.room }
        ensures pages { self.new.pages ≡ set.union self.old.pages pages.now }
        ensures room { self.new.room + set.len pages.now ≡ self.old.room }
    {
        let mut from = 0;
        while let Some(page) = pages.next(from) {
            self.add(page);
            from = page + 1;
        }
    }

    /// The least page from a number on, or None exactly where there is none.
    pub(crate) fn next(&self, start: PageNo) -> Option<PageNo>
        ensures { IsNext (set.contains self.now.pages) start result }
    {
        least_from(&self.pages, start)
    }

    /// Takes out each page that has one of these images.
    pub(crate) fn take_filled(&mut self, volatile: &Pages, written: &Pages)
        ensures pages { (p : ℕ) → set.contains self.new.pages p ≡ (set.contains self.old.pages p && not (is_filled volatile.now.images written.now.images p)) }
        ensures room { self.new.room ≡ self.old.room }
        ensures kept { self.new.kept ≡ self.old.kept }
    {
        self.pages.retain(|page| volatile.get(*page).is_none() && written.get(*page).is_none());
    }

    /// Takes the least page out, or answers None exactly where there is none.
    pub(crate) fn take_least(&mut self) -> Option<PageNo>
        ensures least { IsNext (set.contains self.old.pages) 0 result }
        ensures taken { MatchOption result (self.new ≡ self.old) (λ page. (self.new.pages ≡ set.remove self.old.pages page) × (self.new.room ≡ self.old.room + 1) × (self.new.kept ≡ self.old.kept)) }
        ensures fits { IsSome result → self.new.room < 2 ^ 64 }
    {
        let Some(least) = least_of(&self.pages) else {
            return None;
        };
        take_out(&mut self.pages, least);
        self.room += 1;
        Some(least)
    }
}

/// The least page of a list.
fn least_of(pages: &[PageNo]) -> Option<PageNo>
    ensures { MatchOption result (length pages.now ≡ 0) (λ least. Contains pages.now least × EachIndex pages.now (λ k. least ≤ slice_index pages.now k)) }
{
    pages.iter().copied().min()
}

/// The least page of a list from a number on.
fn least_from(pages: &[PageNo], start: PageNo) -> Option<PageNo>
    ensures { IsNext (set.contains (set.from_list {R = nat_cmp} pages.now)) start result }
{
    let mut least = None;
    for page in pages {
        least = nearer(least, *page, start);
    }
    least
}

/// The nearer one of a page and the least of others, from a number on.
fn nearer(least: Option<PageNo>, page: PageNo, start: PageNo) -> Option<PageNo>
    ensures { (has : ℕ → Bool) → IsNext has start least → IsNext (λ q. (q == page) || has q) start result }
{
    if page < start {
        return least;
    }
    match least {
        Some(other) if other <= page => Some(other),
        _ => Some(page),
    }
}

/// Takes a page out of a list.
fn take_out(pages: &mut Vec<PageNo>, page: PageNo)
    ensures others { pages.new.items ≡ filter (λ other. not (other == page)) pages.old.items }
    ensures capacity { vec_capacity pages.new ≡ vec_capacity pages.old }
{
    pages.retain(move |other| *other != page);
}
