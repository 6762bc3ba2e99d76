//! The summaries of a journal's records.
ghost use Rattle.std.specs.Prelude.{◌≡◌, ℕ, ◌+◌, ◌^◌, ◌<◌, ◌≤◌, ◌==◌, ◌||◌, ◌↔◌, false, List, [], ◌∷◌, ◌++◌, length, slice_index_or, All, IfOk, OnOk, IfSome, IsNone};
ghost use Rattle.std.specs.List.{list_any};
ghost use Rattle.pm3_journal.specs.Summaries.{has_page, IsBounded, Summary};

use crate::summary::Summary;
use pm3_disk::Memory;
use std::alloc::Global;
use std::marker::Model;

/// The summaries of the records of a journal, in order. A contract sees them as a list, for how many there is space, and
/// how many pages the store has.
#[derive(Drop)]
pub struct Entries {
    /// The summaries, in order.
    summaries: Vec<Summary>,
    /// For each page of the store whether a record has it.
    seen: Vec<bool>,
}

impl Model for Entries {
    ghost use Rattle.std.specs.Prelude.{◌^◌, ◌<◌, All, length, vec_len, vec_capacity};
    ghost use Rattle.pm3_journal.specs.Summaries.{IsBounded, IsTableOf, SummaryList};

    ghost Value = { SummaryList };

    ghost view = { λ e. record { summaries = e.summaries.items; slots = vec_capacity e.summaries; pages = length e.seen.items } };

    ghost invariant = { λ e. (vec_len e.summaries < 2 ^ 32) × IsTableOf e.summaries.items e.seen.items
        × All (IsBounded (length e.seen.items)) e.summaries.items };
}

impl Entries {
    /// No entries, of a store of so many pages.
    pub(crate) fn new(alloc: Global, pages: u32) -> Result<Entries, Memory>
        ensures { IfOk result (λ entries. (entries.summaries ≡ []) × (entries.pages ≡ pages)) }
    {
        let seen = vec![in alloc; false; pages as usize]?;
        Ok(Entries {
            summaries: Vec::new(alloc),
            seen,
        })
    }

    /// How many entries there are.
    pub fn len(&self) -> u32
        ensures { result ≡ length self.now.summaries }
    {
        self.summaries.len() as u32
    }

    /// The tag of an entry.
    pub fn tag(&self, i: u32) -> u32
        requires { i < length self.now.summaries }
        ensures { (other : Summary) → result ≡ (slice_index_or self.now.summaries i other).tag }
    {
        self.summaries[i as usize].tag
    }

    /// The next name and the high page of the last entry, None exactly where there is no entry.
    pub fn last(&self) -> Option<(u64, u32)>
        ensures none { IsNone result ↔ (self.now.summaries ≡ []) }
        ensures last { IfSome result (λ marks. (before : List Summary) × (last : Summary)
            × (self.now.summaries ≡ before ++ last ∷ []) × (marks.0 ≡ last.next_name) × (marks.1 ≡ last.high_page)) }
        ensures bounds { IfSome result (λ marks. (1 ≤ marks.0) × (marks.0 ≤ 2 ^ 62) × (3 ≤ marks.1) × (marks.1 ≤ self.now.pages)) }
    {
        match self.summaries.last() {
            None => None,
            Some(last) => Some((last.next_name, last.high_page)),
        }
    }

    /// Whether an entry has the page.
    pub fn has(&self, page: u32) -> bool
        ensures { result ≡ has_page self.now.summaries page }
    {
        match self.seen.get(page as usize) {
            Some(seen) => *seen,
            None => false,
        }
    }

    /// Makes room for one more. More than 2^32 - 1 count as too many for the memory.
    pub(crate) fn reserve(&mut self) -> Result<(), Memory>
        ensures slot { OnOk result (length self.new.summaries < self.new.slots) }
        ensures few { OnOk result (length self.new.summaries + 1 < 2 ^ 32) }
        ensures no_less { self.old.slots ≤ self.new.slots }
        ensures same { self.new.summaries ≡ self.old.summaries }
        ensures pages { self.new.pages ≡ self.old.pages }
    {
        if self.len() == u32::MAX {
            return Err(Memory);
        }
        self.summaries.reserve(1)?;
        Ok(())
    }

    /// Leaves no summary, and the room that there is.
    pub(crate) fn clear(&mut self)
        ensures none { self.new.summaries ≡ [] }
        ensures slots { self.new.slots ≡ self.old.slots }
        ensures pages { self.new.pages ≡ self.old.pages }
    {
        self.summaries.clear();
        forget(&mut self.seen);
    }

    /// Adds a summary, for which there is room, of pages of the store.
    pub(crate) fn add(&mut self, summary: Summary)
        requires slot { length self.old.summaries < self.old.slots }
        requires few { length self.old.summaries + 1 < 2 ^ 32 }
        requires pages { All (λ page. page < self.old.pages) summary.pages }
        requires bounded { IsBounded self.old.pages summary }
        ensures summaries { self.new.summaries ≡ self.old.summaries ++ summary ∷ [] }
        ensures pages { self.new.pages ≡ self.old.pages }
    {
        note(&mut self.seen, &summary.pages);
        let pushed = self.summaries.push(summary);
        let Ok(()) = pushed else { unreachable!() };
    }
}

/// Notes these pages in a table.
fn note(seen: &mut Vec<bool>, pages: &[u32])
    requires { All (λ page. page < length seen.old.items) pages.now }
    ensures noted { (q : ℕ) → slice_index_or seen.new.items q false
        ≡ (list_any (λ page. page == q) pages.now || slice_index_or seen.old.items q false) }
    ensures size { length seen.new.items ≡ length seen.old.items }
{
    for page in pages {
        seen[*page as usize] = true;
    }
}

/// Leaves no page in a table.
fn forget(seen: &mut Vec<bool>)
    ensures none { (q : ℕ) → slice_index_or seen.new.items q false ≡ false }
    ensures size { length seen.new.items ≡ length seen.old.items }
{
    for i in 0..seen.len() {
        seen[i] = false;
    }
}
