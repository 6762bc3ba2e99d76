//! The marks of all pages, and the list of the pages that are marked.

ghost use Rattle.std.specs.Prelude.{◌≡◌, ℕ, ◌<◌, false, length, replicate, slice_set, slice_index, slice_index_or, EachIndex, option_map, Option, Some, None, IfOk, OnOk, OnErr, IsSome, IsTrue, ◌↔◌, true};
ghost use Rattle.pm3_core.specs.Snapshot.{Marking, fresh, reads_of};
ghost use Rattle.pm3_core.specs.Listed.{with_read, Delists};

use crate::events::PLACES;
use crate::readings::Reading;
use std::alloc::{AllocError, Global};
use std::marker::Model;

/// The marks of the pages of a store.
#[derive(Drop)]
pub(crate) struct PageMarks {
    /// Of each page, its mark and the places read off since, if it has one.
    readings: Vec<Option<Reading>>,
    /// The marked pages, in no order: a read looks at these alone.
    listed: Vec<u32>,
    /// Of each marked page, its place in that list.
    seats: Vec<usize>,
}

impl Model for PageMarks {
    ghost use Rattle.std.specs.Prelude.{List, Option};
    ghost use Rattle.pm3_core.specs.Snapshot.{Marking};
    ghost use Rattle.pm3_core.specs.Listed.{IsListed};

    ghost Value = { List (Option Marking) };

    ghost view = { λ m. m.readings.items };

    ghost invariant = { λ m. IsListed m.readings.items m.listed.items m.seats.items };
}

impl PageMarks {
    /// No page is marked.
    pub(crate) fn new(alloc: Global, pages: u32) -> Result<Self, AllocError>
        ensures { IfOk result (λ m. m ≡ replicate pages None) }
    {
        Ok(PageMarks {
            readings: no_readings(alloc, pages)?,
            listed: Vec::new(alloc),
            seats: vec![in alloc; 0usize; pages as usize]?,
        })
    }

    /// The mutator that marks the page.
    pub(crate) fn marker(&self, page: u32) -> Option<u32>
        requires { page < length self.now }
        ensures { result ≡ option_map (λ marking. marking.by) (slice_index_or self.now page None) }
    {
        match &self.readings[page as usize] {
            Some(reading) => Some(reading.who()),
            None => None,
        }
    }

    /// Whether each place is read off for the page.
    pub(crate) fn is_whole(&self, page: u32) -> bool
        requires { page < length self.now }
        ensures { IsTrue result ↔ ((n : ℕ) → n < PLACES → reads_of (slice_index_or self.now page None) n ≡ true) }
    {
        match &self.readings[page as usize] {
            Some(reading) => reading.is_whole(),
            None => false,
        }
    }

    /// Marks a page that is not marked.
    pub(crate) fn mark(&mut self, alloc: Global, page: u32, who: u32) -> Result<(), AllocError>
        requires within { page < length self.old }
        requires unmarked { slice_index_or self.old page None ≡ None }
        ensures ok { OnOk result (self.new ≡ slice_set self.old page (Some (fresh who))) }
        ensures err { OnErr result (self.new ≡ self.old) }
    {
        let reading = Reading::begin(alloc, who)?;
        let seat = self.listed.len();
        self.listed.push(page)?;
        self.seats[page as usize] = seat;
        self.readings[page as usize] = Some(reading);
        Ok(())
    }

    /// Takes the mark off a page.
    pub(crate) fn unmark(&mut self, page: u32)
        requires within { page < length self.old }
        requires marked { IsSome (slice_index_or self.old page None) }
        ensures { self.new ≡ slice_set self.old page None }
    {
        delist(&mut self.listed, &mut self.seats, page as usize);
        self.readings[page as usize] = None;
    }

    /// Reads off a place for each page that `who` marks, but for the page that the word there names.
    pub(crate) fn read_off(&mut self, who: u32, place: usize, named: Option<u32>)
        requires { place < PLACES }
        ensures len { length self.new ≡ length self.old }
        ensures marks { (page : ℕ) → slice_index_or self.new page None ≡ with_read who place named page (slice_index_or self.old page None) }
    {
        for &page in &self.listed {
            join(&mut self.readings, page, who, place, named);
        }
    }
}

/// Takes a page off the list, where the last page comes to its seat.
fn delist(listed: &mut Vec<u32>, seats: &mut Vec<usize>, page: usize)
    requires page { page < length seats.old.items }
    requires seat { slice_index seats.old.items page < length listed.old.items }
    requires within { EachIndex listed.old.items (λ i. slice_index listed.old.items i < length seats.old.items) }
    ensures { Delists listed.old.items seats.old.items listed.new.items seats.new.items page }
{
    let seat = seats[page];
    listed.swap_remove(seat);
    if seat < listed.len() {
        let moved = listed[seat];
        seats[moved as usize] = seat;
    }
}

/// Reads off a place for the page, where `who` marks it and the word at the place does not name it.
fn join(readings: &mut Vec<Option<Reading>>, page: u32, who: u32, place: usize, named: Option<u32>)
    requires within { page < length readings.old.items }
    requires place { place < PLACES }
    ensures { readings.new.items ≡ slice_set readings.old.items page (with_read who place named page (slice_index_or readings.old.items page None)) }
{
    if named == Some(page) {
        return;
    }
    if let Some(reading) = &mut readings[page as usize] {
        if reading.who() == who {
            reading.add(place);
        }
    }
}

fn no_readings(alloc: Global, pages: u32) -> Result<Vec<Option<Reading>>, AllocError>
    ensures { IfOk result (λ v. v.items ≡ replicate pages None) }
{
    let mut readings = Vec::with_capacity(alloc, pages as usize)?;
    for _page in 0..pages {
        readings.push(None)?;
    }
    Ok(readings)
}
