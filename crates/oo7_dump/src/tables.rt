//! Numbers of addresses, in tables.
ghost use Rattle.std.specs.Prelude.{◌≡◌, ℕ, ◌^◌, ◌<◌, ◌≤◌, ◌==◌, true, cond, length, None, Some, OnOk};
ghost use Rattle.pm3_core.specs.declared.naming.TheConstants.{BASE};
ghost use Rattle.pm3_types.specs.Layout.{is_address, page_in};
ghost use Rattle.oo7_dump.specs.Numbers.{AreTables, end_of, noted};

use pm3_page::{Addr, is_word, page_within, word_within};
use pm3_types::Memory;
use std::alloc::Global;

/// The numbers of a table, one for each word of a page.
const PAGE_WORDS: usize = 512;

/// A table of numbers for each page on which an address has one. A number is 0 where the address has none.
#[derive(Drop)]
pub(crate) struct Tables {
    /// Where the table of a page ends, or 0 where it has none.
    ends: Vec<usize>,
    numbers: Vec<u32>,
}

impl Tables {
    /// No page has a table.
    pub(crate) fn new(alloc: Global) -> Tables
        ensures tables { AreTables result.ends.items result.numbers.items }
        ensures none { (a : ℕ) → noted result.ends.items result.numbers.items a ≡ None }
    {
        Tables {
            ends: Vec::new(alloc),
            numbers: Vec::new(alloc),
        }
    }

    /// The number of an address, or None exactly where it has none.
    pub(crate) fn number(&self, at: Addr) -> Option<u32>
        requires { AreTables self.now.ends.items self.now.numbers.items }
        ensures { result ≡ noted self.now.ends.items self.now.numbers.items at }
    {
        if !is_word(at) {
            return None;
        }
        let end = self.end(page_within(at) as usize);
        if end < PAGE_WORDS {
            return None;
        }
        let number = self.numbers[end - PAGE_WORDS + word_within(at)];
        if number == 0 { None } else { Some(number) }
    }

    /// Where the table of a page ends, or 0 where it has none.
    fn end(&self, page: usize) -> usize
        ensures { result ≡ end_of self.now.ends.items page }
    {
        match self.ends.get(page) {
            Some(end) => *end,
            None => 0,
        }
    }

    /// Makes a table for a page, unless it has one. No number changes.
    pub(crate) fn make(&mut self, page: usize) -> Result<(), Memory>
        requires tables { AreTables self.old.ends.items self.old.numbers.items }
        requires low { page < 2 ^ 63 }
        ensures tables { AreTables self.new.ends.items self.new.numbers.items }
        ensures same { (a : ℕ) → noted self.new.ends.items self.new.numbers.items a ≡ noted self.old.ends.items self.old.numbers.items a }
        ensures made { OnOk result (512 ≤ end_of self.new.ends.items page) }
    {
        if self.end(page) >= PAGE_WORDS {
            return Ok(());
        }
        match widen(&mut self.ends, page) {
            Ok(()) => {}
            Err(Memory) => return Err(Memory),
        }
        let end = self.numbers.len() + PAGE_WORDS;
        let Ok(()) = self.numbers.resize(end, 0) else {
            return Err(Memory);
        };
        self.ends[page] = end;
        Ok(())
    }

    /// Gives an address on a page with a table this number.
    pub(crate) fn set(&mut self, at: Addr, number: u32)
        requires tables { AreTables self.old.ends.items self.old.numbers.items }
        requires address { is_address BASE at ≡ true }
        requires made { 512 ≤ end_of self.old.ends.items (page_in BASE at) }
        requires some { 0 < number }
        ensures tables { AreTables self.new.ends.items self.new.numbers.items }
        ensures set { (a : ℕ) → noted self.new.ends.items self.new.numbers.items a ≡ cond (a == at) (Some number) (noted self.old.ends.items self.old.numbers.items a) }
    {
        let end = self.end(page_within(at) as usize);
        self.numbers[end - PAGE_WORDS + word_within(at)] = number;
    }
}

/// Makes room for the end of a page's table. The ends stay.
fn widen(ends: &mut Vec<usize>, page: usize) -> Result<(), Memory>
    requires { page < 2 ^ 63 }
    ensures same { (other : ℕ) → end_of ends.new.items other ≡ end_of ends.old.items other }
    ensures there { OnOk result (page < length ends.new.items) }
{
    if page < ends.len() {
        return Ok(());
    }
    let Ok(()) = ends.resize(page + 1, 0) else {
        return Err(Memory);
    };
    Ok(())
}
