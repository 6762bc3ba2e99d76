//! A block for each page of a set, with a place for each word.
ghost use Rattle.std.specs.Prelude.{◌≡◌, ◌+◌, ◌*◌, ◌<◌, ◌≤◌, ℕ, true, replicate, IfOk, MatchOption};
ghost use Rattle.std.specs.FinSet as set;
ghost use Rattle.pm3_types.specs.Layout.{is_address, page_in};
ghost use Rattle.pm3_copy.specs.Blocks.{block_of, slot_of, HasBlock, AreBlocks};

use pm3_core::PAGE_BYTES;
use pm3_page::{BASE, PageNo, PageSet, is_word};
use pm3_types::Memory;
use std::alloc::Global;

/// The number of pages that a store may have.
const MOST_PAGES: usize = 16384;

/// The words of a page.
const BLOCK_WORDS: usize = 512;

/// The block of a page that has none: above any block.
const NO_BLOCK: u16 = 65535;

/// The block of each page that has one, and the number of words in all blocks. So a table for the words of these pages has no gaps.
#[derive(Debug, Drop)]
pub(crate) struct Blocks {
    pub(crate) by_page: Vec<u16>,
    pub(crate) words: usize,
}

impl Blocks {
    /// A block for each of these pages.
    pub(crate) fn of(alloc: Global, pages: &PageSet) -> Result<Blocks, Memory>
        ensures blocks { IfOk result (λ blocks. AreBlocks blocks.by_page.items blocks.words) }
        ensures all { IfOk result (λ blocks. (p : ℕ) → set.contains pages.now p ≡ true → HasBlock blocks.by_page.items blocks.words p) }
    {
        let by_page = no_blocks(alloc, MOST_PAGES)?;
        let mut blocks = Blocks { by_page, words: 0 };
        let mut from = 0;
        while let Some(page) = pages.next(from) {
            blocks.add(page);
            from = page + 1;
        }
        Ok(blocks)
    }

    /// Gives a page the next block.
    fn add(&mut self, page: PageNo)
        requires blocks { AreBlocks self.old.by_page.items self.old.words }
        requires page { page < 16384 }
        requires few { self.old.words ≤ 512 * page }
        ensures blocks { AreBlocks self.new.by_page.items self.new.words }
        ensures here { HasBlock self.new.by_page.items self.new.words page }
        ensures others { (p : ℕ) → HasBlock self.old.by_page.items self.old.words p → HasBlock self.new.by_page.items self.new.words p }
        ensures words { self.new.words ≡ self.old.words + 512 }
    {
        self.by_page[page as usize] = (self.words / BLOCK_WORDS) as u16;
        self.words += BLOCK_WORDS;
    }

    /// The place of the word at this address, or None exactly where this is no address on a page with a block.
    pub(crate) fn place_of(&self, at: u64) -> Option<usize>
        ensures { MatchOption result (is_address BASE at ≡ true → slot_of BASE self.now.by_page.items at < self.now.words → ⊥)
            (λ place. (is_address BASE at ≡ true) × (place ≡ slot_of BASE self.now.by_page.items at) × (place < self.now.words)) }
    {
        if !is_word(at) {
            return None;
        }
        let place = self.slot_of(at);
        if place < self.words {
            Some(place)
        } else {
            None
        }
    }

    /// The place of the word that lies at an address, or one behind all places for a page without a block.
    #[tactic(auto, unfolding(pm3_types::specs::Layout::page_in, pm3_types::specs::Layout::word_in))]
    pub(crate) fn slot_of(&self, at: u64) -> usize
        ensures { result ≡ slot_of BASE self.now.by_page.items at }
    {
        let offset = at.saturating_sub(BASE);
        let block = self.block_of((offset / PAGE_BYTES) as usize);
        BLOCK_WORDS * usize::from(block) + (offset % PAGE_BYTES / 8) as usize
    }

    /// The block of a page.
    fn block_of(&self, page: usize) -> u16
        ensures { result ≡ block_of self.now.by_page.items page }
    {
        match self.by_page.get(page) {
            Some(block) => *block,
            None => NO_BLOCK,
        }
    }
}

/// A table of so many pages in which none has a block.
fn no_blocks(alloc: Global, pages: usize) -> Result<Vec<u16>, Memory>
    ensures { IfOk result (λ blocks. blocks.items ≡ replicate pages 65535) }
{
    let Ok(blocks) = vec![in alloc; NO_BLOCK; pages] else {
        return Err(Memory);
    };
    Ok(blocks)
}
