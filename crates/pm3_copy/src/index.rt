//! Where an address stands in lists of addresses.
ghost use Rattle.std.specs.Prelude.{◌≡◌, ◌+◌, ◌<◌, ◌≤◌, ◌^◌, ℕ, true, length, IfOk};
ghost use Rattle.std.specs.List.{Contains};
ghost use Rattle.pm3_types.specs.Layout.{is_address, page_in};
ghost use Rattle.pm3_types.specs.PassMoves.{IsRising};
ghost use Rattle.pm3_copy.specs.Blocks.{HasBlock, AreBlocks, AreOnBlocks, number_of, AreNumbered};

use crate::blocks::Blocks;
use pm3_page::{Addr, BASE};
use pm3_types::Memory;
use std::alloc::Global;

/// A number for each word of the pages with a block, by which the place of an address in one of two lists is found in constant
/// time. What a number says is compared with the lists: so a word without an address of these may have any.
#[derive(Debug, Drop)]
pub(crate) struct Index {
    pub(crate) blocks: Blocks,
    pub(crate) numbers: Vec<u32>,
}

impl Index {
    /// An index for the words of these pages, in which nothing is numbered yet.
    pub(crate) fn over(alloc: Global, blocks: Blocks) -> Result<Index, Memory>
        ensures blocks { IfOk result (λ index. index.blocks ≡ blocks) }
        ensures long { IfOk result (λ index. length index.numbers.items ≡ blocks.words) }
    {
        let Ok(numbers) = vec![in alloc; 0u32; blocks.words] else {
            return Err(Memory);
        };
        Ok(Index { blocks, numbers })
    }

    /// Numbers the addresses of a list one after another, from this number on.
    pub(crate) fn number(&mut self, first: usize, list: &[Addr])
        requires blocks { AreBlocks self.old.blocks.by_page.items self.old.blocks.words }
        requires long { length self.old.numbers.items ≡ self.old.blocks.words }
        requires on_blocks { AreOnBlocks BASE self.old.blocks.by_page.items self.old.blocks.words list.now }
        requires rising { IsRising list.now }
        requires few { first + length list.now < 2 ^ 32 }
        ensures blocks { self.new.blocks ≡ self.old.blocks }
        ensures long { length self.new.numbers.items ≡ length self.old.numbers.items }
        ensures numbered { AreNumbered BASE self.new.blocks.by_page.items self.new.numbers.items first list.now }
        ensures others { (a : ℕ) → is_address BASE a ≡ true → HasBlock self.old.blocks.by_page.items self.old.blocks.words (page_in BASE a) → (Contains list.now a → ⊥)
            → number_of BASE self.new.blocks.by_page.items self.new.numbers.items a ≡ number_of BASE self.old.blocks.by_page.items self.old.numbers.items a }
    {
        for i in 0..list.len() {
            let slot = self.blocks.slot_of(list[i]);
            self.numbers[slot] = (first + i) as u32;
        }
    }

    /// The number of a word, or 0 for a word without one.
    pub(crate) fn number_of(&self, word: u64) -> usize
        ensures { result ≡ number_of BASE self.now.blocks.by_page.items self.now.numbers.items word }
    {
        match self.numbers.get(self.blocks.slot_of(word)) {
            Some(number) => *number as usize,
            None => 0,
        }
    }
}
