//! Page numbers as bits, 64 to a word.
ghost use Rattle.std.specs.Prelude.{◌≡◌, ℕ, ◌+◌, ◌*◌, ◌<◌, ◌≤◌, ◌==◌, ◌&&◌, ◌||◌, not, [], length, IfSome, OnOk};
ghost use Rattle.std.specs.Int.{bit_at};
ghost use Rattle.pm3_page.specs.Bits.{has_bit};
ghost use Rattle.pm3_page.specs.Next.{IsNext};

use crate::addresses::PageNo;
use pm3_types::Memory;
use std::alloc::Global;

/// A set of page numbers as bits: 64 to a word, the lowest number in the lowest bit. Pages past the last word are not in it.
#[derive(Debug, Drop)]
pub(crate) struct Bits {
    words: Vec<u64>,
}

impl Bits {
    /// No bits.
    pub(crate) fn new(alloc: Global) -> Bits
        ensures none { result.words.items ≡ [] }
    {
        Bits {
            words: Vec::new(alloc),
        }
    }

    /// Whether the bit of a page is set.
    pub(crate) fn has(&self, page: PageNo) -> bool
        ensures { result ≡ has_bit self.now.words.items page }
    {
        match self.words.get((page / 64) as usize) {
            Some(word) => (*word >> (page % 64)) & 1 == 1,
            None => false,
        }
    }

    /// Makes words for the pages up to this one.
    pub(crate) fn grow(&mut self, page: PageNo) -> Result<(), Memory>
        ensures same { (q : ℕ) → has_bit self.new.words.items q ≡ has_bit self.old.words.items q }
        ensures long { OnOk result (page < 64 * length self.new.words.items) }
        ensures kept { length self.old.words.items ≤ length self.new.words.items }
        ensures short { page < 64 * 256 → length self.old.words.items ≤ 256 → length self.new.words.items ≤ 256 }
    {
        let len = (page / 64) as usize + 1;
        if self.words.len() >= len {
            return Ok(());
        }
        let Ok(()) = self.words.resize(len, 0) else {
            return Err(Memory);
        };
        Ok(())
    }

    /// Sets the bit of a page.
    pub(crate) fn set(&mut self, page: PageNo)
        requires { page < 64 * length self.old.words.items }
        ensures set { (q : ℕ) → has_bit self.new.words.items q ≡ (q == page || has_bit self.old.words.items q) }
        ensures long { length self.new.words.items ≡ length self.old.words.items }
    {
        self.words[(page / 64) as usize] |= 1 << (page % 64);
    }

    /// Clears the bit of a page.
    pub(crate) fn clear(&mut self, page: PageNo)
        requires { page < 64 * length self.old.words.items }
        ensures cleared { (q : ℕ) → has_bit self.new.words.items q ≡ (not (q == page) && has_bit self.old.words.items q) }
        ensures long { length self.new.words.items ≡ length self.old.words.items }
    {
        self.words[(page / 64) as usize] &= !(1 << (page % 64));
    }

    /// The least page from `start` on whose bit is set.
    pub(crate) fn next(&self, start: PageNo) -> Option<PageNo>
        requires { length self.now.words.items ≤ 256 }
        ensures next { IsNext (has_bit self.now.words.items) start result }
        ensures within { IfSome result (λ page. page < 16384) }
    {
        next_bit(&self.words, start)
    }
}

/// The least number from `start` on whose bit is set in these words.
pub(crate) fn next_bit(words: &[u64], start: u32) -> Option<u32>
    requires { length words.now ≤ 256 }
    ensures next { IsNext (has_bit words.now) start result }
    ensures within { IfSome result (λ number. number < 64 * length words.now) }
{
    let mut low = start % 64;
    for i in (start / 64) as usize..words.len() {
        if let Some(bit) = lowest(words[i], low) {
            return Some(64 * i as u32 + bit);
        }
        low = 0;
    }
    None
}

/// The lowest bit of a word from `low` on that is set.
fn lowest(word: u64, low: u32) -> Option<u32>
    requires { low < 64 }
    ensures next { IsNext (λ k. bit_at word k == 1) low result }
    ensures small { IfSome result (λ bit. bit < 64) }
{
    let rest = word >> low;
    if rest == 0 {
        return None;
    }
    Some(low + rest.trailing_zeros())
}
