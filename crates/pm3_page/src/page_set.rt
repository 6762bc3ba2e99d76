//! Sets of page numbers.
ghost use Rattle.std.specs.Prelude.{◌≡◌, ℕ, ◌<◌, ◌≤◌, ◌↔◌, IsTrue, IfSome, IsOk, OnOk, OnErr};
ghost use Rattle.std.specs.FinSet as set;
ghost use Rattle.pm3_page.specs.Next.{IsNext};

use crate::addresses::PageNo;
use crate::bits::Bits;
use pm3_types::Memory;
use std::alloc::Global;
use std::marker::Model;

/// A set of page numbers, each below 16,384.
#[derive(Debug, Drop)]
pub struct PageSet {
    bits: Bits,
    count: u32,
}

impl Model for PageSet {
    ghost use Rattle.std.specs.Prelude.{◌≡◌, ◌≤◌, length};
    ghost use Rattle.std.specs.Ordering.{nat_cmp};
    ghost use Rattle.std.specs.FinSet as set;
    ghost use Rattle.std.specs.Coded.{coded_ℕ};
    ghost use Rattle.pm3_page.specs.Bits.{pages_of};

    ghost Value = { set.FinSet nat_cmp };

    ghost coded = { set.code coded_ℕ };

    ghost view = { λ s. pages_of s.bits.words.items };

    ghost invariant = { λ s. (length s.bits.words.items ≤ 256) × (s.count ≡ set.len (pages_of s.bits.words.items)) };
}

impl PageSet {
    /// A set without pages. It takes memory from `alloc` once a page is added.
    pub fn new(alloc: Global) -> PageSet
        ensures { result ≡ set.empty }
    {
        PageSet {
            bits: Bits::new(alloc),
            count: 0,
        }
    }

    /// The number of pages.
    pub fn len(&self) -> u32
        ensures count { result ≡ set.len self.now }
        ensures few { result ≤ 16384 }
    {
        self.count
    }

    /// Whether there is no page.
    pub fn is_empty(&self) -> bool
        ensures { IsTrue result ↔ (self.now ≡ set.empty) }
    {
        self.count == 0
    }

    /// Whether a page is in the set.
    pub fn has(&self, page: PageNo) -> bool
        ensures { result ≡ set.contains self.now page }
    {
        self.bits.has(page)
    }

    /// Adds a page. For a page that is there already it does nothing. After a refusal the set is as it was.
    pub fn add(&mut self, page: PageNo) -> Result<(), Memory>
        requires { page < 16384 }
        ensures added { OnOk result (self.new ≡ set.insert self.old page) }
        ensures refused { OnErr result (self.new ≡ self.old) }
        ensures there { IsTrue (set.contains self.old page) → IsOk result }
    {
        if self.bits.has(page) {
            return Ok(());
        }
        let Ok(()) = self.bits.grow(page) else {
            return Err(Memory);
        };
        self.bits.set(page);
        self.count += 1;
        Ok(())
    }

    /// The least page of the set from `start` on, or None exactly where there is none.
    pub fn next(&self, start: PageNo) -> Option<PageNo>
        ensures next { IsNext (set.contains self.now) start result }
        ensures within { IfSome result (λ page. page < 16384) }
    {
        self.bits.next(start)
    }
}
