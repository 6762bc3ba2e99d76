//! The objects that were met, with their numbers.
ghost use Rattle.std.specs.Prelude.{◌≡◌, ◌^◌, ◌<◌, [], ◌∷◌, ◌++◌, length, slice_get, true, false, IfSome, OnOk, OnErr};
ghost use Rattle.pm3_core.specs.declared.naming.TheConstants.{BASE};
ghost use Rattle.pm3_types.specs.Layout.{is_address};
ghost use Rattle.pm3_types.specs.Numbering.{is_among, number_of};

use crate::tables::Tables;
use pm3_page::{Addr, page_within};
use pm3_types::Memory;
use std::alloc::Global;
use std::marker::Model;

/// The addresses of the objects that were met, each once, in the order in which they were. The first has the number 1.
#[derive(Drop)]
pub(crate) struct Met {
    order: Vec<Addr>,
    tables: Tables,
}

impl Model for Met {
    ghost use Rattle.std.specs.Prelude.{ℕ, List};
    ghost use Rattle.oo7_dump.specs.Numbers.{AreNumbers};

    ghost Value = { List ℕ };

    ghost view = { λ m. m.order.items };

    ghost invariant = { λ m. AreNumbers m.tables.ends.items m.tables.numbers.items m.order.items };
}

impl Met {
    /// No object was met.
    pub(crate) fn new(alloc: Global) -> Met
        ensures { result ≡ [] }
    {
        Met {
            order: Vec::new(alloc),
            tables: Tables::new(alloc),
        }
    }

    /// How many objects were met.
    pub(crate) fn len(&self) -> usize
        ensures { result ≡ length self.now }
    {
        self.order.len()
    }

    /// The address of an object by its place in the order, or None exactly where fewer were met.
    pub(crate) fn at(&self, place: usize) -> Option<Addr>
        ensures at { result ≡ slice_get self.now place }
        ensures low { IfSome result (λ _. place < 2 ^ 63) }
    {
        self.order.get(place).copied()
    }

    /// The number of the object at an address, or None exactly where it wasn't met.
    pub(crate) fn number(&self, at: Addr) -> Option<u32>
        ensures { result ≡ number_of self.now at }
    {
        self.tables.number(at)
    }

    /// Whether the object at an address was met.
    pub(crate) fn has(&self, at: Addr) -> bool
        ensures { result ≡ is_among self.now at }
    {
        self.number(at).is_some()
    }

    /// Adds an object that wasn't met before. After a refusal all is as it was.
    pub(crate) fn add(&mut self, at: Addr) -> Result<(), Memory>
        requires new { is_among self.old at ≡ false }
        requires address { is_address BASE at ≡ true }
        ensures added { OnOk result (self.new ≡ self.old ++ at ∷ []) }
        ensures refused { OnErr result (self.new ≡ self.old) }
    {
        let Ok(()) = self.order.reserve(1) else {
            return Err(Memory);
        };
        let number = self.order.len() as u64 + 1;
        if number > MOST_NUMBERS {
            return Err(Memory);
        }
        match self.tables.make(page_within(at) as usize) {
            Ok(()) => {}
            Err(Memory) => return Err(Memory),
        }
        self.tables.set(at, number as u32);
        let Ok(()) = self.order.push(at) else {
            unreachable!()
        };
        Ok(())
    }
}

/// The numbers that a table can hold.
const MOST_NUMBERS: u64 = 0xffff_ffff;
