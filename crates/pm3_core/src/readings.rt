//! The mark of one page: who made it, and the places read off since.

ghost use Rattle.std.specs.Prelude.{◌≡◌, ◌↔◌, ℕ, true, false, ◌<◌, slice_set, slice_index_or, IfOk, IsTrue};
ghost use Rattle.pm3_core.specs.Snapshot.{Marking, fresh};

use crate::events::PLACES;
use std::alloc::{AllocError, Global};
use std::marker::Model;

/// The mark of a page.
#[derive(Drop)]
pub(crate) struct Reading {
    /// Who made the mark.
    who: u32,
    /// Of each place, whether it was read off since.
    read: Vec<bool>,
    /// How many places were not.
    left: usize,
}

impl Model for Reading {
    ghost use Rattle.std.specs.Prelude.{◌≡◌, length, not};
    ghost use Rattle.std.specs.List.{count_by};
    ghost use Rattle.pm3_core.specs.Snapshot.{Marking};
    ghost use Rattle.pm3_core.specs.declared.events.TheConstants.{PLACES};

    ghost Value = { Marking };

    ghost view = { λ r. record { by = r.who; read = r.read.items } };

    ghost invariant = { λ r. (length r.read.items ≡ PLACES) × (r.left ≡ count_by not r.read.items) };
}

impl Reading {
    /// The mark of `who`, with no place read off.
    pub(crate) fn begin(alloc: Global, who: u32) -> Result<Self, AllocError>
        ensures { IfOk result (λ reading. reading ≡ fresh who) }
    {
        let read = vec![in alloc; false; PLACES]?;
        Ok(Reading {
            who,
            read,
            left: PLACES,
        })
    }

    /// The mutator whose mark it is.
    pub(crate) fn who(&self) -> u32
        ensures { result ≡ self.now.by }
    {
        self.who
    }

    /// Reads off a place.
    pub(crate) fn add(&mut self, place: usize)
        requires { place < PLACES }
        ensures { self.new ≡ record { by = self.old.by; read = slice_set self.old.read place true } }
    {
        if !self.read[place] {
            self.read[place] = true;
            self.left -= 1;
        }
    }

    /// Whether each place is read off.
    pub(crate) fn is_whole(&self) -> bool
        ensures { IsTrue result ↔ ((n : ℕ) → n < PLACES → slice_index_or self.now.read n false ≡ true) }
    {
        self.left == 0
    }
}
