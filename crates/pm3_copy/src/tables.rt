//! The new addresses of the objects that move.
ghost use Rattle.std.specs.Prelude.{◌≡◌, ◌<◌, length, slice_index};
ghost use Rattle.std.specs.List.{Contains};
ghost use Rattle.pm3_types.specs.PassMoves.{IsRising};
ghost use Rattle.pm3_copy.specs.Tables.{new_address, follows, AreTables};

use crate::index::Index;
use pm3_page::{Addr, BASE};

/// The addresses of objects that move, in rising order, and their new addresses.
#[derive(Debug, Drop)]
pub(crate) struct Table {
    pub(crate) olds: Vec<Addr>,
    pub(crate) news: Vec<Addr>,
}

/// The moves to persistent pages, and those to pages of the space, with an index of the old addresses: those of the second are
/// numbered behind those of the first.
#[derive(Debug, Drop)]
pub(crate) struct Tables {
    pub(crate) promoted: Table,
    pub(crate) kept: Table,
    pub(crate) index: Index,
}

impl Table {
    /// Where what is at this address goes, if the object with this number moves from there, and else the address.
    fn partner(&self, number: usize, word: u64) -> u64
        requires numbered { Contains self.now.olds.items word → (number < length self.now.olds.items) × (slice_index self.now.olds.items number ≡ word) }
        requires rising { IsRising self.now.olds.items }
        requires whole { length self.now.news.items ≡ length self.now.olds.items }
        ensures { result ≡ new_address self.now.olds.items self.now.news.items word }
    {
        if number < self.olds.len() && self.olds[number] == word {
            return self.news[number];
        }
        word
    }
}

impl Tables {
    /// The new address of what is at this one: another exactly where it is that of an object that moves.
    pub(crate) fn follow(&self, word: u64) -> u64
        requires { AreTables BASE self.now }
        ensures { result ≡ follows self.now word }
    {
        let number = self.index.number_of(word);
        let first = self.promoted.olds.len();
        if number < first {
            return self.promoted.partner(number, word);
        }
        self.kept.partner(number - first, word)
    }
}
