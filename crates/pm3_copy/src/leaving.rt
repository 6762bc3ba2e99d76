//! Objects that are to move.
ghost use Rattle.std.specs.Prelude.{◌≡◌, ◌≤◌, [], length, vec_capacity, IfOk};

use crate::tables::Table;
use pm3_page::Addr;
use pm3_types::Memory;
use std::marker::Model;

/// Objects that are to move, and the room for their new addresses: to move them takes no memory.
#[derive(Debug, Drop)]
pub(crate) struct Leaving {
    olds: Vec<Addr>,
    news: Vec<Addr>,
}

impl Model for Leaving {
    ghost use Rattle.std.specs.Prelude.{◌≡◌, ◌≤◌, ℕ, List, [], length, vec_capacity};
    ghost use Rattle.std.specs.Coded.{coded_ℕ, coded_list};

    ghost Value = { List ℕ };

    ghost coded = { coded_list coded_ℕ };

    ghost view = { λ l. l.olds.items };

    ghost invariant = { λ l. (l.news.items ≡ []) × (length l.olds.items ≤ vec_capacity l.news) };
}

impl Leaving {
    /// These objects.
    pub(crate) fn of(olds: Vec<Addr>) -> Result<Leaving, Memory>
        ensures { IfOk result (λ leaving. leaving ≡ olds.items) }
    {
        let mut news = Vec::new(*olds.allocator());
        let Ok(()) = news.reserve(olds.len()) else {
            return Err(Memory);
        };
        Ok(Leaving { olds, news })
    }

    /// The table of their moves, with none yet.
    pub(crate) fn begin(self) -> Table
        ensures olds { result.olds.items ≡ self }
        ensures news { result.news.items ≡ [] }
        ensures room { length self ≤ vec_capacity result.news }
    {
        Table {
            olds: self.olds,
            news: self.news,
        }
    }
}
