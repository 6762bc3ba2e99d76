//! The values of the table's slots.
ghost use Rattle.std.specs.Prelude.{◌≡◌, ℕ, IsTrue, List, Some};
ghost use Rattle.pm3_history.specs.Entry.{Done};
ghost use Rattle.pm3_table.specs.declared.view.Told.{Told};
ghost use Rattle.pm3_table.specs.Words.{turn_unit};
ghost use Rattle.pm3_txn.specs.Draining.{is_turn};
ghost use Rattle.pm3_txn.specs.Framed.{alike, framed};
ghost use Rattle.pm3_txn.specs.Slots.{faults_in, opening_in, pages_in, stands_for};

use pm3_access::Space;
use pm3_disk::Disk;
use pm3_journal::{Earlier, Journal, Opened};
use pm3_page::Image;
use pm3_table::Chronicle;

/// What goes with the turn to commit.
#[derive(Drop)]
pub struct Turn<D: Disk> {
    /// The journal, which has the records of the history behind those that were opened.
    pub journal: Journal<D>,
    /// The next name and the high page with which the next commit begins.
    pub next_name: u64,
    pub high_page: u32,
    /// The page file, on which no call is made until the heap is closed.
    pub file: D,
    /// The store as it was opened, for clauses alone.
    pub opened: Earlier<Opened<D>>,
}

/// The value of a unit: the image of a page, the volatile pages of a group, or what goes with the turn.
#[derive(Drop)]
pub enum Value<D: Disk> {
    Page(Image),
    Space(Space),
    Turn(Turn<D>),
}

impl<D: Disk> Chronicle for Value<D> {
    ghost stands = { λ told lost h u x. stands_for D.Disk told lost h u x };

    ghost opening = { λ x. opening_in D.Disk x };

    ghost spans = { λ x. pages_in x };

    ghost counted = { λ x. faults_in D.Disk x };

    fn is_turn(&self) -> bool
        ensures turn { IsTrue result → (told : Told) (lost h : List Done) (u : ℕ) → stands_for D.Disk told lost h u self.now → u ≡ turn_unit told.pages }
        ensures exact { result ≡ is_turn (Some self.now) }
    {
        matches!(self, Value::Turn(_))
    }

    ghost frame = { λ told lost h e u x free is. framed _ told lost h e u x free is };

    ghost alike = { λ told lost more h u x apart is. alike _ told lost more h u x apart is };
}
