//! The machine as a program.

ghost use Rattle.std.specs.Prelude.{◌≡◌, IfOk, OnErr};

use crate::events::{Event, Memory, PLACES, Stepped};
use crate::page_marks::PageMarks;
use std::alloc::Global;
use std::marker::Model;

mod steps;

/// The pinning machine over a number of pages: 32 rows of 512 words, and the marks of the pages.
#[derive(Drop)]
pub struct Core {
    alloc: Global,
    /// How many pages the store has.
    pages: u32,
    /// The words of all rows, one row after another.
    words: Vec<u64>,
    /// Of each word, whether its place stands.
    stands: Vec<bool>,
    /// The marked pages, and what was read since.
    marks: PageMarks,
}

impl Model for Core {
    ghost use Rattle.pm3_core.specs.Snapshot.{Snapshot, snapshot, IsSound};

    ghost Value = { Snapshot };

    ghost view = { λ c. snapshot c.pages c.words.items c.stands.items c.marks };

    ghost invariant = { λ c. IsSound (snapshot c.pages c.words.items c.stands.items c.marks) };
}

impl Core {
    ghost use Rattle.pm3_core.specs.Machine.{opening};
    ghost use Rattle.pm3_core.specs.Snapshot.{Answers, AsksMemory, state_of};

    /// The opening state: each word is 0, none stands, and no page is marked.
    pub fn new(alloc: Global, pages: u32) -> Result<Self, Memory>
        ensures pages { IfOk result (λ core. core.pages ≡ pages) }
        ensures opening { IfOk result (λ core. state_of core ≡ opening) }
    {
        Ok(Core {
            alloc,
            pages,
            words: vec![in alloc; 0u64; PLACES]?,
            stands: vec![in alloc; false; PLACES]?,
            marks: PageMarks::new(alloc, pages)?,
        })
    }

    /// Takes the event as a step of the machine, or refuses it where it is none.
    pub fn step(&mut self, event: Event) -> Result<Stepped, Memory>
        ensures answer { IfOk result (λ answer. Answers self.old event answer self.new) }
        ensures pages { self.new.pages ≡ self.old.pages }
        ensures err { OnErr result (self.new ≡ self.old) }
        ensures memory { OnErr result (AsksMemory self.old event) }
    {
        match event {
            Event::Store { who, place, word } => Ok(self.store(who, place, word)),
            Event::Validate { who, place } => Ok(self.validate(who, place)),
            Event::Clear { who, place } => Ok(self.clear(who, place)),
            Event::Mark { who, page } => self.mark(who, page),
            Event::Read { who, row, place } => Ok(self.read(who, row, place)),
            Event::Move { who, page } => Ok(self.move_page(who, page)),
            Event::Unmark { who, page } => Ok(self.unmark(who, page)),
        }
    }
}
