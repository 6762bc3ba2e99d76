//! One step for each kind of event.

ghost use Rattle.std.specs.Prelude.{◌≡◌, true, ◌<◌, IfOk, OnErr, SomeIff, IfSome, IsTrue, ◌↔◌};
ghost use Rattle.pm3_core.specs.Machine.{admits, spot};
ghost use Rattle.pm3_core.specs.declared.events.Event.TheVariants.{Store, Validate, Clear, Mark, Read, Move, Unmark};
ghost use Rattle.pm3_core.specs.Snapshot.{Answers, AsksMemory, state_of};

use super::Core;
use crate::events::{Memory, PLACES, ROW_PLACES, ROWS, Stepped};
use crate::naming::page_of;

impl Core {
    /// A word is stored. Its place does not stand until it is validated.
    pub(super) fn store(&mut self, who: u32, place: u32, word: u64) -> Stepped
        ensures answer { Answers self.old (Store who place word) result self.new }
        ensures pages { self.new.pages ≡ self.old.pages }
    {
        let Some(at) = spot_of(who, place) else {
            return Stepped::Refused;
        };
        self.words[at] = word;
        self.stands[at] = false;
        Stepped::Done
    }

    /// The page that a word names is looked up. The place stands where it has no mark.
    pub(super) fn validate(&mut self, who: u32, place: u32) -> Stepped
        ensures answer { Answers self.old (Validate who place) result self.new }
        ensures pages { self.new.pages ≡ self.old.pages }
    {
        let Some(at) = spot_of(who, place) else {
            return Stepped::Refused;
        };
        if let Some(page) = page_of(self.words[at], self.pages) {
            if self.marks.marker(page).is_none() {
                self.stands[at] = true;
            }
        }
        Stepped::Done
    }

    /// A place is set to 0.
    pub(super) fn clear(&mut self, who: u32, place: u32) -> Stepped
        ensures answer { Answers self.old (Clear who place) result self.new }
        ensures pages { self.new.pages ≡ self.old.pages }
    {
        self.store(who, place, 0)
    }

    /// A page gets a mark, and no place is read off for it yet.
    pub(super) fn mark(&mut self, who: u32, page: u32) -> Result<Stepped, Memory>
        ensures answer { IfOk result (λ answer. Answers self.old (Mark who page) answer self.new) }
        ensures pages { self.new.pages ≡ self.old.pages }
        ensures err { OnErr result (self.new ≡ self.old) }
        ensures memory { OnErr result (AsksMemory self.old (Mark who page)) }
    {
        if who >= ROWS || page >= self.pages {
            return Ok(Stepped::Refused);
        }
        if self.marks.marker(page).is_some() {
            return Ok(Stepped::Refused);
        }
        let Ok(()) = self.marks.mark(self.alloc, page, who) else {
            return Err(Memory);
        };
        Ok(Stepped::Done)
    }

    /// A place is read: it is read off for the pages that its reader marks, but for the one that its word names.
    pub(super) fn read(&mut self, who: u32, row: u32, place: u32) -> Stepped
        ensures answer { Answers self.old (Read who row place) result self.new }
        ensures pages { self.new.pages ≡ self.old.pages }
    {
        if who >= ROWS {
            return Stepped::Refused;
        }
        let Some(at) = spot_of(row, place) else {
            return Stepped::Refused;
        };
        let named = page_of(self.words[at], self.pages);
        self.marks.read_off(who, at, named);
        Stepped::Done
    }

    /// A page is moved from, which is a step once all places are read off for it.
    pub(super) fn move_page(&mut self, who: u32, page: u32) -> Stepped
        ensures answer { Answers self.old (Move who page) result self.new }
        ensures pages { self.new.pages ≡ self.old.pages }
    {
        if self.marks_page(who, page) && self.marks.is_whole(page) {
            Stepped::Done
        } else {
            Stepped::Refused
        }
    }

    /// A mark is taken off.
    pub(super) fn unmark(&mut self, who: u32, page: u32) -> Stepped
        ensures answer { Answers self.old (Unmark who page) result self.new }
        ensures pages { self.new.pages ≡ self.old.pages }
    {
        if !self.marks_page(who, page) {
            return Stepped::Refused;
        }
        self.marks.unmark(page);
        Stepped::Done
    }

    /// Whether there is such a mutator and such a page, and the one marks the other.
    fn marks_page(&self, who: u32, page: u32) -> bool
        ensures { IsTrue result ↔ (admits self.now.pages (state_of self.now) (Unmark who page) ≡ true) }
    {
        who < ROWS && page < self.pages && self.marks.marker(page) == Some(who)
    }
}

/// The number of a place over all rows.
fn spot_of(row: u32, place: u32) -> Option<usize>
    ensures found { SomeIff result ((row < ROWS) × (place < ROW_PLACES)) (spot row place) }
    ensures below { IfSome result (λ at. at < PLACES) }
{
    if row < ROWS && place < ROW_PLACES {
        Some((ROW_PLACES * row + place) as usize)
    } else {
        None
    }
}
