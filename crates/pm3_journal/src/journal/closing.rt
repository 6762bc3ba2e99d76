//! The end of a journal's records, once they are elsewhere.
ghost use Rattle.std.specs.Prelude.{◌≡◌, ◌<◌, ◌≤◌, ◌∷◌, false, [], length, option_map, OnOk, OnErr};
ghost use Rattle.pm3_disk.specs.Content.{IfTold, overwrite, TornWrite};
ghost use Rattle.pm3_disk.specs.Devices.{IsHonest, IsSynced, Leaves, LeavesOnly, MakesAtMost, Takes};
ghost use Rattle.pm3_disk.specs.Moments.{After};
ghost use Rattle.pm3_journal.specs.JournalState.{emptied, torn};
ghost use Rattle.pm3_journal.specs.Steps.{HasAllOrNone, HasNone};

use crate::earlier::Earlier;
use crate::faults::JournalFault;
use crate::journal::Journal;
use crate::sizes::HEAD_SIZE;
use pm3_disk::{Disk, write_through};

impl<D: Disk> Journal<D> {
    /// Closes the first gate, so that the journal has no entries. The number that is due stays. It takes no memory. After
    /// `JournalFault` the journal is stopped, and the device has all of the records or none.
    pub fn close_first_gate(&mut self) -> Result<(), JournalFault>
        requires some { 0 < length self.old.summaries }
        ensures emptied { OnOk result (self.new ≡ emptied (D.moment self.new.disk) self.new.disk self.old) }
        ensures bytes { OnOk result (D.content self.new.disk ≡ option_map (overwrite 32 (0 ∷ [])) (D.content self.old.disk)) }
        ensures none { OnOk result (Takes D.Disk self.old.disk self.new.disk HasNone) }
        ensures settled { OnOk result (IsSynced D.Disk self.new.disk) }
        ensures torn { OnErr result (self.new ≡ torn self.new.disk self.old) }
        ensures torn_write { OnErr result (Takes D.Disk self.old.disk self.new.disk (TornWrite 32 1)) }
        ensures part { self.old.is_torn ≡ false → OnErr result (Takes D.Disk self.old.disk self.new.disk HasAllOrNone) }
        ensures crash_write { Leaves D.Disk self.old.disk self.new.disk (TornWrite 32 1) }
        ensures crash { self.old.is_torn ≡ false → LeavesOnly D.Disk self.old.disk self.new.disk
            (λ left. IfTold (D.content self.old.disk) (λ _. After (D.may_leave self.old.disk (D.moment self.old.disk)) HasAllOrNone left)) }
        ensures single { MakesAtMost D.Disk 2 self.old.disk self.new.disk }
        ensures cause { IsHonest D.Disk self.old.disk self.new.disk result }
    {
        // Synced before the answer: the store's next records are written over these, and its page file stands alone.
        let Ok(()) = write_through(&mut self.disk, HEAD_SIZE, &[0]) else {
            self.stopped = self.stopped.or(Some(self.next));
            self.is_torn = true;
            return Err(JournalFault);
        };
        self.entries.clear();
        self.end = HEAD_SIZE;
        self.is_closed = true;
        self.is_torn = false;
        self.failed = None;
        self.since = Earlier::of(&self.disk);
        Ok(())
    }

    /// Sets the number that is due, of a journal without records. A store goes on with the numbers of its page file, so
    /// that none comes twice.
    pub fn start_at(&mut self, seq: u64)
        requires none { self.old.summaries ≡ [] }
        requires positive { 1 ≤ seq }
        ensures { self.new ≡ record self.old { next = seq } }
    {
        self.next = seq;
    }
}
