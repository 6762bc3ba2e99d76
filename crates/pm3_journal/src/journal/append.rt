//! A record more.
ghost use Rattle.std.specs.Prelude.{◌≡◌, ◌+◌, ◌^◌, ◌<◌, ◌≤◌, ◌↔◌, ◌⊎◌, if◌then◌else◌, ℕ, length, option_map, Some, None, IfOk, OnOk, OnErr, IsErrOf};
ghost use Rattle.pm3_disk.specs.Devices.{HasFailed, HasNotFailed, IsSynced, LeavesFromTold, MakesAtMost, Takes};
ghost use Rattle.pm3_journal.specs.Entered.{record_of};
ghost use Rattle.pm3_journal.specs.Format.{appended_bytes, IsFit, record_size};
ghost use Rattle.pm3_journal.specs.Gates.{AppendLeaves, entered};
ghost use Rattle.pm3_journal.specs.JournalState.{grown, halted, HasRoom};
ghost use Rattle.pm3_journal.specs.Steps.{HasMaybeOneMore, HasOneMore};

use crate::earlier::Earlier;
use crate::encoding::encode;
use crate::entry::{Entry, Receipt};
use crate::faults::AppendFault;
use crate::gate::append_body;
use crate::journal::{FailedAppend, Journal};
use crate::record_front::successor;
use crate::sizes::{FRONT_SIZE, GATE_SIZE, LIMIT, PART_SIZE};
use crate::summary::summarize;
use pm3_disk::{Disk, Memory};
use std::mem;

/// How many bytes the record of an entry has.
fn size_of_record(seq: u64, entry: &Entry) -> u64
    requires { length entry.now.pages.items < 2 ^ 32 }
    ensures size { result ≡ record_size (record_of seq entry.now) }
    ensures small { result < 2 ^ 45 }
{
    FRONT_SIZE + PART_SIZE * entry.pages.len() as u64
}

impl<D: Disk> Journal<D> {
    /// Makes room, so that the next append of at most so many pages takes no memory.
    pub fn reserve(&mut self, pages: u32) -> Result<(), Memory>
        ensures room { OnOk result (self.new ≡ record self.old { room = Some pages }) }
        ensures none { OnErr result (self.new ≡ record self.old { room = None }) }
    {
        self.room = None;
        self.buffer.clear();
        self.buffer.reserve(55 + 4104 * pages as usize)?;
        self.numbers.clear();
        self.numbers.reserve(pages as usize)?;
        self.entries.reserve()?;
        self.room = Some(pages);
        Ok(())
    }

    /// Adds a record. It takes no memory, as far as `reserve` made room, and uses that room up where it answers a receipt.
    /// From the receipt on each crash leaves the record. After `JournalFault` the journal is stopped.
    pub fn append(&mut self, entry: &Entry) -> Result<Receipt, AppendFault>
        requires room { HasRoom self.old.room (length entry.now.pages.items) }
        requires fit { IsFit self.old.pages (record_of self.old.next entry.now) }
        ensures receipt { IfOk result (λ receipt. receipt
            ≡ record { seq = self.old.next; pinned = entry.now.pins; moved = entry.now.moved }) }
        ensures grown { OnOk result (self.new ≡ grown (record_of self.old.next entry.now) self.new.disk self.old) }
        ensures bytes { OnOk result (D.content self.new.disk
            ≡ option_map (entered self.old.end (appended_bytes (record_of self.old.next entry.now))) (D.content self.old.disk)) }
        ensures added { OnOk result (Takes D.Disk self.old.disk self.new.disk (HasOneMore (record_of self.old.next entry.now))) }
        ensures settled { OnOk result (IsSynced D.Disk self.new.disk) }
        ensures crash { LeavesFromTold D.Disk self.old.disk self.new.disk (HasMaybeOneMore (record_of self.old.next entry.now)) }
        ensures single { MakesAtMost D.Disk (if self.old.is_closed then 4 else 6) self.old.disk self.new.disk }
        ensures stopped { (seq : ℕ) → IsErrOf result (AppendFault.Stopped seq) ↔ (self.old.stopped ≡ Some seq) }
        ensures full { (limit : ℕ) → IsErrOf result (AppendFault.Full limit)
            ↔ ((self.old.stopped ≡ None) × (limit ≡ 2 ^ 30)
            × (2 ^ 30 < self.old.end + record_size (record_of self.old.next entry.now) + 8)) }
        ensures refused { OnErr result (IsErrOf result AppendFault.JournalFault ⊎ (self.new ≡ self.old)) }
        ensures halted { IsErrOf result AppendFault.JournalFault
            → self.new ≡ halted (record_of self.old.next entry.now) self.new.disk self.old }
        ensures torn { IsErrOf result AppendFault.JournalFault
            → Takes D.Disk self.old.disk self.new.disk
            (AppendLeaves self.old.end self.old.is_closed (appended_bytes (record_of self.old.next entry.now))) }
        ensures part { IsErrOf result AppendFault.JournalFault
            → Takes D.Disk self.old.disk self.new.disk (HasMaybeOneMore (record_of self.old.next entry.now)) }
        ensures fault { IsErrOf result AppendFault.JournalFault → HasFailed D.Disk self.old.disk self.new.disk }
        ensures later { D.faults self.old.disk ≤ D.faults self.new.disk }
        ensures honest { OnOk result (HasNotFailed D.Disk self.old.disk self.new.disk) }
    {
        if let Some(seq) = self.stopped {
            return Err(AppendFault::Stopped { seq });
        }
        let seq = self.next;
        let size = size_of_record(seq, entry);
        if self.end > LIMIT || self.end + size + GATE_SIZE > LIMIT {
            return Err(AppendFault::Full { limit: LIMIT });
        }
        encode(&mut self.buffer, seq, entry);
        let Ok(()) = append_body(&mut self.disk, self.end, self.is_closed, &self.buffer) else {
            let entry = Earlier::of(entry);
            self.stopped = Some(seq);
            self.failed = Some(FailedAppend { seq, entry });
            return Err(AppendFault::JournalFault);
        };
        let alloc = *self.numbers.allocator();
        let numbers = mem::replace(&mut self.numbers, Vec::new(alloc));
        self.entries.add(summarize(numbers, seq, entry));
        self.end += size;
        self.next = successor(seq);
        self.is_closed = true;
        self.room = None;
        Ok(Receipt {
            seq,
            pinned: entry.pins,
            moved: entry.moved,
        })
    }
}
