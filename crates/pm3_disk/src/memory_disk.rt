//! A disk in memory that records its calls.
ghost use Rattle.std.specs.Prelude.{◌≡◌, ◌+◌, ◌-◌, ◌^◌, ◌<◌, ◌≤◌, ◌↔◌, [], ◌∷◌, length, take, min, true, false, Some, option_map, IsTrue, Contains, IfOk, OnOk, OnErr};
ghost use Rattle.pm3_disk.specs.Content.{IfTold, IsRead, overwrite, Steps, TornCut, TornWrite, Unchanged};
ghost use Rattle.pm3_disk.specs.Crash.{left_after, oldest};
ghost use Rattle.pm3_disk.specs.Faults.{HasCause, Rose};
ghost use Rattle.pm3_disk.specs.Moments.{After, IsSettled, Passes};
ghost use Rattle.pm3_disk.specs.Plan.{raised};
ghost use Rattle.pm3_disk.specs.Recording.{content_of, moment_of, may_leave_of, done, starved, IsRecorded};
ghost use Rattle.pm3_disk.specs.Replay.{content_after};
ghost use Rattle.pm3_disk.specs.Reading.{leaves_what_it_reads};

use crate::Memory;
use crate::bytes::Bytes;
use crate::call::Call;
use crate::copies::{copy_out, is_listed, part_of};
use crate::crash::left_by;
use crate::history::History;
use crate::medium::Medium;
use crate::memory_reader::MemoryReader;
use crate::outside::{Disk, Failed};
use std::alloc::Global;
use std::marker::Model;

/// A disk that keeps its bytes in memory and a record of its calls, and fails at the calls of a list.
///
/// Each call but `absorb` is numbered, from 0 on. A call whose number is in the list fails: a write then writes
/// the first half of its bytes, and each other call does nothing. A call that wants memory fails too. It does
/// nothing, has no number and isn't recorded. A call after 2^32 - 1 calls counts as one that wants memory.
#[derive(Drop)]
pub struct MemoryDisk {
    alloc: Global,
    /// The bytes at first and now.
    medium: Medium,
    /// The calls that were recorded.
    history: History,
    /// The numbers of the calls that fail.
    fails: Vec<u32>,
    /// How many calls have failed, those of readers that came back among them.
    faults: u64,
    /// How many of these were for want of memory.
    wanted: u32,
}

impl Model for MemoryDisk {
    ghost use Rattle.std.specs.Prelude.{◌≡◌};
    ghost use Rattle.pm3_disk.specs.Recording.{Recording};
    ghost use Rattle.pm3_disk.specs.Replay.{content_after};

    ghost Value = { Recording };

    ghost view = { λ d. record { began = d.medium.began; calls = d.history.calls; fails = d.fails.items; faults = d.faults; wanted = d.wanted } };

    ghost invariant = { λ d. d.medium.present ≡ content_after d.medium.began d.history.calls };
}

impl MemoryDisk {
    /// A disk with these bytes, whose calls with the numbers in `fails` fail.
    pub fn new(alloc: Global, content: Vec<u8>, fails: Vec<u32>) -> MemoryDisk
        ensures { result ≡ record { began = content.items; calls = []; fails = fails.items; faults = 0; wanted = 0 } }
    {
        MemoryDisk {
            alloc,
            medium: Medium::new(alloc, content),
            history: History::new(alloc),
            fails,
            faults: 0,
            wanted: 0,
        }
    }

    /// The bytes, as a read gives them.
    pub fn bytes(&self) -> &[u8]
        ensures { Some result.now ≡ content_of self.now }
    {
        self.medium.bytes()
    }

    /// How many calls were made and recorded.
    pub fn calls(&self) -> u32
        ensures { result ≡ length self.now.calls }
    {
        self.history.len()
    }

    /// How many calls failed for want of memory, or 2^32 - 1 where there are more.
    pub fn wanted(&self) -> u32
        ensures { result ≡ self.now.wanted }
    {
        self.wanted
    }

    /// A disk with the bytes that a crash in the call of this number leaves, and no call. Each write since the last
    /// sync that succeeded has two bits of `choice`, the first the lowest and after 32 writes the same again: 0 is
    /// written, 1 not written, 2 the first half, 3 every byte 1. A write past the end of what the earlier ones
    /// left is left out, and a cut is done. `call` is below the number of calls.
    pub fn crash(&self, call: u32, choice: u64) -> Result<MemoryDisk, Memory>
        requires { call < length self.now.calls }
        ensures left { IfOk result (λ disk. may_leave_of self.now (call + 1) disk.began) }
        ensures which { IfOk result (λ disk. disk ≡ record { began = left_after choice self.now.began (oldest (call + 1) self.now.calls); calls = []; fails = []; faults = 0; wanted = 0 }) }
    {
        let calls = self.history.up_to(call);
        let left = left_by(self.alloc, self.medium.began(), calls, choice)?;
        Ok(MemoryDisk::new(self.alloc, left, Vec::new(self.alloc)))
    }

    /// Whether the next call is one that fails.
    fn fails_next(&self) -> bool
        ensures { IsTrue result ↔ Contains self.now.fails (length self.now.calls) }
    {
        is_listed(&self.fails, u64::from(self.history.len()))
    }

    /// The numbers of the calls that fail.
    fn list(&self) -> &[u32]
        ensures { result.now ≡ self.now.fails }
    {
        self.fails.as_slice()
    }

    // Counts a fault of a call that was recorded.
    fn spoil(&mut self) -> Failed
        ensures spoilt { self.new ≡ record self.old { faults = raised self.old.faults } }
        ensures later { self.old.faults ≤ self.new.faults }
    {
        self.faults = self.faults.saturating_add(1);
        Failed
    }

    // Counts a fault of a call that wanted memory.
    fn starve(&mut self) -> Failed
        ensures starved { self.new ≡ starved self.old }
        ensures later { self.old.faults ≤ self.new.faults }
    {
        self.faults = self.faults.saturating_add(1);
        self.wanted = self.wanted.saturating_add(1);
        Failed
    }

    // Records a call that changes no byte.
    fn note(&mut self, call: Call) -> Result<(), Memory>
        requires { content_after self.old.began (call ∷ self.old.calls) ≡ content_after self.old.began self.old.calls }
        ensures noted { OnOk result (self.new ≡ done call self.old) }
        ensures err { OnErr result (self.new ≡ self.old) }
    {
        self.history.reserve()?;
        self.history.add(call);
        Ok(())
    }

    // Writes all bytes or the first half of them, and records it.
    fn put(&mut self, at: u64, bytes: &[u8], whole: bool) -> Result<(), Memory>
        requires { at ≤ length (content_after self.old.began self.old.calls) }
        ensures put { OnOk result (self.new ≡ done (Call.Wrote at bytes.now whole) self.old) }
        ensures err { OnErr result (self.new ≡ self.old) }
    {
        let copy = Bytes::copy_of(self.alloc, bytes)?;
        self.history.reserve()?;
        self.medium.write(at, part_of(bytes, whole))?;
        self.history.add(Call::Wrote {
            at,
            bytes: copy,
            whole,
        });
        Ok(())
    }

    // Leaves the first `len` bytes, and records it.
    fn shorten(&mut self, len: u64) -> Result<(), Memory>
        ensures shortened { OnOk result (self.new ≡ done (Call.Shortened len) self.old) }
        ensures err { OnErr result (self.new ≡ self.old) }
    {
        self.history.reserve()?;
        self.medium.cut(len)?;
        self.history.add(Call::Shortened { len });
        Ok(())
    }

    // A call that changes no byte and is recorded as `call` where it succeeds.
    fn look(&mut self) -> Result<(), Failed>
        ensures call { IsRecorded Call.Looked Call.Looked self.old self.new result }
        ensures later { self.old.faults ≤ self.new.faults }
    {
        let fails = self.fails_next();
        match self.note(Call::Looked) {
            Ok(()) if fails => Err(self.spoil()),
            Ok(()) => Ok(()),
            Err(Memory) => Err(self.starve()),
        }
    }

    /// A sync, which is recorded as a look where it fails.
    fn settle(&mut self) -> Result<(), Failed>
        ensures call { IsRecorded Call.Synced Call.Looked self.old self.new result }
        ensures later { self.old.faults ≤ self.new.faults }
    {
        if self.fails_next() {
            return self.look();
        }
        match self.note(Call::Synced) {
            Ok(()) => Ok(()),
            Err(Memory) => Err(self.starve()),
        }
    }

    /// A write, of the first half of the bytes where it fails.
    fn write(&mut self, at: u64, bytes: &[u8]) -> Result<(), Failed>
        requires { at ≤ length (content_after self.old.began self.old.calls) }
        ensures call { IsRecorded (Call.Wrote at bytes.now true) (Call.Wrote at bytes.now false) self.old self.new result }
        ensures later { self.old.faults ≤ self.new.faults }
    {
        if self.fails_next() {
            return match self.put(at, bytes, false) {
                Ok(()) => Err(self.spoil()),
                Err(Memory) => Err(self.starve()),
            };
        }
        match self.put(at, bytes, true) {
            Ok(()) => Ok(()),
            Err(Memory) => Err(self.starve()),
        }
    }

    /// A cut, which is recorded as a look where it fails.
    fn cut_to(&mut self, len: u64) -> Result<(), Failed>
        ensures call { IsRecorded (Call.Shortened len) Call.Looked self.old self.new result }
        ensures later { self.old.faults ≤ self.new.faults }
    {
        if self.fails_next() {
            return self.look();
        }
        match self.shorten(len) {
            Ok(()) => Ok(()),
            Err(Memory) => Err(self.starve()),
        }
    }

    /// A reader with a copy of the bytes, whose calls are numbered on from those of the disk.
    fn read_back(&mut self) -> Result<MemoryReader, Failed>
        ensures call { IsRecorded Call.Looked Call.Looked self.old self.new result }
        ensures later { self.old.faults ≤ self.new.faults }
        ensures reader { IfOk result (λ reader. (Some reader.content ≡ content_of self.old) × (reader.plan ≡ record { fails = self.old.fails; next = length self.old.calls + 1; faults = 0 })) }
    {
        let Ok(bytes) = Vec::from_slice(self.alloc, self.bytes()) else {
            return Err(self.starve());
        };
        let Ok(fails) = Vec::from_slice(self.alloc, self.list()) else {
            return Err(self.starve());
        };
        match self.look() {
            Ok(()) => Ok(MemoryReader::new(bytes, fails, self.calls())),
            Err(failed) => Err(failed),
        }
    }
}

impl Disk for MemoryDisk {
    type Reader = MemoryReader;

    ghost content = { content_of };

    ghost faults = { λ d. d.faults };

    ghost moment = { moment_of };

    ghost may_leave = { may_leave_of };

    fn len(&mut self) -> Result<u64, Failed>
        ensures len { IfOk result (λ len. IfTold (content_of self.old) (λ bytes. len ≡ length bytes)) }
        ensures same { content_of self.new ≡ content_of self.old }
        ensures crash { Passes (moment_of self.old) (moment_of self.new) (may_leave_of self.old) (may_leave_of self.new) (After (may_leave_of self.old (moment_of self.old)) Unchanged) }
        ensures single { moment_of self.new ≤ moment_of self.old + 1 }
        ensures cause { HasCause self.old.faults self.new.faults result }
        ensures call { IsRecorded Call.Looked Call.Looked self.old self.new result }
    {
        match self.look() {
            Ok(()) => Ok(self.bytes().len() as u64),
            Err(failed) => Err(failed),
        }
    }

    fn read_at(&mut self, at: u64, out: &mut [u8]) -> Result<usize, Failed>
        ensures bound { IfOk result (λ count. count ≤ length out.new) }
        ensures bytes { IfOk result (λ count. IfTold (content_of self.old) (λ bytes. IsRead bytes at count out.new)) }
        ensures same { content_of self.new ≡ content_of self.old }
        ensures crash { Passes (moment_of self.old) (moment_of self.new) (may_leave_of self.old) (may_leave_of self.new) (After (may_leave_of self.old (moment_of self.old)) Unchanged) }
        ensures single { moment_of self.new ≤ moment_of self.old + 1 }
        ensures cause { HasCause self.old.faults self.new.faults result }
        ensures call { IsRecorded Call.Looked Call.Looked self.old self.new result }
    {
        match self.look() {
            Ok(()) => Ok(copy_out(self.bytes(), at, out)),
            Err(failed) => Err(failed),
        }
    }

    fn write_at(&mut self, at: u64, bytes: &[u8]) -> Result<(), Failed>
        requires { IfTold (content_of self.old) (λ old. at ≤ length old) }
        ensures written { OnOk result (content_of self.new ≡ option_map (overwrite at bytes.now) (content_of self.old)) }
        ensures torn { OnErr result (Steps (TornWrite at (length bytes.now)) (content_of self.old) (content_of self.new)) }
        ensures crash { Passes (moment_of self.old) (moment_of self.new) (may_leave_of self.old) (may_leave_of self.new) (After (may_leave_of self.old (moment_of self.old)) (TornWrite at (length bytes.now))) }
        ensures single { moment_of self.new ≤ moment_of self.old + 1 }
        ensures cause { HasCause self.old.faults self.new.faults result }
        ensures call { IsRecorded (Call.Wrote at bytes.now true) (Call.Wrote at bytes.now false) self.old self.new result }
    {
        self.write(at, bytes)
    }

    fn cut(&mut self, len: u64) -> Result<(), Failed>
        ensures cut { OnOk result (content_of self.new ≡ option_map (take len) (content_of self.old)) }
        ensures torn { OnErr result (Steps (TornCut len) (content_of self.old) (content_of self.new)) }
        ensures crash { Passes (moment_of self.old) (moment_of self.new) (may_leave_of self.old) (may_leave_of self.new) (After (may_leave_of self.old (moment_of self.old)) (TornCut len)) }
        ensures single { moment_of self.new ≤ moment_of self.old + 1 }
        ensures cause { HasCause self.old.faults self.new.faults result }
        ensures call { IsRecorded (Call.Shortened len) Call.Looked self.old self.new result }
    {
        self.cut_to(len)
    }

    fn sync(&mut self) -> Result<(), Failed>
        ensures settled { OnOk result (IsSettled (content_of self.new) (may_leave_of self.new (moment_of self.new))) }
        ensures same { content_of self.new ≡ content_of self.old }
        ensures crash { Passes (moment_of self.old) (moment_of self.new) (may_leave_of self.old) (may_leave_of self.new) (After (may_leave_of self.old (moment_of self.old)) Unchanged) }
        ensures single { moment_of self.new ≤ moment_of self.old + 1 }
        ensures cause { HasCause self.old.faults self.new.faults result }
        ensures call { IsRecorded Call.Synced Call.Looked self.old self.new result }
    {
        self.settle()
    }

    fn reader(&mut self) -> Result<MemoryReader, Failed>
        ensures reader { IfOk result (λ reader. Some reader.content ≡ content_of self.old) }
        ensures fresh { IfOk result (λ reader. reader.plan.faults ≡ 0) }
        ensures same { content_of self.new ≡ content_of self.old }
        ensures crash { Passes (moment_of self.old) (moment_of self.new) (may_leave_of self.old) (may_leave_of self.new) (After (may_leave_of self.old (moment_of self.old)) Unchanged) }
        ensures single { moment_of self.new ≤ moment_of self.old + 1 }
        ensures cause { HasCause self.old.faults self.new.faults result }
        ensures call { IsRecorded Call.Looked Call.Looked self.old self.new result }
        ensures numbers { IfOk result (λ reader. reader.plan ≡ record { fails = self.old.fails; next = length self.old.calls + 1; faults = 0 }) }
    {
        self.read_back()
    }

    fn absorb(&mut self, reader: MemoryReader)
        ensures same { content_of self.new ≡ content_of self.old }
        ensures crash { Passes (moment_of self.old) (moment_of self.new) (may_leave_of self.old) (may_leave_of self.new) (After (may_leave_of self.old (moment_of self.old)) Unchanged) }
        ensures single { moment_of self.new ≤ moment_of self.old + 1 }
        ensures later { self.old.faults ≤ self.new.faults }
        ensures rose { 0 < reader.plan.faults → Rose self.old.faults self.new.faults }
        ensures counted { self.new ≡ record self.old { faults = min (self.old.faults + reader.plan.faults) (2 ^ 64 - 1) } }
    {
        self.faults = self.faults.saturating_add(reader.faults());
    }

    ghost leaves_what_it_reads = { leaves_what_it_reads };
}
