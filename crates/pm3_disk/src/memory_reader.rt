//! A reader of a disk in memory.
ghost use Rattle.std.specs.Prelude.{◌≡◌, ◌≤◌, length, Some, IfOk};
ghost use Rattle.pm3_disk.specs.Content.{IfTold, IsRead};
ghost use Rattle.pm3_disk.specs.Faults.{HasCause};
ghost use Rattle.pm3_disk.specs.Plan.{GoesBy};

use crate::copies::copy_out;
use crate::outside::{Failed, Reader};
use crate::schedule::Schedule;
use std::marker::Model;

/// Reads a copy of the bytes that a [`MemoryDisk`](crate::MemoryDisk) had when it made this reader. Its calls
/// are numbered on from the disk's next call, and those fail whose numbers are in the disk's list.
#[derive(Drop)]
pub struct MemoryReader {
    bytes: Vec<u8>,
    schedule: Schedule,
}

impl Model for MemoryReader {
    ghost use Rattle.pm3_disk.specs.Fakes.{Reading};

    ghost Value = { Reading };

    ghost view = { λ r. record { content = r.bytes.items; plan = r.schedule } };
}

impl MemoryReader {
    pub(crate) fn new(bytes: Vec<u8>, fails: Vec<u32>, next: u32) -> MemoryReader
        ensures { result ≡ record { content = bytes.items; plan = record { fails = fails.items; next = next; faults = 0 } } }
    {
        MemoryReader {
            bytes,
            schedule: Schedule::new(fails, next),
        }
    }

    pub(crate) fn faults(&self) -> u64
        ensures { result ≡ self.now.plan.faults }
    {
        self.schedule.faults()
    }
}

impl Reader for MemoryReader {
    ghost content = { λ r. Some r.content };

    ghost faults = { λ r. r.plan.faults };

    fn read_at(&mut self, at: u64, out: &mut [u8]) -> Result<usize, Failed>
        ensures bound { IfOk result (λ count. count ≤ length out.new) }
        ensures bytes { IfOk result (λ count. IfTold (Some self.old.content) (λ bytes. IsRead bytes at count out.new)) }
        ensures same { Some self.new.content ≡ Some self.old.content }
        ensures cause { HasCause self.old.plan.faults self.new.plan.faults result }
        ensures call { GoesBy self.old.plan self.new.plan result }
    {
        match self.schedule.turn() {
            Ok(()) => Ok(copy_out(&self.bytes, at, out)),
            Err(failed) => Err(failed),
        }
    }
}
