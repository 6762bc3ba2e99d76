//! A source in memory.
ghost use Rattle.std.specs.Prelude.{◌≡◌, ◌-◌, ◌^◌, ◌<◌, ◌≤◌, [], length, min, take, drop, Some, option_map, IfOk, OnErr};
ghost use Rattle.pm3_disk.specs.Content.{IfTold};
ghost use Rattle.pm3_disk.specs.Faults.{HasCause};
ghost use Rattle.pm3_disk.specs.Plan.{GoesBy};

use crate::copies::copy_out;
use crate::outside::{Failed, Source};
use crate::schedule::Schedule;
use std::marker::Model;

/// Gives the bytes of a list, and fails at the calls of a list.
#[derive(Drop)]
pub struct MemorySource {
    /// All bytes that it gives.
    bytes: Vec<u8>,
    /// How many of them it has given.
    at: usize,
    /// Which of its calls fail.
    schedule: Schedule,
}

impl Model for MemorySource {
    ghost use Rattle.std.specs.Prelude.{◌≤◌, length, drop};
    ghost use Rattle.pm3_disk.specs.Fakes.{Giving};

    ghost Value = { Giving };

    ghost view = { λ s. record { left = drop s.at s.bytes.items; plan = s.schedule } };

    ghost invariant = { λ s. s.at ≤ length s.bytes.items };
}

impl MemorySource {
    /// Gives these bytes. Its calls are numbered from 0, and those whose numbers are in `fails` fail.
    pub fn new(bytes: Vec<u8>, fails: Vec<u32>) -> MemorySource
        ensures { result ≡ record { left = bytes.items; plan = record { fails = fails.items; next = 0; faults = 0 } } }
    {
        MemorySource {
            bytes,
            at: 0,
            schedule: Schedule::new(fails, 0),
        }
    }

    /// How many calls were made, or 2^32 - 1 where there were more.
    pub fn calls(&self) -> u32
        ensures { result ≡ min self.now.plan.next (2 ^ 32 - 1) }
    {
        self.schedule.calls()
    }
}

impl Source for MemorySource {
    ghost left = { λ s. Some s.left };

    ghost faults = { λ s. s.plan.faults };

    fn read(&mut self, out: &mut [u8]) -> Result<usize, Failed>
        ensures bound { IfOk result (λ count. count ≤ length out.new) }
        ensures bytes { IfOk result (λ count. IfTold (Some self.old.left) (λ bytes. (count ≤ length bytes) × (take count out.new ≡ take count bytes))) }
        ensures rest { IfOk result (λ count. Some self.new.left ≡ option_map (drop count) (Some self.old.left)) }
        ensures end { IfOk result (λ count. count ≡ 0 → 0 < length out.new → IfTold (Some self.old.left) (λ bytes. bytes ≡ [])) }
        ensures same { OnErr result (Some self.new.left ≡ Some self.old.left) }
        ensures cause { HasCause self.old.plan.faults self.new.plan.faults result }
        ensures call { GoesBy self.old.plan self.new.plan result }
        ensures count { IfOk result (λ count. count ≡ min (length out.new) (length self.old.left)) }
    {
        match self.schedule.turn() {
            Ok(()) => {
                let count = copy_out(&self.bytes, self.at as u64, out);
                self.at += count;
                Ok(count)
            }
            Err(failed) => Err(failed),
        }
    }
}
