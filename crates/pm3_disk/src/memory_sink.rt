//! A sink in memory.
ghost use Rattle.std.specs.Prelude.{◌≡◌, ◌+◌, ◌-◌, ◌^◌, ◌<◌, ◌≤◌, ℕ, [], ◌++◌, length, min, take, Some, option_map, IfOk, OnErr, vec_len, vec_capacity};
ghost use Rattle.pm3_disk.specs.Fakes.{IsTaken};
ghost use Rattle.pm3_disk.specs.Faults.{HasCause, Rose};

use crate::outside::{Failed, Sink};
use crate::schedule::Schedule;
use std::alloc::Global;
use std::marker::Model;

/// Keeps the bytes that it is given, and fails at the calls of a list.
#[derive(Drop)]
pub struct MemorySink {
    /// The bytes that it was given.
    taken: Vec<u8>,
    /// Which of its calls fail.
    schedule: Schedule,
    /// How many faults were for want of memory.
    wanted: u32,
}

impl Model for MemorySink {
    ghost use Rattle.pm3_disk.specs.Fakes.{Taking};

    ghost Value = { Taking };

    ghost view = { λ s. record { taken = s.taken.items; plan = s.schedule; wanted = s.wanted } };
}

impl MemorySink {
    /// Its calls are numbered from 0. Those whose numbers are in `fails` take the first half of their piece and
    /// fail.
    pub fn new(alloc: Global, fails: Vec<u32>) -> MemorySink
        ensures { result ≡ record { taken = []; plan = record { fails = fails.items; next = 0; faults = 0 }; wanted = 0 } }
    {
        MemorySink {
            taken: Vec::new(alloc),
            schedule: Schedule::new(fails, 0),
            wanted: 0,
        }
    }

    /// The bytes that it has taken.
    pub fn bytes(&self) -> &[u8]
        ensures { result.now ≡ self.now.taken }
    {
        self.taken.as_slice()
    }

    /// How many calls have a number, or 2^32 - 1 where there are more. One that wanted memory has none.
    pub fn calls(&self) -> u32
        ensures { result ≡ min self.now.plan.next (2 ^ 32 - 1) }
    {
        self.schedule.calls()
    }

    /// How many calls failed for want of memory, or 2^32 - 1 where there are more.
    pub fn wanted(&self) -> u32
        ensures { result ≡ self.now.wanted }
    {
        self.wanted
    }

    fn take_in(&mut self, bytes: &[u8]) -> Result<usize, Failed>
        ensures call { IsTaken bytes.now self.old self.new result }
        ensures later { self.old.plan.faults ≤ self.new.plan.faults }
    {
        let Ok(()) = self.taken.reserve(bytes.len()) else {
            self.schedule.blame();
            self.wanted = self.wanted.saturating_add(1);
            return Err(Failed);
        };
        match self.schedule.turn() {
            Ok(()) => {
                append(&mut self.taken, bytes);
                Ok(bytes.len())
            }
            Err(failed) => {
                append(&mut self.taken, &bytes[..bytes.len() / 2]);
                Err(failed)
            }
        }
    }
}

fn append(taken: &mut Vec<u8>, bytes: &[u8])
    requires { vec_len taken.old + length bytes.now ≤ vec_capacity taken.old }
    ensures { taken.new.items ≡ taken.old.items ++ bytes.now }
{
    let Ok(()) = taken.extend_from_slice(bytes) else {
        unreachable!();
    };
}

impl Sink for MemorySink {
    ghost taken = { λ s. Some s.taken };

    ghost faults = { λ s. s.plan.faults };

    fn write(&mut self, bytes: &[u8]) -> Result<usize, Failed>
        ensures bound { IfOk result (λ count. count ≤ length bytes.now) }
        ensures bytes { IfOk result (λ count. Some self.new.taken ≡ option_map (λ old. old ++ take count bytes.now) (Some self.old.taken)) }
        ensures none { IfOk result (λ count. count ≡ 0 → 0 < length bytes.now → Rose self.old.plan.faults self.new.plan.faults) }
        ensures part { OnErr result ((count : ℕ) × (count ≤ length bytes.now) × (Some self.new.taken ≡ option_map (λ old. old ++ take count bytes.now) (Some self.old.taken))) }
        ensures cause { HasCause self.old.plan.faults self.new.plan.faults result }
        ensures call { IsTaken bytes.now self.old self.new result }
    {
        self.take_in(bytes)
    }
}
