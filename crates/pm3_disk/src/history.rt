//! The record of all calls of a disk in memory.
ghost use Rattle.std.specs.Prelude.{◌≡◌, ◌+◌, ◌<◌, ◌≤◌, ◌∷◌, [], length, reverse, OnOk};
ghost use Rattle.pm3_disk.specs.Crash.{oldest};

use crate::Memory;
use crate::call::Call;
use std::alloc::Global;
use std::marker::Model;

/// The calls so far.
#[derive(Drop)]
pub(crate) struct History {
    calls: Vec<Call>,
}

impl Model for History {
    ghost use Rattle.std.specs.Prelude.{◌-◌, ◌^◌, ◌≤◌, min, length, reverse, vec_capacity};
    ghost use Rattle.pm3_disk.specs.Past.{Past};

    ghost Value = { Past };

    ghost view = { λ h. record { calls = reverse h.calls.items; room = min (vec_capacity h.calls - length h.calls.items) (2 ^ 32 - 1 - length h.calls.items) } };

    ghost invariant = { λ h. length h.calls.items ≤ 2 ^ 32 - 1 };
}

impl History {
    /// No call yet.
    pub(crate) fn new(alloc: Global) -> History
        ensures { result.calls ≡ [] }
    {
        History {
            calls: Vec::new(alloc),
        }
    }

    /// How many there are.
    pub(crate) fn len(&self) -> u32
        ensures { result ≡ length self.now.calls }
    {
        self.calls.len() as u32
    }

    /// The calls up to the one of this number, the oldest first.
    pub(crate) fn up_to(&self, number: u32) -> &[Call]
        requires { number < length self.now.calls }
        ensures { reverse result.now ≡ oldest (number + 1) self.now.calls }
    {
        &self.calls[..number as usize + 1]
    }

    /// Makes room for one call more. It fails where there is no memory for it, and past 2^32 - 1 calls.
    pub(crate) fn reserve(&mut self) -> Result<(), Memory>
        ensures calls { self.new.calls ≡ self.old.calls }
        ensures room { OnOk result (0 < self.new.room) }
    {
        if self.calls.len() >= u32::MAX as usize {
            return Err(Memory);
        }
        self.calls.reserve(1)?;
        Ok(())
    }

    /// Adds a call.
    pub(crate) fn add(&mut self, call: Call)
        requires { 0 < self.old.room }
        ensures { self.new.calls ≡ call ∷ self.old.calls }
    {
        let Ok(()) = self.calls.push(call) else {
            unreachable!();
        };
    }
}
