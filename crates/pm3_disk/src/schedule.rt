//! The numbers of a device's calls, and which of them fail.
ghost use Rattle.std.specs.Prelude.{◌≡◌, ◌-◌, ◌^◌, ◌≤◌, min};
ghost use Rattle.pm3_disk.specs.Plan.{GoesBy, blamed};

use crate::copies::is_listed;
use crate::outside::Failed;
use std::marker::Model;

/// Numbers the calls of a device, lets those fail whose numbers are in a list, and counts the faults.
#[derive(Drop)]
pub(crate) struct Schedule {
    /// The numbers of the calls that fail.
    fails: Vec<u32>,
    /// The number of the next call.
    next: u64,
    /// How many calls have failed, or 2^64 - 1 where there are more.
    faults: u64,
}

impl Model for Schedule {
    ghost use Rattle.pm3_disk.specs.Plan.{Plan};

    ghost Value = { Plan };

    ghost view = { λ s. record { fails = s.fails.items; next = s.next; faults = s.faults } };
}

impl Schedule {
    /// The first call has the number `next`.
    pub(crate) fn new(fails: Vec<u32>, next: u32) -> Schedule
        ensures { result ≡ record { fails = fails.items; next = next; faults = 0 } }
    {
        Schedule {
            fails,
            next: u64::from(next),
            faults: 0,
        }
    }

    /// A call: takes the next number, and fails where it is in the list.
    pub(crate) fn turn(&mut self) -> Result<(), Failed>
        ensures call { GoesBy self.old self.new result }
        ensures later { self.old.faults ≤ self.new.faults }
    {
        let fails = is_listed(&self.fails, self.next);
        self.next = self.next.saturating_add(1);
        if fails {
            self.faults = self.faults.saturating_add(1);
            return Err(Failed);
        }
        Ok(())
    }

    /// Counts a fault of a call that has no number.
    pub(crate) fn blame(&mut self)
        ensures blamed { self.new ≡ blamed self.old }
        ensures later { self.old.faults ≤ self.new.faults }
    {
        self.faults = self.faults.saturating_add(1);
    }

    /// How many calls have a number, or 2^32 - 1 where there are more.
    pub(crate) fn calls(&self) -> u32
        ensures { result ≡ min self.now.next (2 ^ 32 - 1) }
    {
        u32::try_from(self.next).unwrap_or(u32::MAX)
    }

    /// How many calls have failed.
    pub(crate) fn faults(&self) -> u64
        ensures { result ≡ self.now.faults }
    {
        self.faults
    }
}
