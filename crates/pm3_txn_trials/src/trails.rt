//! What a thread does, one transaction after another, and what it keeps of it.
ghost use Rattle.pm3_txn.specs.Underway.{Belongs, HoldsNothing};

use crate::counting::Refusal;
use crate::lists::{Deed, carry_out};
use crate::plans::Plan;
use oo7_build::Draws;
use pm3_disk::Disk;
use pm3_txn::{AccessFault, Heap, Mutator};
use std::alloc::Global;
use std::sync::Wait;

/// What a thread committed, in order, and why it ended early.
#[derive(Debug, PartialEq, Eq, Drop)]
pub struct Trail {
    pub deeds: Vec<Deed>,
    pub end: Option<Refusal>,
}

impl Trail {
    /// Adds a deed, or why there is none.
    fn with(self, done: Result<Deed, Refusal>) -> Trail {
        let mut trail = self;
        match done {
            Ok(deed) => {
                if trail.deeds.push(deed).is_err() {
                    trail.end = Some(Refusal::Access(AccessFault::Memory));
                }
            }
            Err(refusal) => trail.end = Some(refusal),
        }
        trail
    }
}

/// The work of a thread: a seed, its number, and how many transactions it has.
#[derive(Debug, PartialEq, Eq, Clone, Copy, Drop)]
pub struct Share {
    pub seed: u64,
    pub thread: u16,
    pub times: u16,
}

impl Share {
    /// The share of the thread that is so much further.
    pub(crate) fn further(&self, by: u16) -> Share {
        Share {
            seed: self.seed,
            thread: self.thread.wrapping_add(by),
            times: self.times,
        }
    }
}

/// Carries out the transactions of a thread, or until one is refused.
pub(crate) fn leave_trail<D: Disk, R: Wait>(
    rt: &R,
    alloc: Global,
    heap: &Heap<D>,
    mutator: Mutator<D>,
    share: Share,
) -> (Mutator<D>, Trail)
    requires of { Belongs D.Reader.content heap.now mutator }
    requires bare { HoldsNothing mutator }
    ensures belongs { Belongs D.Reader.content heap.now result.0 }
    ensures bare { HoldsNothing result.0 }
{
    let mut mutator = mutator;
    let mut draws = Draws::new(share.seed, u64::from(share.thread));
    let mut trail = Trail {
        deeds: Vec::new(alloc),
        end: None,
    };
    for count in 0..share.times {
        let plan = Plan::draw(&mut draws, share.thread, count);
        let (next, done) = carry_out(rt, heap, mutator, plan);
        mutator = next;
        trail = trail.with(done);
        if trail.end.is_some() {
            return (mutator, trail);
        }
    }
    (mutator, trail)
}
