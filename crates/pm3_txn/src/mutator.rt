//! Mutators.
ghost use Rattle.std.specs.Prelude.{◌≡◌, ◌<◌, false, replicate, slice_index_or};
ghost use Rattle.pm3_txn.specs.Tags.{tag_of};

use crate::values::Value;
use pm3_disk::Disk;
use pm3_table::Pass;
use std::alloc::Global;
use std::marker::Model;

/// What a place of a row holds: a reference, which may be nil, or a number.
#[derive(Debug, PartialEq, Eq, Clone, Copy, Drop)]
pub enum Tag {
    Ref,
    Number,
}

/// The token of one mutator of a heap: its pass, the number of its space, its reader, what it notes of each place of its row, and
/// the next name after those that its transaction drew. Every call needs its heap.
#[derive(Drop)]
pub struct Mutator<D: Disk> {
    pub(crate) pass: Pass<Value<D>>,
    pub(crate) space: u32,
    pub(crate) reader: D::Reader,
    /// For each place, whether it is tagged as a reference.
    pub(crate) refs: Vec<bool>,
    /// For each place, whether it was written since the transaction began.
    pub(crate) wrote: Vec<bool>,
    /// One above the greatest name that the transaction drew, or 0 where it drew none: its commit has to record a next name that
    /// is no lower, also where no object was made under it.
    pub(crate) next_name: u64,
    pub(crate) alloc: Global,
}

impl<D: Disk> Model for Mutator<D> {
    ghost use Rattle.std.specs.Prelude.{◌≡◌, ◌≤◌, ◌^◌, length};
    ghost use Rattle.std.specs.Coded.{codes};
    ghost use Rattle.atomic_table.specs.Seated.{table_id_coded};
    ghost use Rattle.pm3_history.specs.Entry.{done_code};
    ghost use Rattle.pm3_txn.specs.Codes.{mutator_code};
    ghost use Rattle.pm3_txn.specs.States.{MutatorState};

    ghost Value = { MutatorState D.Reader };

    ghost coded = { mutator_code D.Reader.code (Prim.hlevel (codes, table_id_coded, done_code)) };

    ghost view = { λ m. record { pass = m.pass; space = m.space; reader = m.reader; refs = m.refs.items; wrote = m.wrote.items; next_name = m.next_name } };

    ghost invariant = { λ m. (length m.refs.items ≡ 512) × (length m.wrote.items ≡ 512) × (m.next_name ≤ 2 ^ 62) };
}

impl<D: Disk> Mutator<D> {
    /// The tag of a place.
    pub fn tag(&self, i: usize) -> Tag
        requires { i < 512 }
        ensures { result ≡ tag_of (slice_index_or self.now.refs i false) }
    {
        if self.is_reference(i) {
            Tag::Ref
        } else {
            Tag::Number
        }
    }

    /// Whether a place is tagged as a reference.
    pub(crate) fn is_reference(&self, i: usize) -> bool
        requires { i < 512 }
        ensures { result ≡ slice_index_or self.now.refs i false }
    {
        self.refs[i]
    }

    /// The mutator as a transaction begins, which has written no place and drawn no name.
    pub(crate) fn unwritten(self) -> Mutator<D>
        ensures { result ≡ record self { wrote = replicate 512 false; next_name = 0 } }
    {
        let mut mutator = self;
        mutator.wrote.fill(false);
        mutator.next_name = 0;
        mutator
    }

    pub(crate) fn allocator(&self) -> Global {
        self.alloc
    }
}
