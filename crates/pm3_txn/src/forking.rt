//! A mutator is made beside another, of the same group.
ghost use Rattle.std.specs.Prelude.{◌≡◌, IfOk, IfErr, OnOk};
ghost use Rattle.pm3_core.specs.declared.events.TheConstants.{ROW_PLACES};
ghost use Rattle.pm3_txn.specs.Forks.{HasCopied, HasReadRow, IsCopyRefused, IsFork, IsNotForked, fork_fault};
ghost use Rattle.pm3_txn.specs.Underway.{Belongs, IsMutatorOf};

use crate::crew::FreshFault;
use crate::heap::Heap;
use crate::mutator::Mutator;
use pm3_core::ROW_PLACES;
use pm3_disk::Disk;
use pm3_table::{Busy, Limit, Unit};
use thiserror::Error;

/// Why no mutator was made of the same group: all rows are used up, there was no memory, or a page that a word of the row names is marked.
#[derive(Debug, PartialEq, Eq, Clone, Copy, Drop, Error)]
pub enum ForkFault {
    #[error("there are {limit} mutators")]
    Full { what: Limit, limit: u64 },
    #[error("no memory")]
    Memory,
    #[error("a page that a word of the row names is marked")]
    Busy { unit: Unit, word: u64 },
}

impl ForkFault {
    /// The fault where no fresh mutator was made.
    fn of_fresh(fault: FreshFault) -> ForkFault
        ensures { result ≡ fork_fault fault }
    {
        match fault {
            FreshFault::Full { what, limit } => ForkFault::Full { what, limit },
            FreshFault::Memory => ForkFault::Memory,
        }
    }
}

impl<D: Disk> Mutator<D> {
    /// Makes a mutator of the same group: it makes its objects in this one's space, knows what this one knows, and its row has the
    /// words of this row, under their tags. Each is validated as by `copy`. Without memory no row is used up. Where a page that a word
    /// names has a mark, one is: it counts as that of a mutator that was made, and was joined into this one.
    pub fn fork(
        &mut self,
        heap: &Heap<D>,
        reader: D::Reader,
    ) -> Result<Mutator<D>, (ForkFault, D::Reader)>
        requires of { Belongs D.Reader.content heap.now self.old }
        requires reads { D.Reader.content reader ≡ heap.now.1.opening.file }
        ensures read { IfOk result (λ made. HasReadRow self.old self.new) }
        ensures made { IfOk result (λ made. IsFork heap.now.1.pages self.old made reader) }
        ensures refused { IfErr result (λ refused. IsNotForked heap.now.1.pages refused.0 self.old self.new × (refused.1 ≡ reader)) }
        ensures belongs { IfOk result (λ made. Belongs D.Reader.content heap.now made) }
        ensures kept { Belongs D.Reader.content heap.now self.new }
    {
        let made = match self.fresh(heap, reader) {
            Ok(made) => made,
            Err((fault, reader)) => return Err((ForkFault::of_fresh(fault), reader)),
        };
        let mut made = made.in_space_of(self);
        if let Err(Busy { unit, word }) = self.copy_row(heap, &mut made) {
            let reader = self.absorb(heap, made);
            return Err((ForkFault::Busy { unit, word }, reader));
        }
        Ok(made.unwritten())
    }

    /// The mutator with the space of another.
    fn in_space_of(self, other: &Mutator<D>) -> Mutator<D>
        ensures { result ≡ record self { space = other.now.space } }
    {
        let mut mutator = self;
        mutator.space = other.space;
        mutator
    }

    /// Stores each word of this row in that of another mutator, under its tag, and validates it.
    fn copy_row(&mut self, heap: &Heap<D>, made: &mut Mutator<D>) -> Result<(), Busy>
        requires of { Belongs D.Reader.content heap.now self.old }
        requires other { IsMutatorOf D.Reader.content heap.now made.old }
        ensures read { HasReadRow self.old self.new }
        ensures copied { OnOk result (HasCopied heap.now.1.pages ROW_PLACES self.old made.old made.new) }
        ensures refused { IfErr result (λ busy. IsCopyRefused heap.now.1.pages self.old made.old made.new busy) }
        ensures kept { Belongs D.Reader.content heap.now self.new }
        ensures other { IsMutatorOf D.Reader.content heap.now made.new }
    {
        for place in 0..ROW_PLACES as usize {
            let word = self.stack_word(heap, place);
            let is_ref = self.is_reference(place);
            if let Err(busy) = made.put(heap, place, word, is_ref) {
                return Err(busy);
            }
        }
        Ok(())
    }
}
