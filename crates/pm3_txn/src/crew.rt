//! Mutators are made beside others, and end.
ghost use Rattle.std.specs.Prelude.{◌≡◌, ℕ, ◌<◌, true, false, replicate, IfOk, IfErr};
ghost use Rattle.pm3_table.specs.Deeds.{marks_of};
ghost use Rattle.pm3_table.specs.Holds.{holds_of};
ghost use Rattle.pm3_table.specs.Passes.{IsOf, Becomes};
ghost use Rattle.pm3_table.specs.Seats.{both_views};
ghost use Rattle.pm3_table.specs.Telling.{Lawful};
ghost use Rattle.pm3_txn.specs.Crews.{IsFresh, IsNotMade, IsRowCleared};
ghost use Rattle.pm3_txn.specs.Takes.{with_view};
ghost use Rattle.pm3_txn.specs.Underway.{Belongs, HoldsNothing, IsMutatorOf};

use crate::heap::Heap;
use crate::mutator::Mutator;
use pm3_disk::Disk;
use pm3_rows::clear;
use pm3_table::{Chronicle, Full, Limit, Memory, Pass, Shared};
use std::alloc::Global;
use thiserror::Error;

/// Why no mutator was made: all rows are used up, or there was no memory.
#[derive(Debug, PartialEq, Eq, Clone, Copy, Drop, Error)]
pub enum FreshFault {
    #[error("there are {limit} mutators")]
    Full { what: Limit, limit: u64 },
    #[error("no memory")]
    Memory,
}

impl<D: Disk> Mutator<D> {
    /// Makes a mutator with an empty row and a space of its own, which knows what this one knows. Without memory no row is used
    /// up.
    pub fn fresh(
        &mut self,
        heap: &Heap<D>,
        reader: D::Reader,
    ) -> Result<Mutator<D>, (FreshFault, D::Reader)>
        requires of { Belongs D.Reader.content heap.now self.old }
        requires reads { D.Reader.content reader ≡ heap.now.1.opening.file }
        ensures made { IfOk result (λ made. (self.new ≡ self.old) × IsFresh self.old made reader) }
        ensures refused { IfErr result (λ refused. IsNotMade refused.0 self.old self.new × (refused.1 ≡ reader)) }
        ensures belongs { IfOk result (λ made. Belongs D.Reader.content heap.now made) }
        ensures kept { Belongs D.Reader.content heap.now self.new }
    {
        let Ok((refs, wrote)) = blank_row(self.alloc) else {
            return Err((FreshFault::Memory, reader));
        };
        let alloc = self.alloc;
        match heap.shared.split(&mut self.pass) {
            Ok(pass) => {
                let space = pass.row();
                Ok(Mutator {
                    pass,
                    space,
                    reader,
                    refs,
                    wrote,
                    next_name: 0,
                    alloc,
                })
            }
            Err(Full { what, limit }) => Err((FreshFault::Full { what, limit }, reader)),
        }
    }

    /// Ends another mutator, which holds nothing, and gives its reader back. This one has then seen what either had.
    pub fn join_back(&mut self, heap: &Heap<D>, other: Mutator<D>) -> D::Reader
        requires of { Belongs D.Reader.content heap.now self.old }
        requires other { Belongs D.Reader.content heap.now other }
        requires idle { HoldsNothing other }
        ensures reader { result ≡ other.reader }
        ensures joined { self.new ≡ with_view self.old (both_views self.old.pass.1 other.pass.1) }
        ensures kept { Belongs D.Reader.content heap.now self.new }
    {
        self.absorb(heap, other)
    }

    /// The same, whatever the other knows of the words of its row.
    pub(crate) fn absorb(&mut self, heap: &Heap<D>, other: Mutator<D>) -> D::Reader
        requires of { Belongs D.Reader.content heap.now self.old }
        requires other { IsMutatorOf D.Reader.content heap.now other }
        requires idle { HoldsNothing other }
        ensures reader { result ≡ other.reader }
        ensures joined { self.new ≡ with_view self.old (both_views self.old.pass.1 other.pass.1) }
        ensures kept { Belongs D.Reader.content heap.now self.new }
    {
        let Mutator {
            pass,
            space: _,
            reader,
            refs: _,
            wrote: _,
            next_name: _,
            alloc: _,
        } = other;
        end_pass(&heap.shared, &mut self.pass, pass);
        reader
    }
}

/// Clears the row of another pass, and joins it.
fn end_pass<V: Chronicle>(shared: &Shared<V>, pass: &mut Pass<V>, other: Pass<V>)
    requires of { IsOf pass.old shared.now }
    requires other { IsOf other shared.now }
    requires holds { (u : ℕ) → holds_of other.1.holds u ≡ false }
    requires marks { (p : ℕ) → marks_of other.1.log p ≡ false }
    ensures view { Becomes pass.old pass.new (both_views pass.old.1 other.1) }
    ensures lawful { Lawful shared.now.1 pass.new.1.seen }
{
    let mut other = other;
    clear_row(shared, &mut other);
    shared.join(pass, other);
}

/// Stores 0 at each place of a pass's row.
fn clear_row<V: Chronicle>(shared: &Shared<V>, pass: &mut Pass<V>)
    requires { IsOf pass.old shared.now }
    ensures { IsRowCleared 512 pass.old pass.new }
{
    for place in 0..512usize {
        clear(shared, pass, place);
    }
}

/// Notes of a row that holds nil references, none of which was written.
pub(crate) fn blank_row(alloc: Global) -> Result<(Vec<bool>, Vec<bool>), Memory>
    ensures refs { IfOk result (λ row. row.0.items ≡ replicate 512 true) }
    ensures wrote { IfOk result (λ row. row.1.items ≡ replicate 512 false) }
{
    let Ok(refs) = vec![in alloc; true; 512] else {
        return Err(Memory);
    };
    let Ok(wrote) = vec![in alloc; false; 512] else {
        return Err(Memory);
    };
    Ok((refs, wrote))
}
