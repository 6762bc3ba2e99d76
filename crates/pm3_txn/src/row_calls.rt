//! The calls of a transaction on the row of its mutator.
ghost use Rattle.std.specs.Prelude.{◌≡◌, ℕ, ◌<◌, false, true, slice_index_or, OnOk, IfErr};
ghost use Rattle.pm3_table.specs.declared.unit.Unit.TheVariants.{Page};
ghost use Rattle.pm3_table.specs.Telling.{HasInSpace};
ghost use Rattle.pm3_txn.specs.Owners.{KnowsWordHere};
ghost use Rattle.pm3_txn.specs.Placing.{IsPlaced, IsRefusedPlace, IsCleared};
ghost use Rattle.pm3_txn.specs.Refusals.{with_read, word_at};
ghost use Rattle.pm3_txn.specs.States.{told_in, view_in};
ghost use Rattle.pm3_txn.specs.Tags.{tag_of};
ghost use Rattle.pm3_txn.specs.Touching.{Advances, nothing_more};

use crate::mutator::Tag;
use crate::transaction::Txn;
use pm3_disk::Disk;
use pm3_table::Busy;

impl<D: Disk> Txn<'_, D> {
    /// Stores a number at a place. Where the page that it would name has a mark, the place holds 0 as a nil reference.
    pub fn put_number(&mut self, j: usize, n: u64) -> Result<(), Busy>
        requires low { j < 512 }
        ensures heap { self.new.heap ≡ self.old.heap }
        ensures placed { OnOk result (IsPlaced self.old self.new j n false) }
        ensures marked { IfErr result (λ busy. IsRefusedPlace self.old self.new j n busy) }
    {
        let heap = self.heap;
        if let Err(busy) = self.mutator.put(heap, j, n, false) {
            return Err(busy);
        }
        Ok(())
    }

    /// Stores the word of place i at place j, under its tag. Where the page that it names has a mark, place j holds 0 as a nil
    /// reference.
    pub fn copy(&mut self, i: usize, j: usize) -> Result<(), Busy>
        requires low { (i < 512) × (j < 512) }
        ensures heap { self.new.heap ≡ self.old.heap }
        ensures placed { OnOk result (IsPlaced self.old self.new j (word_at self.old i) (slice_index_or self.old.mutator.refs i false)) }
        ensures marked { IfErr result (λ busy. IsRefusedPlace self.old self.new j (word_at self.old i) busy) }
    {
        let heap = self.heap;
        if let Err(busy) = self.mutator.copy_word(heap, i, j) {
            return Err(busy);
        }
        Ok(())
    }

    /// Makes a place a nil reference.
    pub fn clear(&mut self, j: usize)
        requires low { j < 512 }
        ensures heap { self.new.heap ≡ self.old.heap }
        ensures cleared { IsCleared self.old self.new j }
    {
        let heap = self.heap;
        self.mutator.clear_word(heap, j);
    }

    /// The tag of a place.
    pub fn tag(&self, i: usize) -> Tag
        requires low { i < 512 }
        ensures { result ≡ tag_of (slice_index_or self.now.mutator.refs i false) }
    {
        self.mutator.tag(i)
    }

    /// The word at a place.
    pub fn stack_word(&mut self, i: usize) -> u64
        requires low { i < 512 }
        ensures heap { self.new.heap ≡ self.old.heap }
        ensures word { result ≡ word_at self.old i }
        ensures read { self.new ≡ with_read self.old i }
        ensures goes_on { Advances self.old self.new nothing_more }
    {
        self.row_word(i)
    }

    /// Stores a reference at a place: nil, or the address of an object that the transaction knows. Where its page has a mark, the
    /// place holds a nil reference.
    pub(crate) fn put_reference(&mut self, j: usize, at: u64) -> Result<(), Busy>
        requires low { j < 512 }
        requires known { KnowsWordHere (told_in self.old) (view_in self.old) self.old.held at }
        ensures heap { self.new.heap ≡ self.old.heap }
        ensures placed { OnOk result (IsPlaced self.old self.new j at true) }
        ensures marked { IfErr result (λ busy. IsRefusedPlace self.old self.new j at busy) }
        ensures own { IfErr result (λ busy. (page k : ℕ) → busy.unit ≡ Page page → HasInSpace (told_in self.old) (view_in self.old) k page → ⊥) }
    {
        let heap = self.heap;
        if let Err(busy) = self.mutator.put(heap, j, at, true) {
            return Err(busy);
        }
        Ok(())
    }
}
