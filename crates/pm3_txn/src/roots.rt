//! Root slots.
ghost use Rattle.std.specs.Prelude.{◌≡◌, ◌<◌, ◌≤◌, true, is_some, IfOk, IfErr, OnOk};
ghost use Rattle.pm3_access.specs.Holding.{image_in};
ghost use Rattle.pm3_txn.specs.Owners.{KnowsWordHere};
ghost use Rattle.pm3_txn.specs.Refusals.{IsTouchRefusal, word_at};
ghost use Rattle.pm3_txn.specs.RootAccess.{HasRootRead, HasRootReadInto, HasRootStored, HasRootWritten, IsRootRefusal, IsRootStoreRefusal};
ghost use Rattle.pm3_txn.specs.States.{told_in, view_in};
ghost use Rattle.pm3_txn.specs.Touching.{HasTouched, nothing_more};

use crate::faults::AccessFault;
use crate::heap::Heap;
use crate::transaction::Txn;
use pm3_disk::Disk;
use pm3_page::ROOTS_PAGE;

impl<D: Disk> Heap<D> {
    /// The page of the root slots, which lies below the frontier.
    fn roots_page(&self) -> u32
        ensures page { result ≡ 2 }
        ensures low { (2 < self.now.1.frontier) × (self.now.1.frontier ≤ self.now.1.pages) }
    {
        let _ = &self.catalog;
        ROOTS_PAGE
    }
}

impl<D: Disk> Txn<'_, D> {
    /// Puts the reference in a root slot at place j of the row. Where the page that it names has a mark, place j is nil.
    pub fn root(&mut self, slot: u32, j: usize) -> Result<(), AccessFault>
        requires low { (slot < 16) × (j < 512) }
        ensures heap { self.new.heap ≡ self.old.heap }
        ensures read { OnOk result (HasRootReadInto self.old self.new slot j) }
        ensures refused { IfErr result (λ fault. IsRootRefusal D.Reader.faults self.old self.new slot j fault) }
    {
        let at = match self.read_root(slot) {
            Ok(at) => at,
            Err(fault) => return Err(fault),
        };
        if let Err(busy) = self.put_reference(j, at) {
            return Err(AccessFault::of_busy(busy));
        }
        Ok(())
    }

    /// Writes the reference at place i of the row, which may be nil, in a root slot. Its page is not taken.
    pub fn set_root(&mut self, slot: u32, i: usize) -> Result<(), AccessFault>
        requires low { (slot < 16) × (i < 512) }
        ensures heap { self.new.heap ≡ self.old.heap }
        ensures written { OnOk result (HasRootWritten self.old self.new slot (word_at self.old i)) }
        ensures refused { IfErr result (λ fault. IsRootStoreRefusal D.Reader.faults self.old self.new i fault) }
    {
        if !self.is_reference(i) {
            return Err(AccessFault::NotAReference { index: i });
        }
        if let Err(fault) = self.touch_roots() {
            return Err(fault);
        }
        let at = self.row_word(i);
        let _ = &self.tag;
        self.store_root(slot, at);
        Ok(())
    }

    /// Holds the page of the root slots.
    fn touch_roots(&mut self) -> Result<(), AccessFault>
        ensures heap { self.new.heap ≡ self.old.heap }
        ensures touched { OnOk result (HasTouched self.old self.new 2 nothing_more) }
        ensures refused { IfErr result (λ fault. IsTouchRefusal D.Reader.faults self.old self.new 2 fault) }
    {
        let page = self.heap.roots_page();
        if let Err(fault) = self.touch(page) {
            return Err(fault);
        }
        Ok(())
    }

    /// The address in a root slot.
    fn read_root(&mut self, slot: u32) -> Result<u64, AccessFault>
        requires low { slot < 16 }
        ensures heap { self.new.heap ≡ self.old.heap }
        ensures read { IfOk result (λ at. HasRootRead self.old self.new slot at) }
        ensures known { IfOk result (λ at. KnowsWordHere (told_in self.new) (view_in self.new) self.new.held at) }
        ensures refused { IfErr result (λ fault. IsTouchRefusal D.Reader.faults self.old self.new 2 fault) }
    {
        if let Err(fault) = self.touch_roots() {
            return Err(fault);
        }
        let at = self.held.root(slot);
        Ok(at)
    }

    /// Writes an address in a root slot, where its page is held.
    fn store_root(&mut self, slot: u32, at: u64)
        requires low { slot < 16 }
        requires held { is_some (image_in self.old.held 2) ≡ true }
        requires known { KnowsWordHere (told_in self.old) (view_in self.old) self.old.held at }
        ensures heap { self.new.heap ≡ self.old.heap }
        ensures stored { HasRootStored self.old self.new slot at }
    {
        self.held.set_root(slot, at);
    }
}
