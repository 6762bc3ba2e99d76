//! New objects.
ghost use Rattle.std.specs.Prelude.{◌≡◌, ◌⊎◌, ◌↔◌, ◌<◌, true, false, is_some, IsTrue, slice_get, IfOk, IfErr, MatchOption, OnOk};
ghost use Rattle.pm3_types.specs.Layout.{size_by};
ghost use Rattle.pm3_access.specs.Making.{current_image, has_room_for};
ghost use Rattle.pm3_txn.specs.Making.{HasMade, HasNewObject, HasNoRoom, IsMakeRefusal, IsUsableName, MayMake};
ghost use Rattle.pm3_txn.specs.Spaces.{HasPlacedObject, IsOutOfPages, IsShortOfMemory};
ghost use Rattle.pm3_txn.specs.States.{told_in, view_in};

use crate::faults::AccessFault;
use crate::transaction::Txn;
use pm3_disk::Disk;
use pm3_types::TypeNo;

impl<D: Disk> Txn<'_, D> {
    /// Makes an object of a type of the catalog, with a tail of this length and 0 in all its places, and puts its reference at place j of
    /// the row. The object has a name of its own. It is in the mutator's space, which is taken at the first make, until a
    /// commit finds that a root reaches it.
    ///
    /// Busy where another mutator has the space. Full where the names are used up, or where no page of the space has room, none is free
    /// and the store has no more. A refused make may have used up a name, which is noted then.
    pub fn make(&mut self, ty: TypeNo, tail: u32, j: usize) -> Result<(), AccessFault>
        requires low { j < 512 }
        requires may { MayMake (told_in self.old).opening.catalog ty tail }
        ensures heap { self.new.heap ≡ self.old.heap }
        ensures made { OnOk result (HasMade self.old self.new ty tail j) }
        ensures refused { IfErr result (λ fault. IsMakeRefusal self.old self.new (size_by (slice_get (told_in self.old).opening.catalog ty) tail) fault) }
    {
        if let Err(fault) = self.hold_space() {
            return Err(fault);
        }
        let name = match self.draw_name() {
            Ok(name) => name,
            Err(fault) => return Err(fault),
        };
        let at = match self.place_new(ty, tail, name) {
            Ok(at) => at,
            Err(fault) => return Err(fault),
        };
        let _ = &self.tag;
        let Ok(()) = self.put_reference(j, at) else {
            unreachable!()
        };
        Ok(())
    }

    /// Places a new object on the current page of the space, or where it does not fit there on a free page, or on one that is drawn.
    fn place_new(&mut self, ty: TypeNo, tail: u32, name: u64) -> Result<u64, AccessFault>
        requires may { MayMake (told_in self.old).opening.catalog ty tail }
        requires name { IsUsableName (told_in self.old) (view_in self.old) self.old.held name }
        requires noted { name < self.old.mutator.next_name }
        requires space { is_some self.old.held.space ≡ true }
        ensures heap { self.new.heap ≡ self.old.heap }
        ensures placed { IfOk result (λ at. HasPlacedObject self.old self.new ty tail (size_by (slice_get (told_in self.old).opening.catalog ty) tail) name at) }
        ensures refused { IfErr result (λ fault. (IsOutOfPages self.old self.new (size_by (slice_get (told_in self.old).opening.catalog ty) tail) fault × HasNoRoom self.new (size_by (slice_get (told_in self.old).opening.catalog ty) tail)) ⊎ IsShortOfMemory self.old self.new fault) }
    {
        if let Some(at) = self.place_here(ty, tail, name) {
            return Ok(at);
        }
        if let Err(fault) = self.make_room() {
            return Err(fault);
        }
        let Some(at) = self.place_here(ty, tail, name) else {
            unreachable!()
        };
        Ok(at)
    }

    /// Places a new object on the current page of the space. None exactly where it does not fit there.
    fn place_here(&mut self, ty: TypeNo, tail: u32, name: u64) -> Option<u64>
        requires may { MayMake (told_in self.old).opening.catalog ty tail }
        requires name { IsUsableName (told_in self.old) (view_in self.old) self.old.held name }
        requires noted { name < self.old.mutator.next_name }
        requires space { is_some self.old.held.space ≡ true }
        ensures heap { self.new.heap ≡ self.old.heap }
        ensures placed { MatchOption result ((self.new ≡ self.old) × (has_room_for (current_image self.old.held.space) (size_by (slice_get (told_in self.old).opening.catalog ty) tail) ≡ false)) (λ at. HasNewObject self.old self.new ty tail name at) }
    {
        let heap = self.heap;
        heap.page_count();
        let Some(at) = heap.make(&mut self.held, ty, tail, name) else {
            return None;
        };
        Some(at)
    }

    /// Whether `make` can be called with this type and this length of a tail.
    pub fn may_make(&self, ty: TypeNo, tail: u32) -> bool
        ensures { IsTrue result ↔ MayMake (told_in self.now).opening.catalog ty tail }
    {
        self.heap.may_make(ty, tail)
    }
}
