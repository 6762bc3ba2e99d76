//! The places of objects, as a transaction reads and writes them.
ghost use Rattle.std.specs.Prelude.{◌≡◌, ◌<◌, true, ℕ, false, IfOk, IfErr, OnOk, OnErr};
ghost use Rattle.pm3_core.specs.declared.naming.TheConstants.{BASE};
ghost use Rattle.pm3_access.specs.Access.{is_object_held};
ghost use Rattle.pm3_access.specs.Spots.{IsValueFor};
ghost use Rattle.pm3_txn.specs.Owners.{KnowsHere, KnowsWordHere};
ghost use Rattle.pm3_txn.specs.ObjectValues.{Lacks};
ghost use Rattle.pm3_txn.specs.PlaceAccess.{HasRead, HasReadInto, HasStored, HasWritten, IsPlaceRefusal, IsReadRefusal, IsStoreRefusal, lack_of};
ghost use Rattle.pm3_txn.specs.Placing.{busy_fault, full_fault};
ghost use Rattle.pm3_txn.specs.Refusals.{word_at};
ghost use Rattle.pm3_txn.specs.States.{told_in, view_in};

use crate::faults::AccessFault;
use crate::transaction::Txn;
use pm3_access::Place;
use pm3_disk::Disk;
use pm3_table::{Busy, Full};
use pm3_types::TypeNo;

impl AccessFault {
    /// An object of this type lacks the place.
    pub(crate) fn of_lack(ty: TypeNo, place: Place) -> AccessFault
        ensures { result ≡ lack_of ty place }
    {
        match place {
            Place::Field(field) => AccessFault::NoSuchField { ty, field },
            Place::Tail(at) | Place::Byte(at) => AccessFault::NoSuchTail { ty, at },
        }
    }

    /// A limit was reached.
    pub(crate) fn of_full(full: Full) -> AccessFault
        ensures { result ≡ full_fault full }
    {
        AccessFault::Full {
            what: full.what,
            limit: full.limit,
        }
    }

    /// The unit was held by another, or marked.
    pub(crate) fn of_busy(busy: Busy) -> AccessFault
        ensures { result ≡ busy_fault busy }
    {
        AccessFault::Busy {
            unit: busy.unit,
            word: busy.word,
        }
    }
}

impl<D: Disk> Txn<'_, D> {
    /// The value at a place of the object to which place i of the row leads: a reference or a number, as it is asked for.
    pub(crate) fn read(&mut self, i: usize, place: Place, is_ref: bool) -> Result<u64, AccessFault>
        requires low { i < 512 }
        ensures heap { self.new.heap ≡ self.old.heap }
        ensures read { IfOk result (λ value. HasRead self.old self.new i place is_ref value) }
        ensures known { IfOk result (λ value. is_ref ≡ true → KnowsWordHere (told_in self.new) (view_in self.new) self.new.held value) }
        ensures refused { IfErr result (λ fault. IsPlaceRefusal D.Reader.faults self.old self.new i place is_ref fault) }
    {
        let at = match self.object(i) {
            Ok(at) => at,
            Err(fault) => return Err(fault),
        };
        let heap = self.heap;
        let value = match heap.read(&self.held, at, place, is_ref) {
            Ok(value) => value,
            Err(ty) => return Err(AccessFault::of_lack(ty, place)),
        };
        Ok(value)
    }

    /// Reads a reference at a place of an object, and puts it at place j of the row.
    pub(crate) fn read_into(&mut self, i: usize, place: Place, j: usize) -> Result<(), AccessFault>
        requires low { (i < 512) × (j < 512) }
        ensures heap { self.new.heap ≡ self.old.heap }
        ensures read { OnOk result (HasReadInto self.old self.new i place j) }
        ensures refused { IfErr result (λ fault. IsReadRefusal D.Reader.faults self.old self.new i place j fault) }
    {
        let at = match self.read(i, place, true) {
            Ok(at) => at,
            Err(fault) => return Err(fault),
        };
        if let Err(busy) = self.put_reference(j, at) {
            return Err(AccessFault::of_busy(busy));
        }
        Ok(())
    }

    /// Writes the value at a place of an object whose page is held. Without such a place all is as it was.
    pub(crate) fn store(
        &mut self,
        at: u64,
        place: Place,
        is_ref: bool,
        value: u64,
    ) -> Result<(), TypeNo>
        requires object { is_object_held BASE self.old.held at ≡ true }
        requires known { KnowsHere (told_in self.old) (view_in self.old) self.old.held at }
        requires value { IsValueFor place value }
        requires word { is_ref ≡ true → KnowsWordHere (told_in self.old) (view_in self.old) self.old.held value }
        ensures heap { self.new.heap ≡ self.old.heap }
        ensures stored { OnOk result (HasStored self.old self.new at place is_ref value) }
        ensures lacks { IfErr result (λ ty. Lacks (told_in self.old) self.old.held at place is_ref ty) }
        ensures same { OnErr result (self.new ≡ self.old) }
    {
        let heap = self.heap;
        if let Err(ty) = heap.write(&mut self.held, at, place, is_ref, value) {
            return Err(ty);
        }
        Ok(())
    }

    /// Writes a number at a place of the object to which place i of the row leads.
    pub(crate) fn write(&mut self, i: usize, place: Place, value: u64) -> Result<(), AccessFault>
        requires low { i < 512 }
        requires value { IsValueFor place value }
        ensures heap { self.new.heap ≡ self.old.heap }
        ensures written { OnOk result (HasWritten self.old self.new i place false value) }
        ensures refused { IfErr result (λ fault. IsPlaceRefusal D.Reader.faults self.old self.new i place false fault) }
    {
        let at = match self.object(i) {
            Ok(at) => at,
            Err(fault) => return Err(fault),
        };
        if let Err(ty) = self.store(at, place, false, value) {
            return Err(AccessFault::of_lack(ty, place));
        }
        Ok(())
    }

    /// Writes the reference at place k of the row at a place of the object to which place i leads. It may be nil, and its page is
    /// not taken.
    pub(crate) fn write_from(&mut self, i: usize, place: Place, k: usize) -> Result<(), AccessFault>
        requires low { (i < 512) × (k < 512) }
        requires value { (value : ℕ) → IsValueFor place value }
        ensures heap { self.new.heap ≡ self.old.heap }
        ensures written { OnOk result (HasWritten self.old self.new i place true (word_at self.old k)) }
        ensures refused { IfErr result (λ fault. IsStoreRefusal D.Reader.faults self.old self.new i k place fault) }
    {
        if !self.is_reference(i) {
            return Err(AccessFault::NotAReference { index: i });
        }
        if !self.is_reference(k) {
            return Err(AccessFault::NotAReference { index: k });
        }
        let at = match self.object(i) {
            Ok(at) => at,
            Err(fault) => return Err(fault),
        };
        let value = self.row_word(k);
        let _ = &self.tag;
        if let Err(ty) = self.store(at, place, true, value) {
            return Err(AccessFault::of_lack(ty, place));
        }
        Ok(())
    }
}
