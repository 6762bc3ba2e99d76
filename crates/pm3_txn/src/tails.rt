//! Tails of references, and the lengths of tails.
ghost use Rattle.std.specs.Prelude.{◌≡◌, ◌<◌, true, IfOk, IfErr, OnOk};
ghost use Rattle.pm3_access.specs.declared.places.Place.TheVariants.{Tail};
ghost use Rattle.pm3_txn.specs.Describing.{IsDescribed};
ghost use Rattle.pm3_txn.specs.ObjectValues.{tail_held};
ghost use Rattle.pm3_txn.specs.PlaceAccess.{HasReadInto, HasWritten, IsReadRefusal, IsStoreRefusal};
ghost use Rattle.pm3_txn.specs.Refusals.{IsObjectRefusal, word_at};

use crate::faults::AccessFault;
use crate::transaction::Txn;
use pm3_access::Place;
use pm3_disk::Disk;

impl<D: Disk> Txn<'_, D> {
    /// The number of references or bytes in the tail of the object to which place i of the row leads.
    pub fn tail_len(&mut self, i: usize) -> Result<u32, AccessFault>
        requires low { i < 512 }
        ensures heap { self.new.heap ≡ self.old.heap }
        ensures len { IfOk result (λ len. IsDescribed self.old self.new i tail_held len) }
        ensures refused { IfErr result (λ fault. IsObjectRefusal D.Reader.faults self.old self.new i fault) }
    {
        let at = match self.object(i) {
            Ok(at) => at,
            Err(fault) => return Err(fault),
        };
        let heap = self.heap;
        let len = heap.tail_at(&self.held, at);
        Ok(len)
    }

    /// Puts item `at` of the tail of that object at place j of the row. NoSuchTail exactly where its tail has no such reference.
    /// Where the page that it names has a mark, place j is nil.
    pub fn tail_ref(&mut self, i: usize, at: u32, j: usize) -> Result<(), AccessFault>
        requires low { (i < 512) × (j < 512) }
        ensures heap { self.new.heap ≡ self.old.heap }
        ensures read { OnOk result (HasReadInto self.old self.new i (Tail at) j) }
        ensures refused { IfErr result (λ fault. IsReadRefusal D.Reader.faults self.old self.new i (Tail at) j fault) }
    {
        self.read_into(i, Place::Tail(at), j)
    }

    /// Writes the reference at place k of the row, which may be nil, in item `at` of that tail. NoSuchTail exactly where its tail has
    /// no such reference.
    pub fn set_tail_ref(&mut self, i: usize, at: u32, k: usize) -> Result<(), AccessFault>
        requires low { (i < 512) × (k < 512) }
        ensures heap { self.new.heap ≡ self.old.heap }
        ensures written { OnOk result (HasWritten self.old self.new i (Tail at) true (word_at self.old k)) }
        ensures refused { IfErr result (λ fault. IsStoreRefusal D.Reader.faults self.old self.new i k (Tail at) fault) }
    {
        self.write_from(i, Place::Tail(at), k)
    }
}
