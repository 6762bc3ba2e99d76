//! Fields that are references.
ghost use Rattle.std.specs.Prelude.{◌≡◌, ◌<◌, true, IfErr, OnOk};
ghost use Rattle.pm3_access.specs.declared.places.Place.TheVariants.{Field};
ghost use Rattle.pm3_txn.specs.PlaceAccess.{HasReadInto, HasWritten, IsReadRefusal, IsStoreRefusal};
ghost use Rattle.pm3_txn.specs.Refusals.{word_at};

use crate::faults::AccessFault;
use crate::transaction::Txn;
use pm3_access::Place;
use pm3_disk::Disk;

impl<D: Disk> Txn<'_, D> {
    /// Puts the reference in field f of the object to which place i of the row leads at place j. NoSuchField exactly where field f
    /// is no reference. Where the page that it names has a mark, place j is nil.
    pub fn reference(&mut self, i: usize, f: u32, j: usize) -> Result<(), AccessFault>
        requires low { (i < 512) × (j < 512) }
        ensures heap { self.new.heap ≡ self.old.heap }
        ensures read { OnOk result (HasReadInto self.old self.new i (Field f) j) }
        ensures refused { IfErr result (λ fault. IsReadRefusal D.Reader.faults self.old self.new i (Field f) j fault) }
    {
        self.read_into(i, Place::Field(f), j)
    }

    /// Writes the reference at place k of the row, which may be nil, in field f of that object. NoSuchField exactly where field f is
    /// no reference.
    pub fn set_reference(&mut self, i: usize, f: u32, k: usize) -> Result<(), AccessFault>
        requires low { (i < 512) × (k < 512) }
        ensures heap { self.new.heap ≡ self.old.heap }
        ensures written { OnOk result (HasWritten self.old self.new i (Field f) true (word_at self.old k)) }
        ensures refused { IfErr result (λ fault. IsStoreRefusal D.Reader.faults self.old self.new i k (Field f) fault) }
    {
        self.write_from(i, Place::Field(f), k)
    }
}
