//! Fields that are words.
ghost use Rattle.std.specs.Prelude.{◌≡◌, ◌<◌, false, IfOk, IfErr, OnOk};
ghost use Rattle.pm3_access.specs.declared.places.Place.TheVariants.{Field};
ghost use Rattle.pm3_txn.specs.PlaceAccess.{HasRead, HasWritten, IsPlaceRefusal};

use crate::faults::AccessFault;
use crate::transaction::Txn;
use pm3_access::Place;
use pm3_disk::Disk;

impl<D: Disk> Txn<'_, D> {
    /// The word in field f of the object to which place i of the row leads. NoSuchField exactly where field f is no word field.
    pub fn word(&mut self, i: usize, f: u32) -> Result<u64, AccessFault>
        requires low { i < 512 }
        ensures heap { self.new.heap ≡ self.old.heap }
        ensures read { IfOk result (λ value. HasRead self.old self.new i (Field f) false value) }
        ensures refused { IfErr result (λ fault. IsPlaceRefusal D.Reader.faults self.old self.new i (Field f) false fault) }
    {
        self.read(i, Place::Field(f), false)
    }

    /// Writes the word in field f of that object. NoSuchField exactly where field f is no word field.
    pub fn set_word(&mut self, i: usize, f: u32, value: u64) -> Result<(), AccessFault>
        requires low { i < 512 }
        ensures heap { self.new.heap ≡ self.old.heap }
        ensures written { OnOk result (HasWritten self.old self.new i (Field f) false value) }
        ensures refused { IfErr result (λ fault. IsPlaceRefusal D.Reader.faults self.old self.new i (Field f) false fault) }
    {
        self.write(i, Place::Field(f), value)
    }
}
