//! Types and names of objects.
ghost use Rattle.std.specs.Prelude.{◌≡◌, ◌<◌, IfOk, IfErr};
ghost use Rattle.pm3_txn.specs.Describing.{IsDescribed, IsNameHere};
ghost use Rattle.pm3_txn.specs.ObjectValues.{name_held, type_held};
ghost use Rattle.pm3_txn.specs.Refusals.{IsObjectRefusal, word_at};
ghost use Rattle.pm3_txn.specs.States.{told_in, view_in};

use crate::faults::AccessFault;
use crate::transaction::Txn;
use pm3_disk::Disk;
use pm3_types::TypeNo;

impl<D: Disk> Txn<'_, D> {
    /// The type of the object to which place i of the row leads.
    pub fn type_of(&mut self, i: usize) -> Result<TypeNo, AccessFault>
        requires low { i < 512 }
        ensures heap { self.new.heap ≡ self.old.heap }
        ensures kind { IfOk result (λ ty. IsDescribed self.old self.new i type_held ty) }
        ensures refused { IfErr result (λ fault. IsObjectRefusal D.Reader.faults self.old self.new i fault) }
    {
        let at = match self.object(i) {
            Ok(at) => at,
            Err(fault) => return Err(fault),
        };
        let heap = self.heap;
        let ty = heap.type_at(&self.held, at);
        Ok(ty)
    }

    /// The name of that object.
    pub fn name_of(&mut self, i: usize) -> Result<u64, AccessFault>
        requires low { i < 512 }
        ensures heap { self.new.heap ≡ self.old.heap }
        ensures name { IfOk result (λ name. IsDescribed self.old self.new i name_held name) }
        ensures named { IfOk result (λ name. IsNameHere (told_in self.new) (view_in self.new) self.new.held (word_at self.old i) name) }
        ensures refused { IfErr result (λ fault. IsObjectRefusal D.Reader.faults self.old self.new i fault) }
    {
        let at = match self.object(i) {
            Ok(at) => at,
            Err(fault) => return Err(fault),
        };
        let heap = self.heap;
        let name = heap.name_at(&self.held, at);
        Ok(name)
    }
}
