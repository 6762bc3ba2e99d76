//! New objects.
ghost use Rattle.std.specs.Prelude.{◌≡◌, ◌<◌, ◌+◌, IfErr, OnOk, OnErr};
ghost use Rattle.pm3_txn.specs.Making.{MayMake};
ghost use Rattle.oo7_schema.specs.Schema.{schema};
ghost use Rattle.oo7_objects.specs.Refusing.{IsRefusal};
ghost use Rattle.oo7_objects.specs.Wholes.{HasClasses, HasNew, IsReference, Kept, KeepsRow, Made, name_at, new_object};

use crate::standing::stand;
use pm3_disk::Disk;
use pm3_txn::{AccessFault, Txn};
use pm3_types::TypeNo;

/// Makes an object of a class, with a tail of this length and 0 in all its places, and puts its reference at place j of the row. Its
/// name is a new one.
pub fn make<D: Disk>(
    txn: &mut Txn<'_, D>,
    ty: TypeNo,
    tail: u32,
    j: usize,
) -> Result<(), AccessFault>
    requires low { j < 512 }
    requires classes { HasClasses txn.old }
    requires may { MayMake schema ty tail }
    ensures made { OnOk result (Made txn.old txn.new (λ st v w. HasNew w (name_at txn.new st j) (new_object ty tail) v)) }
    ensures tag { OnOk result (IsReference txn.new j) }
    ensures kept { OnErr result (Kept txn.old txn.new) }
    ensures row { KeepsRow txn.old txn.new j (j + 1) }
    ensures refused { IfErr result (IsRefusal txn.old) }
{
    stand(txn);
    if let Err(fault) = txn.make(ty, tail, j) {
        return Err(fault);
    }
    Ok(())
}
