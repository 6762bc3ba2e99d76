//! Root slots.
ghost use Rattle.std.specs.Prelude.{◌≡◌, ◌<◌, ◌+◌, IfErr, OnOk, OnErr};
ghost use Rattle.oo7_objects.specs.Refusing.{IsRefusal};
ghost use Rattle.oo7_objects.specs.Wholes.{IsReference, IsRooted, Kept, KeepsRow, Knows, Made, name_at, root_at};

use crate::standing::stand;
use pm3_disk::Disk;
use pm3_txn::{AccessFault, Txn};

/// Puts the reference in a root slot at place j of the row. Where the page that it names has a mark, which is refused as Busy, place j
/// is nil.
pub fn root<D: Disk>(txn: &mut Txn<'_, D>, slot: u32, j: usize) -> Result<(), AccessFault>
    requires low { (slot < 16) × (j < 512) }
    ensures told { OnOk result (Knows txn.new (λ st w. root_at w slot ≡ name_at txn.new st j)) }
    ensures tag { OnOk result (IsReference txn.new j) }
    ensures kept { Kept txn.old txn.new }
    ensures row { KeepsRow txn.old txn.new j (j + 1) }
    ensures refused { IfErr result (IsRefusal txn.old) }
{
    stand(txn);
    if let Err(fault) = txn.root(slot, j) {
        return Err(fault);
    }
    Ok(())
}

/// Writes the reference at place i of the row, which may be nil, in a root slot.
pub fn set_root<D: Disk>(txn: &mut Txn<'_, D>, slot: u32, i: usize) -> Result<(), AccessFault>
    requires low { (slot < 16) × (i < 512) }
    requires tagged { IsReference txn.old i }
    ensures made { OnOk result (Made txn.old txn.new (λ st v w. IsRooted w slot (name_at txn.old st i) v)) }
    ensures kept { OnErr result (Kept txn.old txn.new) }
    ensures row { KeepsRow txn.old txn.new 0 0 }
    ensures refused { IfErr result (IsRefusal txn.old) }
{
    stand(txn);
    if let Err(fault) = txn.set_root(slot, i) {
        return Err(fault);
    }
    Ok(())
}
