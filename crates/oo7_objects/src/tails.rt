//! Tails of references.
ghost use Rattle.std.specs.Prelude.{◌≡◌, ◌≢◌, ◌<◌, ◌+◌, IfOk, IfErr, OnOk, OnErr, slice_index};
ghost use Rattle.pm3_types.specs.declared.places.Place.TheVariants as places;
ghost use Rattle.oo7_schema.specs.Lookup as lookup;
ghost use Rattle.oo7_objects.specs.Refusing.{IsRefusal};
ghost use Rattle.oo7_objects.specs.Wholes.{HasClasses, HasPlace, HasTail, IsLike, IsReference, Kept, KeepsRow, Knows, Made, look_of, name_at};

use crate::standing::stand;
use pm3_disk::Disk;
use pm3_txn::{AccessFault, Txn};

/// The number of references or bytes in the tail of the object to which place i of the row leads, which is known not to be nil.
pub fn tail_len<D: Disk>(txn: &mut Txn<'_, D>, i: usize) -> Result<u32, AccessFault>
    requires low { i < 512 }
    requires classes { HasClasses txn.old }
    requires some { Knows txn.old (λ st w. name_at txn.old st i ≢ 0) }
    ensures told { IfOk result (λ len. Knows txn.new (λ st w. HasTail w (name_at txn.old st i) len)) }
    ensures kept { Kept txn.old txn.new }
    ensures row { KeepsRow txn.old txn.new 0 0 }
    ensures refused { IfErr result (IsRefusal txn.old) }
{
    stand(txn);
    let len = match txn.tail_len(i) {
        Ok(len) => len,
        Err(fault) => {
            stand(txn);
            return Err(fault);
        }
    };
    stand(txn);
    Ok(len)
}

/// Puts item `at` of the tail of that object at place j of the row. Where the page that it names has a mark, which is refused as Busy,
/// place j is nil.
pub fn tail_ref<D: Disk>(
    txn: &mut Txn<'_, D>,
    i: usize,
    at: u32,
    j: usize,
) -> Result<(), AccessFault>
    requires low { (i < 512) × (j < 512) }
    requires classes { HasClasses txn.old }
    requires there { Knows txn.old (λ st w. HasPlace w (name_at txn.old st i) (places.TailRef at)) }
    ensures told { OnOk result (Knows txn.new (λ st w. lookup.value_in (look_of w (name_at txn.old st i)) (places.TailRef at) ≡ name_at txn.new st j)) }
    ensures tag { OnOk result (IsReference txn.new j) }
    ensures kept { Kept txn.old txn.new }
    ensures row { KeepsRow txn.old txn.new j (j + 1) }
    ensures refused { IfErr result (IsRefusal txn.old) }
{
    stand(txn);
    if let Err(fault) = txn.tail_ref(i, at, j) {
        stand(txn);
        return Err(fault);
    }
    Ok(())
}

/// Writes the reference at place k of the row, which may be nil, in item `at` of that tail.
pub fn set_tail_ref<D: Disk>(
    txn: &mut Txn<'_, D>,
    i: usize,
    at: u32,
    k: usize,
) -> Result<(), AccessFault>
    requires low { (i < 512) × (k < 512) }
    requires classes { HasClasses txn.old }
    requires there { Knows txn.old (λ st w. HasPlace w (name_at txn.old st i) (places.TailRef at)) }
    requires tagged { IsReference txn.old k }
    ensures made { OnOk result (Made txn.old txn.new (λ st v w. IsLike w (lookup.set (look_of v) (name_at txn.old st i) (places.TailRef at) (name_at txn.old st k)) v)) }
    ensures kept { OnErr result (Kept txn.old txn.new) }
    ensures row { KeepsRow txn.old txn.new 0 0 }
    ensures refused { IfErr result (IsRefusal txn.old) }
{
    stand(txn);
    if let Err(fault) = txn.set_tail_ref(i, at, k) {
        stand(txn);
        return Err(fault);
    }
    Ok(())
}
