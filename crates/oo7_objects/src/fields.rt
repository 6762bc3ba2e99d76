//! Fields of objects.
ghost use Rattle.std.specs.Prelude.{◌≡◌, ◌<◌, ◌+◌, IfOk, IfErr, OnOk, OnErr};
ghost use Rattle.pm3_types.specs.declared.places.Place.TheVariants as places;
ghost use Rattle.oo7_schema.specs.Lookup as lookup;
ghost use Rattle.oo7_objects.specs.Refusing.{IsRefusal};
ghost use Rattle.oo7_objects.specs.Wholes.{HasClasses, HasPlace, IsLike, IsReference, Kept, KeepsRow, Knows, Made, look_of, name_at};

use crate::standing::stand;
use pm3_disk::Disk;
use pm3_txn::{AccessFault, Txn};

/// The word in field f of the object to which place i of the row leads, which is known to have such a field.
pub fn word<D: Disk>(txn: &mut Txn<'_, D>, i: usize, f: u32) -> Result<u64, AccessFault>
    requires low { i < 512 }
    requires classes { HasClasses txn.old }
    requires there { Knows txn.old (λ st w. HasPlace w (name_at txn.old st i) (places.Word f)) }
    ensures told { IfOk result (λ value. Knows txn.new (λ st w. lookup.word (look_of w) (name_at txn.old st i) f ≡ value)) }
    ensures kept { Kept txn.old txn.new }
    ensures row { KeepsRow txn.old txn.new 0 0 }
    ensures refused { IfErr result (IsRefusal txn.old) }
{
    stand(txn);
    let value = match txn.word(i, f) {
        Ok(value) => value,
        Err(fault) => {
            stand(txn);
            return Err(fault);
        }
    };
    Ok(value)
}

/// Writes the word in field f of that object.
pub fn set_word<D: Disk>(
    txn: &mut Txn<'_, D>,
    i: usize,
    f: u32,
    value: u64,
) -> Result<(), AccessFault>
    requires low { i < 512 }
    requires classes { HasClasses txn.old }
    requires there { Knows txn.old (λ st w. HasPlace w (name_at txn.old st i) (places.Word f)) }
    ensures made { OnOk result (Made txn.old txn.new (λ st v w. IsLike w (lookup.set (look_of v) (name_at txn.old st i) (places.Word f) value) v)) }
    ensures kept { OnErr result (Kept txn.old txn.new) }
    ensures row { KeepsRow txn.old txn.new 0 0 }
    ensures refused { IfErr result (IsRefusal txn.old) }
{
    stand(txn);
    if let Err(fault) = txn.set_word(i, f, value) {
        stand(txn);
        return Err(fault);
    }
    Ok(())
}

/// Puts the reference in field f of that object at place j of the row. Where the page that it names has a mark, which is refused as
/// Busy, place j is nil.
pub fn reference<D: Disk>(
    txn: &mut Txn<'_, D>,
    i: usize,
    f: u32,
    j: usize,
) -> Result<(), AccessFault>
    requires low { (i < 512) × (j < 512) }
    requires classes { HasClasses txn.old }
    requires there { Knows txn.old (λ st w. HasPlace w (name_at txn.old st i) (places.Reference f)) }
    ensures told { OnOk result (Knows txn.new (λ st w. lookup.reference (look_of w) (name_at txn.old st i) f ≡ name_at txn.new st j)) }
    ensures tag { OnOk result (IsReference txn.new j) }
    ensures kept { Kept txn.old txn.new }
    ensures row { KeepsRow txn.old txn.new j (j + 1) }
    ensures refused { IfErr result (IsRefusal txn.old) }
{
    stand(txn);
    if let Err(fault) = txn.reference(i, f, j) {
        stand(txn);
        return Err(fault);
    }
    Ok(())
}

/// Writes the reference at place k of the row, which may be nil, in field f of that object.
pub fn set_reference<D: Disk>(
    txn: &mut Txn<'_, D>,
    i: usize,
    f: u32,
    k: usize,
) -> Result<(), AccessFault>
    requires low { (i < 512) × (k < 512) }
    requires classes { HasClasses txn.old }
    requires there { Knows txn.old (λ st w. HasPlace w (name_at txn.old st i) (places.Reference f)) }
    requires tagged { IsReference txn.old k }
    ensures made { OnOk result (Made txn.old txn.new (λ st v w. IsLike w (lookup.set (look_of v) (name_at txn.old st i) (places.Reference f) (name_at txn.old st k)) v)) }
    ensures kept { OnErr result (Kept txn.old txn.new) }
    ensures row { KeepsRow txn.old txn.new 0 0 }
    ensures refused { IfErr result (IsRefusal txn.old) }
{
    stand(txn);
    if let Err(fault) = txn.set_reference(i, f, k) {
        stand(txn);
        return Err(fault);
    }
    Ok(())
}
