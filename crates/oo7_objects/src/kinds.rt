//! Classes and names of objects.
ghost use Rattle.std.specs.Prelude.{◌≡◌, ◌<◌, ◌≢◌, IfOk, IfErr};
ghost use Rattle.oo7_objects.specs.Refusing.{IsRefusal};
ghost use Rattle.oo7_objects.specs.Wholes.{HasClasses, IsOfClass, Kept, KeepsRow, Knows, name_at};

use crate::standing::stand;
use pm3_disk::Disk;
use pm3_txn::{AccessFault, Txn};
use pm3_types::TypeNo;

/// The class of the object to which place i of the row leads, which is known not to be nil.
pub fn type_of<D: Disk>(txn: &mut Txn<'_, D>, i: usize) -> Result<TypeNo, AccessFault>
    requires low { i < 512 }
    requires classes { HasClasses txn.old }
    requires some { Knows txn.old (λ st w. name_at txn.old st i ≢ 0) }
    ensures told { IfOk result (λ ty. Knows txn.new (λ st w. IsOfClass w (name_at txn.old st i) ty)) }
    ensures kept { Kept txn.old txn.new }
    ensures row { KeepsRow txn.old txn.new 0 0 }
    ensures refused { IfErr result (IsRefusal txn.old) }
{
    stand(txn);
    let ty = match txn.type_of(i) {
        Ok(ty) => ty,
        Err(fault) => {
            stand(txn);
            return Err(fault);
        }
    };
    stand(txn);
    Ok(ty)
}

/// The name of that object.
pub fn name_of<D: Disk>(txn: &mut Txn<'_, D>, i: usize) -> Result<u64, AccessFault>
    requires low { i < 512 }
    requires classes { HasClasses txn.old }
    requires some { Knows txn.old (λ st w. name_at txn.old st i ≢ 0) }
    ensures told { IfOk result (λ name. Knows txn.new (λ st w. name_at txn.old st i ≡ name)) }
    ensures kept { Kept txn.old txn.new }
    ensures row { KeepsRow txn.old txn.new 0 0 }
    ensures refused { IfErr result (IsRefusal txn.old) }
{
    stand(txn);
    let name = match txn.name_of(i) {
        Ok(name) => name,
        Err(fault) => {
            stand(txn);
            return Err(fault);
        }
    };
    Ok(name)
}
