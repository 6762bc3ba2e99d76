//! Places of the row.
ghost use Rattle.std.specs.Prelude.{◌≡◌, ◌↔◌, ◌<◌, ◌+◌, IsTrue, OnOk, OnErr, IfErr};
ghost use Rattle.pm3_core.specs.declared.naming.TheConstants.{BASE};
ghost use Rattle.pm3_history.specs.Opens.{Opens};
ghost use Rattle.pm3_history.specs.State.{State};
ghost use Rattle.pm3_txn.specs.States.{told_in};
ghost use Rattle.oo7_objects.specs.Wholes.{IsReference, Kept, KeepsRow, name_at};

use crate::standing::stand;
use pm3_disk::Disk;
use pm3_table::Busy;
use pm3_txn::Txn;

/// Whether a place that holds a reference is nil.
pub fn is_nil<D: Disk>(txn: &mut Txn<'_, D>, k: usize) -> bool
    requires low { k < 512 }
    requires tagged { IsReference txn.old k }
    ensures nil { (st : State) → Opens BASE (told_in txn.old).pages (told_in txn.old).opening st → IsTrue result ↔ (name_at txn.old st k ≡ 0) }
    ensures kept { Kept txn.old txn.new }
    ensures row { KeepsRow txn.old txn.new 0 0 }
{
    stand(txn);
    let word = txn.stack_word(k);
    word == 0
}

/// Lets place j of the row lead where place i does. Where the page that it names has a mark, which is refused, place j is nil.
pub fn copy<D: Disk>(txn: &mut Txn<'_, D>, i: usize, j: usize) -> Result<(), Busy>
    requires low { (i < 512) × (j < 512) }
    requires tagged { IsReference txn.old i }
    ensures led { OnOk result ((st : State) → Opens BASE (told_in txn.old).pages (told_in txn.old).opening st → name_at txn.new st j ≡ name_at txn.old st i) }
    ensures tag { IsReference txn.new j }
    ensures kept { Kept txn.old txn.new }
    ensures row { KeepsRow txn.old txn.new j (j + 1) }
{
    stand(txn);
    if let Err(busy) = txn.copy(i, j) {
        return Err(busy);
    }
    Ok(())
}

/// Makes a place nil.
pub fn clear<D: Disk>(txn: &mut Txn<'_, D>, j: usize)
    requires low { j < 512 }
    ensures nil { (st : State) → name_at txn.new st j ≡ 0 }
    ensures tag { IsReference txn.new j }
    ensures kept { Kept txn.old txn.new }
    ensures row { KeepsRow txn.old txn.new j (j + 1) }
{
    stand(txn);
    txn.clear(j);
}
