//! Nodes of a tree as they are looked at.
ghost use Rattle.std.specs.Prelude.{◌≡◌, ◌≢◌, ◌+◌, ◌<◌, ◌≤◌, ◌⊎◌, ◌↔◌, IsTrue, IfOk, IfErr, OnOk};
ghost use Rattle.pm3_types.specs.declared.places.Place.TheVariants as places;
ghost use Rattle.oo7_schema.specs.Lookup as lookup;
ghost use Rattle.oo7_objects.specs.Wholes.{HasClasses, HasPlace, IsOfClass, IsReference, Kept, KeepsRow, Knows, look_of, name_at};
ghost use Rattle.oo7_index.specs.Faulting.{IsJobFault};
ghost use Rattle.oo7_index.specs.Looks.{LooksNode};

use crate::faults::JobFault;
use oo7_objects::{is_nil, reference, spot_of, type_of, word};
use pm3_disk::Disk;
use pm3_txn::Txn;
use pm3_types::TypeNo;

/// The classes of a tree's objects.
pub(crate) const LEAF: TypeNo = 9;

pub(crate) const INNER: TypeNo = 10;

pub(crate) const TREE: TypeNo = 11;

/// Looks at the class of the object to which a place leads, which is known not to be nil.
pub(crate) fn expect<D: Disk>(
    txn: &mut Txn<'_, D>,
    at: usize,
    class: TypeNo,
) -> Result<(), JobFault>
    requires low { at < 512 }
    requires classes { HasClasses txn.old }
    requires some { Knows txn.old (λ st w. name_at txn.old st at ≢ 0) }
    ensures told { OnOk result (Knows txn.new (λ st w. IsOfClass w (name_at txn.old st at) class)) }
    ensures kept { Kept txn.old txn.new }
    ensures row { KeepsRow txn.old txn.new 0 0 }
    ensures refused { IfErr result (IsJobFault txn.old txn.new (λ st w n. (n ≡ name_at txn.old st at) × (IsOfClass w n class → ⊥))) }
{
    let found = match type_of(txn, at) {
        Ok(found) => found,
        Err(fault) => return Err(JobFault::Access(fault)),
    };
    if found != class {
        let spot = spot_of(txn, at);
        return Err(JobFault::NotADesign {
            page: spot.page,
            word: spot.word,
        });
    }
    Ok(())
}

/// The number of entries of a leaf, or of keys of an inner node, from 1 to 15.
pub(crate) fn count_in<D: Disk>(
    txn: &mut Txn<'_, D>,
    node: usize,
    class: TypeNo,
) -> Result<u32, JobFault>
    requires low { node < 512 }
    requires classes { HasClasses txn.old }
    requires node { (class ≡ 9) ⊎ (class ≡ 10) }
    requires some { Knows txn.old (λ st w. name_at txn.old st node ≢ 0) }
    ensures told { IfOk result (λ count. Knows txn.new (λ st w. LooksNode w class (name_at txn.old st node) × (lookup.word (look_of w) (name_at txn.old st node) 0 ≡ count))) }
    ensures range { IfOk result (λ count. (1 ≤ count) × (count ≤ 15)) }
    ensures kept { Kept txn.old txn.new }
    ensures row { KeepsRow txn.old txn.new 0 0 }
    ensures refused { IfErr result (IsJobFault txn.old txn.new (λ st w n. (n ≡ name_at txn.old st node) × (LooksNode w class n → ⊥))) }
{
    if let Err(fault) = expect(txn, node, class) {
        return Err(fault);
    }
    let count = match word(txn, node, 0) {
        Ok(count) => count,
        Err(fault) => return Err(JobFault::Access(fault)),
    };
    if !may_have(count) {
        let spot = spot_of(txn, node);
        return Err(JobFault::NotADesign {
            page: spot.page,
            word: spot.word,
        });
    }
    Ok(count as u32)
}

/// Puts the reference in field f of an object at place j of the row. An object in which it is nil departs.
pub(crate) fn follow<D: Disk>(
    txn: &mut Txn<'_, D>,
    i: usize,
    f: u32,
    j: usize,
) -> Result<(), JobFault>
    requires low { (i < 512) × (j < 512) }
    requires classes { HasClasses txn.old }
    requires some { Knows txn.old (λ st w. name_at txn.old st i ≢ 0) }
    requires there { Knows txn.old (λ st w. HasPlace w (name_at txn.old st i) (places.Reference f)) }
    ensures told { OnOk result (Knows txn.new (λ st w. (lookup.reference (look_of w) (name_at txn.old st i) f ≡ name_at txn.new st j) × (name_at txn.new st j ≢ 0))) }
    ensures tag { OnOk result (IsReference txn.new j) }
    ensures kept { Kept txn.old txn.new }
    ensures row { KeepsRow txn.old txn.new j (j + 1) }
    ensures refused { IfErr result (IsJobFault txn.old txn.new (λ st w n. (n ≡ name_at txn.old st i) × (lookup.reference (look_of w) n f ≡ 0))) }
{
    let spot = spot_of(txn, i);
    if let Err(fault) = reference(txn, i, f, j) {
        return Err(JobFault::Access(fault));
    }
    if is_nil(txn, j) {
        return Err(JobFault::NotADesign {
            page: spot.page,
            word: spot.word,
        });
    }
    Ok(())
}

/// Whether a node may have so many entries or keys.
fn may_have(count: u64) -> bool
    ensures { IsTrue result ↔ ((1 ≤ count) × (count ≤ 15)) }
{
    (1..=15).contains(&count)
}
