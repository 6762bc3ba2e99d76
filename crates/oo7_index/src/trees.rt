//! Trees: a new one, and the way to a key.
ghost use Rattle.std.specs.Prelude.{◌≡◌, ◌≢◌, ◌<◌, ◌+◌, [], IfErr, IfOk, OnErr, OnOk};
ghost use Rattle.oo7_schema.specs.Nodes.{IsIndex};
ghost use Rattle.oo7_objects.specs.Wholes.{HasClasses, HasNew, IsReference, Kept, KeepsRow, Knows, Made, look_of, name_at, new_object};
ghost use Rattle.oo7_index.specs.Cursors.{StandsBefore};
ghost use Rattle.oo7_index.specs.Departures.{Departs, LacksLeaf};
ghost use Rattle.oo7_index.specs.Descents.{IsFromKey, IsFromLeaf};
ghost use Rattle.oo7_index.specs.Faulting.{IsJobFault};

use crate::descents::{descend, first_at_least};
use crate::entries::{Entry, entry_at, next_leaf};
use crate::faults::JobFault;
use crate::nodes::{LEAF, TREE, count_in};
use oo7_objects::make;
use pm3_disk::Disk;
use pm3_txn::Txn;

/// Makes a tree without entries, and puts its reference at the place `tree`. No place from `scratch` on is needed for it.
pub fn create<D: Disk>(txn: &mut Txn<'_, D>, tree: usize, scratch: usize) -> Result<(), JobFault>
    requires low { tree < 512 }
    requires classes { HasClasses txn.old }
    ensures made { OnOk result (Made txn.old txn.new (λ st v w. HasNew w (name_at txn.new st tree) (new_object 11 0) v)) }
    ensures index { OnOk result (Knows txn.new (λ st w. IsIndex (look_of w) (name_at txn.new st tree) [])) }
    ensures tag { OnOk result (IsReference txn.new tree) }
    ensures kept { OnErr result (Kept txn.old txn.new) }
    ensures row { KeepsRow txn.old txn.new tree (tree + 1) }
    ensures refused { IfErr result (IsJobFault txn.old txn.new (λ st w n. ⊥)) }
{
    let _ = scratch;
    if let Err(fault) = make(txn, TREE, 0, tree) {
        return Err(JobFault::Access(fault));
    }
    Ok(())
}

/// The first entry of a tree whose key is at least this one, and its leaf in the place `leaf`. There is none exactly where all keys are
/// below. No place from `scratch` on is needed for it.
pub fn seek<D: Disk>(
    txn: &mut Txn<'_, D>,
    tree: usize,
    key: u64,
    leaf: usize,
    scratch: usize,
) -> Result<Option<Entry>, JobFault>
    requires low { (tree < 512) × (leaf < 512) }
    requires classes { HasClasses txn.old }
    requires some { Knows txn.old (λ st w. name_at txn.old st tree ≢ 0) }
    ensures told { IfOk result (StandsBefore txn.new leaf (λ st w. IsFromKey w (name_at txn.old st tree) key)) }
    ensures kept { Kept txn.old txn.new }
    ensures row { KeepsRow txn.old txn.new leaf (leaf + 1) }
    ensures refused { IfErr result (IsJobFault txn.old txn.new (λ st w. Departs w (name_at txn.old st tree))) }
{
    let _ = scratch;
    let found = match descend(txn, tree, key, leaf) {
        Ok(found) => found,
        Err(fault) => return Err(fault),
    };
    if !found {
        return Ok(None);
    }
    match first_from(txn, leaf, key) {
        Ok(Some(next)) => Ok(Some(next)),
        Ok(None) => Ok(None),
        Err(fault) => Err(fault),
    }
}

/// The first entry whose key is at least this one, from the leaf at the end of the way to it: of this leaf, or of the one that follows.
fn first_from<D: Disk>(
    txn: &mut Txn<'_, D>,
    leaf: usize,
    key: u64,
) -> Result<Option<Entry>, JobFault>
    requires low { leaf < 512 }
    requires classes { HasClasses txn.old }
    requires some { Knows txn.old (λ st w. name_at txn.old st leaf ≢ 0) }
    ensures told { IfOk result (StandsBefore txn.new leaf (λ st w. IsFromLeaf (look_of w) (name_at txn.old st leaf) key)) }
    ensures kept { Kept txn.old txn.new }
    ensures row { KeepsRow txn.old txn.new leaf (leaf + 1) }
    ensures refused { IfErr result (IsJobFault txn.old txn.new (λ st w. LacksLeaf w (name_at txn.old st leaf))) }
{
    let count = match count_in(txn, leaf, LEAF) {
        Ok(count) => count,
        Err(fault) => return Err(fault),
    };
    let at = match first_at_least(txn, leaf, 2, count, key) {
        Ok(at) => at,
        Err(fault) => return Err(JobFault::Access(fault)),
    };
    if at < count {
        let next = match entry_at(txn, leaf, at) {
            Ok(next) => next,
            Err(fault) => return Err(JobFault::Access(fault)),
        };
        return Ok(Some(next));
    }
    match next_leaf(txn, leaf) {
        Ok(Some(next)) => Ok(Some(next)),
        Ok(None) => Ok(None),
        Err(fault) => Err(fault),
    }
}
