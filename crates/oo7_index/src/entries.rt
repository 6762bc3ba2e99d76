//! Entries of a tree, and cursors.
ghost use Rattle.std.specs.Prelude.{◌≡◌, ◌≢◌, ◌<◌, ◌+◌, IfOk, IfErr, OnOk, MatchOption};
ghost use Rattle.oo7_schema.specs.Lookup as lookup;
ghost use Rattle.oo7_schema.specs.Nodes as nodes;
ghost use Rattle.oo7_objects.specs.Wholes.{HasClasses, IsReference, Kept, KeepsRow, Knows, look_of, name_at};
ghost use Rattle.oo7_index.specs.Cursors.{IsBehind, IsCursor, IsNext, StandsBefore};
ghost use Rattle.oo7_index.specs.Faulting.{IsJobFault};
ghost use Rattle.oo7_objects.specs.Refusing.{IsRefusal};
ghost use Rattle.oo7_index.specs.Looks.{LooksNode};

use crate::faults::JobFault;
use crate::nodes::{LEAF, count_in, follow};
use oo7_objects::{is_nil, reference, word};
use pm3_disk::Disk;
use pm3_txn::{AccessFault, Txn};

/// An entry of a leaf: its key, and its number among the leaf's entries.
#[derive(Clone, Copy, Debug, PartialEq, Eq, Drop)]
pub struct Entry {
    pub key: u64,
    pub at: u32,
}

/// The next entry of the tree, and none exactly behind the last one. The leaf place has the leaf of `entry`, and then that of the
/// next one.
pub fn advance<D: Disk>(
    txn: &mut Txn<'_, D>,
    leaf: usize,
    entry: Entry,
) -> Result<Option<Entry>, JobFault>
    requires low { leaf < 512 }
    requires classes { HasClasses txn.old }
    requires cursor { Knows txn.old (λ st w. IsCursor w (name_at txn.old st leaf) entry.key entry.at) }
    ensures told { IfOk result (StandsBefore txn.new leaf (λ st w. IsBehind (look_of w) (name_at txn.old st leaf) entry.at)) }
    ensures kept { Kept txn.old txn.new }
    ensures row { KeepsRow txn.old txn.new leaf (leaf + 1) }
    ensures refused { IfErr result (IsJobFault txn.old txn.new (λ st w n. (n ≡ lookup.reference (look_of w) (name_at txn.old st leaf) 1) × (n ≢ 0) × (LooksNode w 9 n → ⊥))) }
{
    let count = match count_in(txn, leaf, LEAF) {
        Ok(count) => count,
        Err(fault) => return Err(fault),
    };
    if entry.at < count - 1 {
        let next = match entry_at(txn, leaf, entry.at + 1) {
            Ok(next) => next,
            Err(fault) => return Err(JobFault::Access(fault)),
        };
        return Ok(Some(next));
    }
    match next_leaf(txn, leaf) {
        Ok(Some(next)) => Ok(Some(next)),
        Ok(None) => Ok(None),
        Err(fault) => Err(fault),
    }
}

/// Puts the object of an entry of a leaf at place j of the row.
pub fn value<D: Disk>(
    txn: &mut Txn<'_, D>,
    leaf: usize,
    entry: Entry,
    j: usize,
) -> Result<(), JobFault>
    requires low { (leaf < 512) × (j < 512) }
    requires classes { HasClasses txn.old }
    requires cursor { Knows txn.old (λ st w. IsCursor w (name_at txn.old st leaf) entry.key entry.at) }
    ensures told { OnOk result (Knows txn.new (λ st w. (nodes.entry_at (look_of w) (name_at txn.old st leaf) entry.at ≡ (entry.key, name_at txn.new st j)) × (name_at txn.new st j ≢ 0))) }
    ensures tag { OnOk result (IsReference txn.new j) }
    ensures kept { Kept txn.old txn.new }
    ensures row { KeepsRow txn.old txn.new j (j + 1) }
    ensures refused { IfErr result (IsJobFault txn.old txn.new (λ st w n. (n ≡ name_at txn.old st leaf) × ((nodes.entry_at (look_of w) n entry.at).1 ≡ 0))) }
{
    let count = match count_in(txn, leaf, LEAF) {
        Ok(count) => count,
        Err(fault) => return Err(fault),
    };
    let at = entry.at.min(count - 1);
    if let Err(fault) = follow(txn, leaf, 17 + at, j) {
        return Err(fault);
    }
    Ok(())
}

/// Entry `at` of a leaf.
pub(crate) fn entry_at<D: Disk>(
    txn: &mut Txn<'_, D>,
    leaf: usize,
    at: u32,
) -> Result<Entry, AccessFault>
    requires low { (leaf < 512) × (at < 15) }
    requires classes { HasClasses txn.old }
    requires there { Knows txn.old (λ st w. LooksNode w 9 (name_at txn.old st leaf) × (at < lookup.word (look_of w) (name_at txn.old st leaf) 0)) }
    ensures told { IfOk result (λ entry. Knows txn.new (λ st w. IsCursor w (name_at txn.old st leaf) entry.key at)) }
    ensures at { IfOk result (λ entry. entry.at ≡ at) }
    ensures kept { Kept txn.old txn.new }
    ensures row { KeepsRow txn.old txn.new 0 0 }
    ensures refused { IfErr result (IsRefusal txn.old) }
{
    let key = match word(txn, leaf, 2 + at) {
        Ok(key) => key,
        Err(fault) => return Err(fault),
    };
    Ok(Entry { key, at })
}

/// Goes on to the leaf that follows, and to its first entry. There is none exactly behind the last leaf.
pub(crate) fn next_leaf<D: Disk>(
    txn: &mut Txn<'_, D>,
    leaf: usize,
) -> Result<Option<Entry>, JobFault>
    requires low { leaf < 512 }
    requires classes { HasClasses txn.old }
    requires leaf_is { Knows txn.old (λ st w. LooksNode w 9 (name_at txn.old st leaf)) }
    ensures told { IfOk result (λ found. MatchOption found
        (Knows txn.new (λ st w. lookup.reference (look_of w) (name_at txn.old st leaf) 1 ≡ 0))
        (λ next. Knows txn.new (λ st w. IsNext w (name_at txn.old st leaf) (name_at txn.new st leaf) next.key next.at))) }
    ensures kept { Kept txn.old txn.new }
    ensures row { KeepsRow txn.old txn.new leaf (leaf + 1) }
    ensures refused { IfErr result (IsJobFault txn.old txn.new (λ st w n. (n ≡ lookup.reference (look_of w) (name_at txn.old st leaf) 1) × (n ≢ 0) × (LooksNode w 9 n → ⊥))) }
{
    if let Err(fault) = reference(txn, leaf, 1, leaf) {
        return Err(JobFault::Access(fault));
    }
    if is_nil(txn, leaf) {
        return Ok(None);
    }
    if let Err(fault) = count_in(txn, leaf, LEAF) {
        return Err(fault);
    }
    let next = match entry_at(txn, leaf, 0) {
        Ok(next) => next,
        Err(fault) => return Err(JobFault::Access(fault)),
    };
    Ok(Some(next))
}
