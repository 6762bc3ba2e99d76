//! The way from a tree down to a leaf.
ghost use Rattle.std.specs.Prelude.{◌≡◌, ◌≢◌, ◌+◌, ◌<◌, ◌≤◌, ◌↔◌, ℕ, true, false, IsTrue, IfOk, IfErr, OnOk};
ghost use Rattle.pm3_types.specs.declared.places.Place.TheVariants as places;
ghost use Rattle.oo7_schema.specs.Lookup as lookup;
ghost use Rattle.oo7_objects.specs.Refusing.{IsRefusal};
ghost use Rattle.oo7_objects.specs.Wholes.{HasClasses, HasPlace, Kept, KeepsRow, Knows, look_of, name_at};
ghost use Rattle.oo7_index.specs.Descents.{IsBelow, IsFirst, IsOnWayTo};
ghost use Rattle.oo7_index.specs.Departures.{Departs};
ghost use Rattle.oo7_index.specs.Faulting.{IsJobFault};
ghost use Rattle.oo7_index.specs.Looks.{LacksChild, LooksNode, LooksTree};

use crate::faults::JobFault;
use crate::nodes::{INNER, TREE, count_in, expect, follow};
use oo7_objects::{spot_of, word};
use pm3_disk::Disk;
use pm3_txn::{AccessFault, Txn};

/// The height of a tree, from 0 to 16.
pub(crate) fn height_of<D: Disk>(txn: &mut Txn<'_, D>, tree: usize) -> Result<u32, JobFault>
    requires low { tree < 512 }
    requires classes { HasClasses txn.old }
    requires some { Knows txn.old (λ st w. name_at txn.old st tree ≢ 0) }
    ensures told { IfOk result (λ height. Knows txn.new (λ st w. LooksTree w (name_at txn.old st tree) × (lookup.word (look_of w) (name_at txn.old st tree) 0 ≡ height))) }
    ensures range { IfOk result (λ height. height ≤ 16) }
    ensures kept { Kept txn.old txn.new }
    ensures row { KeepsRow txn.old txn.new 0 0 }
    ensures refused { IfErr result (IsJobFault txn.old txn.new (λ st w n. (n ≡ name_at txn.old st tree) × (LooksTree w n → ⊥))) }
{
    if let Err(fault) = expect(txn, tree, TREE) {
        return Err(fault);
    }
    let height = match word(txn, tree, 0) {
        Ok(height) => height,
        Err(fault) => return Err(JobFault::Access(fault)),
    };
    let entries = match word(txn, tree, 1) {
        Ok(entries) => entries,
        Err(fault) => return Err(JobFault::Access(fault)),
    };
    if !may_be(height, entries) {
        let spot = spot_of(txn, tree);
        return Err(JobFault::NotADesign {
            page: spot.page,
            word: spot.word,
        });
    }
    Ok(height as u32)
}

/// Whether a tree may have this height and so many entries.
fn may_be(height: u64, entries: u64) -> bool
    ensures { IsTrue result ↔ ((height ≤ 16) × (entries ≤ 4194304)) }
{
    height <= 16 && entries <= 4_194_304
}

/// The first of the `count` words of a node from field `from` on that isn't below the key, and `count` where there is none.
pub(crate) fn first_at_least<D: Disk>(
    txn: &mut Txn<'_, D>,
    node: usize,
    from: u32,
    count: u32,
    key: u64,
) -> Result<u32, AccessFault>
    requires low { (node < 512) × (from + count ≤ 32) }
    requires classes { HasClasses txn.old }
    requires there { Knows txn.old (λ st w. (k : ℕ) → k < count → HasPlace w (name_at txn.old st node) (places.Word (from + k))) }
    ensures told { IfOk result (λ m. Knows txn.new (λ st w. IsFirst (λ k. lookup.word (look_of w) (name_at txn.old st node) (from + k)) key count m)) }
    ensures most { IfOk result (λ m. m ≤ count) }
    ensures kept { Kept txn.old txn.new }
    ensures row { KeepsRow txn.old txn.new 0 0 }
    ensures refused { IfErr result (IsRefusal txn.old) }
{
    for m in 0..count {
        let found = match word(txn, node, from + m) {
            Ok(found) => found,
            Err(fault) => return Err(fault),
        };
        if key <= found {
            return Ok(m);
        }
    }
    Ok(count)
}

/// Goes from an inner node to the child under which a key is looked for, in the same place of the row.
pub(crate) fn go_down<D: Disk>(txn: &mut Txn<'_, D>, node: usize, key: u64) -> Result<(), JobFault>
    requires low { node < 512 }
    requires classes { HasClasses txn.old }
    requires some { Knows txn.old (λ st w. name_at txn.old st node ≢ 0) }
    ensures told { OnOk result (Knows txn.new (λ st w. IsBelow w (name_at txn.old st node) key (name_at txn.new st node))) }
    ensures kept { Kept txn.old txn.new }
    ensures row { KeepsRow txn.old txn.new node (node + 1) }
    ensures refused { IfErr result (IsJobFault txn.old txn.new (λ st w n. (n ≡ name_at txn.old st node) × (LooksNode w 10 n → LacksChild w n))) }
{
    let count = match count_in(txn, node, INNER) {
        Ok(count) => count,
        Err(fault) => return Err(fault),
    };
    let at = match first_at_least(txn, node, 1, count, key) {
        Ok(at) => at,
        Err(fault) => return Err(JobFault::Access(fault)),
    };
    if let Err(fault) = follow(txn, node, 16 + at, node) {
        return Err(fault);
    }
    Ok(())
}

/// Goes from a tree down to the leaf on the way to a key, in the place `leaf`. A tree of height 0 has none.
pub(crate) fn descend<D: Disk>(
    txn: &mut Txn<'_, D>,
    tree: usize,
    key: u64,
    leaf: usize,
) -> Result<bool, JobFault>
    requires low { (tree < 512) × (leaf < 512) }
    requires classes { HasClasses txn.old }
    requires some { Knows txn.old (λ st w. name_at txn.old st tree ≢ 0) }
    ensures told { IfOk result (λ found. found ≡ true → Knows txn.new (λ st w. IsOnWayTo w (name_at txn.old st tree) key 0 (name_at txn.new st leaf))) }
    ensures none { IfOk result (λ found. found ≡ false → Knows txn.new (λ st w. lookup.word (look_of w) (name_at txn.old st tree) 0 ≡ 0)) }
    ensures kept { Kept txn.old txn.new }
    ensures row { KeepsRow txn.old txn.new leaf (leaf + 1) }
    ensures refused { IfErr result (IsJobFault txn.old txn.new (λ st w. Departs w (name_at txn.old st tree))) }
{
    let height = match height_of(txn, tree) {
        Ok(height) => height,
        Err(fault) => return Err(fault),
    };
    if height == 0 {
        return Ok(false);
    }
    if let Err(fault) = follow(txn, tree, 2, leaf) {
        return Err(fault);
    }
    let mut left = height - 1;
    while left > 0 {
        if let Err(fault) = go_down(txn, leaf, key) {
            return Err(fault);
        }
        left -= 1;
    }
    Ok(true)
}
