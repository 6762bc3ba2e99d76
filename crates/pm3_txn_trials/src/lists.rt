//! Transactions on lists under root slots, with ambiguous numbers in the row.
ghost use Rattle.std.specs.Prelude.{◌≡◌, ◌<◌};
ghost use Rattle.pm3_txn.specs.Underway.{Belongs, HoldsNothing};

use crate::counting::{Refusal, ended};
use crate::making::make;
use crate::plans::{Kind, Plan};
use pm3_disk::Disk;
use pm3_journal::Receipt;
use pm3_txn::{AccessFault, CommitRefusal, Heap, Mutator, Txn};
use pm3_types::TypeNo;
use std::sync::Wait;

/// The type of the objects of lists.
pub(crate) const NODE: TypeNo = 0;

/// Its fields: a word, and the reference to the next object.
pub(crate) const WORD: u32 = 0;

pub(crate) const NEXT: u32 = 1;

/// The places of the row: an object of the list, the one behind it, and the new one.
const HERE: usize = 0;

const BEHIND: usize = 1;

const NEW: usize = 2;

/// The places of the row that get numbers.
const FAR: usize = 5;

const NEAR: usize = 6;

/// What a transaction found and made.
#[derive(Debug, PartialEq, Eq, Clone, Copy, Drop)]
pub struct Seen {
    /// The word of the object at which it worked, where there was one.
    pub found: Option<u64>,
    /// The name of the object that it pushed, or 0.
    pub name: u64,
}

/// An object of a list, as it is found in the end.
#[derive(Debug, PartialEq, Eq, Clone, Copy, Drop)]
pub struct Node {
    pub slot: u32,
    pub name: u64,
    pub word: u64,
}

/// The word of the object of the list, where there is one.
fn word_here<D: Disk>(txn: &mut Txn<'_, D>) -> Result<Option<u64>, AccessFault>
    ensures { txn.new.heap ≡ txn.old.heap }
{
    if txn.stack_word(HERE) == 0 {
        return Ok(None);
    }
    let word = txn.word(HERE, WORD)?;
    Ok(Some(word))
}

/// The word of the first object of a list, where there is one.
fn first_word<D: Disk>(txn: &mut Txn<'_, D>, slot: u32) -> Result<Option<u64>, AccessFault>
    requires low { slot < 16 }
    ensures { txn.new.heap ≡ txn.old.heap }
{
    txn.root(slot, HERE)?;
    word_here(txn)
}

/// Goes on to the object behind, where there is one. It tells whether there is.
fn go_on<D: Disk>(txn: &mut Txn<'_, D>) -> Result<bool, AccessFault>
    ensures { txn.new.heap ≡ txn.old.heap }
{
    txn.reference(HERE, NEXT, BEHIND)?;
    if txn.stack_word(BEHIND) == 0 {
        return Ok(false);
    }
    txn.reference(HERE, NEXT, HERE)?;
    Ok(true)
}

/// Goes on by so many objects, or to the last one.
fn walk<D: Disk>(txn: &mut Txn<'_, D>, depth: u32) -> Result<(), AccessFault>
    ensures { txn.new.heap ≡ txn.old.heap }
{
    for _ in 0..depth {
        if !go_on(txn)? {
            return Ok(());
        }
    }
    Ok(())
}

/// Puts a new object with a word at the front of a list.
fn push<D: Disk>(txn: &mut Txn<'_, D>, slot: u32, word: u64) -> Result<Seen, AccessFault>
    requires low { slot < 16 }
    ensures { txn.new.heap ≡ txn.old.heap }
{
    let found = first_word(txn, slot)?;
    make(txn, NODE, 0, NEW)?;
    txn.set_word(NEW, WORD, word)?;
    txn.set_reference(NEW, NEXT, HERE)?;
    txn.set_root(slot, NEW)?;
    let name = txn.name_of(NEW)?;
    Ok(Seen { found, name })
}

/// Writes the word of an object of a list, where it has any.
fn change<D: Disk>(
    txn: &mut Txn<'_, D>,
    slot: u32,
    depth: u32,
    word: u64,
) -> Result<Seen, AccessFault>
    requires low { slot < 16 }
    ensures { txn.new.heap ≡ txn.old.heap }
{
    let first = first_word(txn, slot)?;
    if first.is_none() {
        return Ok(Seen {
            found: None,
            name: 0,
        });
    }
    walk(txn, depth)?;
    let found = word_here(txn)?;
    txn.set_word(HERE, WORD, word)?;
    Ok(Seen { found, name: 0 })
}

/// Cuts the first object of a list off, where it has any.
fn cut<D: Disk>(txn: &mut Txn<'_, D>, slot: u32) -> Result<Seen, AccessFault>
    requires low { slot < 16 }
    ensures { txn.new.heap ≡ txn.old.heap }
{
    let found = first_word(txn, slot)?;
    if found.is_some() {
        txn.reference(HERE, NEXT, BEHIND)?;
        txn.set_root(slot, BEHIND)?;
    }
    Ok(Seen { found, name: 0 })
}

/// Makes an object to which nothing will refer, where the plan wants one.
fn spare<D: Disk>(txn: &mut Txn<'_, D>, plan: &Plan) -> Result<(), AccessFault>
    ensures { txn.new.heap ≡ txn.old.heap }
{
    if plan.spares {
        make(txn, NODE, 0, NEW)?;
    }
    Ok(())
}

/// Does what the plan wants with its list.
fn work<D: Disk>(txn: &mut Txn<'_, D>, plan: &Plan) -> Result<Seen, AccessFault>
    ensures { txn.new.heap ≡ txn.old.heap }
{
    let slot = plan.slot % 16;
    let word = u64::from(plan.tag);
    match plan.kind {
        Kind::Push => push(txn, slot, word),
        Kind::Change { depth } => change(txn, slot, depth, word),
        Kind::Cut => cut(txn, slot),
    }
}

/// Puts a number into the row that lies so far from the new object. Where a page is marked the place is nil.
fn put_near<D: Disk>(txn: &mut Txn<'_, D>, near: u64)
    ensures { txn.new.heap ≡ txn.old.heap }
{
    let at = txn.stack_word(NEW);
    let _ = txn.put_number(NEAR, at.wrapping_add(near));
}

/// Leaves no reference in the row.
fn clear_references<D: Disk>(txn: &mut Txn<'_, D>)
    ensures { txn.new.heap ≡ txn.old.heap }
{
    txn.clear(HERE);
    txn.clear(BEHIND);
    txn.clear(NEW);
}

/// All that a plan wants of a transaction before it commits.
fn act<D: Disk>(txn: &mut Txn<'_, D>, plan: &Plan) -> Result<Seen, AccessFault>
    ensures { txn.new.heap ≡ txn.old.heap }
{
    let _ = txn.put_number(FAR, plan.far);
    spare(txn, plan)?;
    let seen = work(txn, plan)?;
    put_near(txn, plan.near);
    clear_references(txn);
    Ok(seen)
}

/// Carries a plan out, in a transaction of its own.
fn attempt<D: Disk>(
    heap: &Heap<D>,
    mutator: Mutator<D>,
    plan: &Plan,
) -> (Mutator<D>, Result<(Seen, Receipt), Refusal>)
    requires of { Belongs D.Reader.content heap.now mutator }
    requires bare { HoldsNothing mutator }
    ensures belongs { Belongs D.Reader.content heap.now result.0 }
    ensures bare { HoldsNothing result.0 }
{
    let mut txn = mutator.begin(heap, plan.tag);
    match act(&mut txn, plan) {
        Ok(seen) => {
            let (mutator, done) = ended(txn);
            (mutator, done.map(|receipt| (seen, receipt)))
        }
        Err(fault) => (txn.abort(), Err(Refusal::Access(fault))),
    }
}

/// What a transaction did that has committed.
#[derive(Debug, PartialEq, Eq, Clone, Copy, Drop)]
pub struct Deed {
    pub plan: Plan,
    pub seen: Seen,
    /// How many pages were pinned, and how many objects moved.
    pub pinned: u32,
    pub moved: u32,
    /// How often it was begun again, since another mutator held what it asked for.
    pub retries: u32,
}

impl Deed {
    fn of(plan: Plan, seen: Seen, receipt: Receipt, retries: u32) -> Deed {
        Deed {
            plan,
            seen,
            pinned: receipt.pinned,
            moved: receipt.moved,
            retries,
        }
    }
}

/// Whether another mutator held what a transaction asked for.
fn is_busy(refusal: &Refusal) -> bool {
    matches!(
        refusal,
        Refusal::Access(AccessFault::Busy { .. }) | Refusal::Commit(CommitRefusal::Busy { .. })
    )
}

/// Carries a plan out, in a transaction that is begun again for as long as another mutator holds what it asks for.
pub(crate) fn carry_out<D: Disk, R: Wait>(
    rt: &R,
    heap: &Heap<D>,
    mutator: Mutator<D>,
    plan: Plan,
) -> (Mutator<D>, Result<Deed, Refusal>)
    requires of { Belongs D.Reader.content heap.now mutator }
    requires bare { HoldsNothing mutator }
    ensures belongs { Belongs D.Reader.content heap.now result.0 }
    ensures bare { HoldsNothing result.0 }
{
    let mut mutator = mutator;
    let mut retries: u32 = 0;
    for _ in rt.forever() {
        let (next, done) = attempt(heap, mutator, &plan);
        mutator = next;
        match done {
            Ok((seen, receipt)) => {
                return (mutator, Ok(Deed::of(plan, seen, receipt, retries)));
            }
            Err(refusal) => {
                if !is_busy(&refusal) {
                    return (mutator, Err(refusal));
                }
            }
        }
        retries = retries.saturating_add(1);
    }
    unreachable!()
}

/// Adds the objects of a list to those that were found.
fn list<D: Disk>(txn: &mut Txn<'_, D>, slot: u32, nodes: &mut Vec<Node>) -> Result<(), AccessFault>
    requires low { slot < 16 }
    ensures { txn.new.heap ≡ txn.old.heap }
{
    txn.root(slot, HERE)?;
    for _ in 0..u32::MAX {
        let Some(word) = word_here(txn)? else {
            return Ok(());
        };
        let name = txn.name_of(HERE)?;
        let Ok(()) = nodes.push(Node { slot, name, word }) else {
            return Err(AccessFault::Memory);
        };
        txn.reference(HERE, NEXT, HERE)?;
    }
    Ok(())
}

/// Adds the objects of all lists.
fn list_all<D: Disk>(txn: &mut Txn<'_, D>, nodes: &mut Vec<Node>) -> Result<(), AccessFault>
    ensures { txn.new.heap ≡ txn.old.heap }
{
    for slot in 0..16u32 {
        list(txn, slot, nodes)?;
    }
    Ok(())
}

/// Does so in a transaction that is given up.
pub(crate) fn listed<D: Disk>(
    heap: &Heap<D>,
    mutator: Mutator<D>,
    nodes: &mut Vec<Node>,
) -> (Mutator<D>, Result<(), AccessFault>)
    requires of { Belongs D.Reader.content heap.now mutator }
    requires bare { HoldsNothing mutator }
    ensures belongs { Belongs D.Reader.content heap.now result.0 }
    ensures bare { HoldsNothing result.0 }
{
    let mut txn = mutator.begin(heap, u32::MAX);
    let seen = list_all(&mut txn, nodes);
    (txn.abort(), seen)
}
