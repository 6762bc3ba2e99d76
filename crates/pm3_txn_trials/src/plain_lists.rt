//! Transactions on lists, done on the plain graph.
use crate::lists::{Deed, NEXT, NODE, Node, Seen, WORD};
use crate::plans::Kind;
use pm3_graph::{Op, Plain};
use pm3_types::Catalog;

/// Does an operation that may be asked for and is a step.
fn apply(plain: &mut Plain, catalog: &Catalog, op: Op) -> Option<u64> {
    if !op.is_allowed(catalog) {
        return None;
    }
    plain.apply(catalog, op).ok()
}

/// The word of an object, where the name isn't nil.
fn word_of(plain: &mut Plain, catalog: &Catalog, name: u64) -> Option<Option<u64>> {
    if name == 0 {
        return Some(None);
    }
    let word = apply(plain, catalog, Op::Word { name, field: WORD })?;
    Some(Some(word))
}

/// Makes an object with a word, behind which another one stands.
fn make(plain: &mut Plain, catalog: &Catalog, name: u64, word: u64, to: u64) -> Option<u64> {
    let new = Op::New {
        name,
        ty: NODE,
        tail: 0,
    };
    apply(plain, catalog, new)?;
    let set = Op::SetWord {
        name,
        field: WORD,
        value: word,
    };
    apply(plain, catalog, set)?;
    let link = Op::SetReference {
        name,
        field: NEXT,
        to,
    };
    apply(plain, catalog, link)
}

/// Puts an object of this name at the front of a list.
fn push(plain: &mut Plain, catalog: &Catalog, slot: u32, name: u64, word: u64) -> Option<Seen> {
    let first = apply(plain, catalog, Op::Root { slot })?;
    let found = word_of(plain, catalog, first)?;
    make(plain, catalog, name, word, first)?;
    apply(plain, catalog, Op::SetRoot { slot, to: name })?;
    Some(Seen { found, name })
}

/// The object that stands behind so many others, or the last one.
fn behind(plain: &mut Plain, catalog: &Catalog, first: u64, depth: u32) -> Option<u64> {
    let mut name = first;
    for _ in 0..depth {
        let next = apply(plain, catalog, Op::Reference { name, field: NEXT })?;
        if next == 0 {
            return Some(name);
        }
        name = next;
    }
    Some(name)
}

/// Writes the word of an object of a list, where it has any.
fn change(plain: &mut Plain, catalog: &Catalog, slot: u32, depth: u32, word: u64) -> Option<Seen> {
    let first = apply(plain, catalog, Op::Root { slot })?;
    if first == 0 {
        return Some(Seen {
            found: None,
            name: 0,
        });
    }
    let name = behind(plain, catalog, first, depth)?;
    let found = word_of(plain, catalog, name)?;
    let set = Op::SetWord {
        name,
        field: WORD,
        value: word,
    };
    apply(plain, catalog, set)?;
    Some(Seen { found, name: 0 })
}

/// Cuts the first object of a list off, where it has any.
fn cut(plain: &mut Plain, catalog: &Catalog, slot: u32) -> Option<Seen> {
    let name = apply(plain, catalog, Op::Root { slot })?;
    let found = word_of(plain, catalog, name)?;
    if name != 0 {
        let to = apply(plain, catalog, Op::Reference { name, field: NEXT })?;
        apply(plain, catalog, Op::SetRoot { slot, to })?;
    }
    Some(Seen { found, name: 0 })
}

/// Does what a transaction did. It tells what is found then, where each operation is a step.
pub(crate) fn redo(plain: &mut Plain, catalog: &Catalog, deed: &Deed) -> Option<Seen> {
    let slot = deed.plan.slot;
    let word = u64::from(deed.plan.tag);
    match deed.plan.kind {
        Kind::Push => push(plain, catalog, slot, deed.seen.name, word),
        Kind::Change { depth } => change(plain, catalog, slot, depth, word),
        Kind::Cut => cut(plain, catalog, slot),
    }
}

/// Adds the objects of a list to those that were found.
fn list(plain: &mut Plain, catalog: &Catalog, slot: u32, nodes: &mut Vec<Node>) -> Option<()> {
    let mut name = apply(plain, catalog, Op::Root { slot })?;
    for _ in 0..u32::MAX {
        let Some(word) = word_of(plain, catalog, name)? else {
            return Some(());
        };
        let Ok(()) = nodes.push(Node { slot, name, word }) else {
            return None;
        };
        name = apply(plain, catalog, Op::Reference { name, field: NEXT })?;
    }
    None
}

/// Adds the objects of all lists.
pub(crate) fn list_all(plain: &mut Plain, catalog: &Catalog, nodes: &mut Vec<Node>) -> Option<()> {
    for slot in 0..16u32 {
        list(plain, catalog, slot, nodes)?;
    }
    Some(())
}
