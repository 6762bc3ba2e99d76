//! What threads committed is done again on the plain graph, in the order of the journal.
use crate::list_stores::{Told, list_types};
use crate::lists::{Deed, Node, Seen};
use crate::plain_lists::{list_all, redo};
use crate::trails::Trail;
use pm3_graph::Plain;
use pm3_types::Catalog;
use std::alloc::Global;

/// Why the plain graph doesn't tell the same.
#[derive(Debug, PartialEq, Eq, Clone, Copy, Drop)]
pub enum Odd {
    /// There was no memory.
    Memory,
    /// The commit with this tag isn't the next one of a thread.
    Stray { tag: u32 },
    /// The journal doesn't have all that the thread committed.
    Missing { thread: usize },
    /// On the plain graph a transaction finds something else, or is refused.
    Differs { deed: Deed, plain: Option<Seen> },
}

/// The deed of the thread that has a tag, which has to be its next one. It counts as done then.
fn due(trails: &[Trail; 4], done: &mut [usize; 4], tag: u32) -> Option<Deed> {
    let thread = (tag / 65536) as usize;
    if thread >= 4 {
        return None;
    }
    let deed = *trails[thread].deeds.get(done[thread])?;
    if deed.plan.tag != tag {
        return None;
    }
    done[thread] = done[thread].wrapping_add(1);
    Some(deed)
}

/// Does the transactions of these tags again, in this order. Each has to find what it found.
fn redo_all(
    plain: &mut Plain,
    catalog: &Catalog,
    trails: &[Trail; 4],
    tags: &[u32],
) -> Result<[usize; 4], Odd> {
    let mut done = [0; 4];
    for tag in tags {
        let Some(deed) = due(trails, &mut done, *tag) else {
            return Err(Odd::Stray { tag: *tag });
        };
        let plain = redo(plain, catalog, &deed);
        if plain != Some(deed.seen) {
            return Err(Odd::Differs { deed, plain });
        }
    }
    Ok(done)
}

/// Whether all that the threads committed was done.
fn all_done(trails: &[Trail; 4], done: &[usize; 4]) -> Result<(), Odd> {
    for thread in 0..4usize {
        if trails[thread].deeds.len() != done[thread] {
            return Err(Odd::Missing { thread });
        }
    }
    Ok(())
}

/// The objects of the lists of the plain graph after all that threads committed, in the order of the journal.
pub fn plain_nodes(alloc: Global, told: &Told) -> Result<Vec<Node>, Odd> {
    let Some(catalog) = list_types(alloc) else {
        return Err(Odd::Memory);
    };
    let mut plain = Plain::new(alloc);
    let done = redo_all(&mut plain, &catalog, &told.trails, &told.tags)?;
    all_done(&told.trails, &done)?;
    let mut nodes = Vec::new(alloc);
    let Some(()) = list_all(&mut plain, &catalog, &mut nodes) else {
        return Err(Odd::Memory);
    };
    Ok(nodes)
}
