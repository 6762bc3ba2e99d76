//! What transactions on lists are to do, drawn by a seed.
use oo7_build::Draws;
use pm3_core::{BASE, PAGE_BYTES};

/// How many root slots have lists.
pub const SLOTS: u32 = 4;

/// How many pages the store has.
pub const PAGES: u32 = 512;

/// What a transaction does with a list.
#[derive(Debug, PartialEq, Eq, Clone, Copy, Drop)]
pub enum Kind {
    /// Puts a new object at the front.
    Push,
    /// Writes the word of the object that stands behind so many others, or of the last one.
    Change { depth: u32 },
    /// Cuts the first object off.
    Cut,
}

/// The work of one transaction.
#[derive(Debug, PartialEq, Eq, Clone, Copy, Drop)]
pub struct Plan {
    /// The thread and the count in it, which no other transaction has. It is also the word that is written.
    pub tag: u32,
    /// The root slot of the list.
    pub slot: u32,
    pub kind: Kind,
    /// Whether an object is made beside, to which nothing will refer.
    pub spares: bool,
    /// A number like an address on some page, which the row gets at first.
    pub far: u64,
    /// How far a number lies from the address of the new object, which the row gets in the end.
    pub near: u64,
}

impl Plan {
    /// Draws the work of a thread's transaction.
    pub fn draw(draws: &mut Draws, thread: u16, count: u16) -> Plan {
        Plan {
            tag: u32::from(thread) * 65536 + u32::from(count),
            slot: draws.below(SLOTS),
            kind: Kind::draw(draws),
            spares: draws.below(3) == 0,
            far: far(draws),
            near: near(draws),
        }
    }
}

impl Kind {
    /// Most transactions push.
    fn draw(draws: &mut Draws) -> Kind {
        match draws.below(6) {
            0 => Kind::Cut,
            1 => Kind::Change {
                depth: draws.below(4),
            },
            _ => Kind::Push,
        }
    }
}

/// A number like an address on one of the lower pages of the store.
fn far(draws: &mut Draws) -> u64 {
    let page = u64::from(draws.below(48));
    let byte = u64::from(draws.below(4096));
    BASE.wrapping_add(PAGE_BYTES.wrapping_mul(page))
        .wrapping_add(byte)
}

/// A distance of at most one page.
fn near(draws: &mut Draws) -> u64 {
    let pages = u64::from(draws.below(3));
    PAGE_BYTES.wrapping_mul(pages).wrapping_sub(PAGE_BYTES)
}
