//! The mostly-copying pass (after Bartlett) over the images of a space, for a set of pinned pages that the caller gives: a page
//! that a word names stays whole where it is, and what is reached from it or from written pages moves off all others.
//!
//! The layer above may rely on three things. `plan` finds exactly the two sets of a pass: what turns persistent, the least set
//! that holds what the written images refer to and is closed under references and under the other objects of a pinned page, and
//! what stays in the space, the least set that holds the other objects of pinned pages and what these refer to; the numbers of
//! pages that it wants are exact and have a bound. `carry_out` moves each of their objects off the pinned pages once, to the place
//! that the order of addresses and the fresh pages tell, lets all references follow, takes no memory, and leaves no other object
//! and exactly the pages that `IsCarriedOut` names. So the images before and after show the same records, less the dead ones
//! (`carried_law`); pinned pages and those outside of the space keep their addresses (`quiet_law`); and what was promoted no
//! later pass moves or loses (`promoted_law`).
#![tactic(auto)]

// What is found, and what it leads to.
mod blocks;
mod finding;
mod finds;
mod index;
mod objects;

// The two sets, and which of their objects move.
mod keeping;
mod movers;
mod spreading;
mod wanted;

// The plan.
mod planning;
mod plans;

// Carrying it out.
mod carrying;
mod copying;
#[cfg(test)]
mod drawn_tests;
mod leaving;
mod moving;
#[cfg(test)]
mod pass_tests;
#[cfg(test)]
mod sample_pages;
mod sending;
mod tables;
mod update_pages;
mod updating;

// What holds of every pass.
mod laws;

pub use carrying::{Report, carry_out};
pub use laws::{carried_law, promoted_law, quiet_law};
pub use planning::plan;
pub use plans::Plan;
