//! The dump of an open store: what its roots reach, as text in which neither names nor addresses show.
//!
//! A layer above may rely on three things. Where both files of a store tell their bytes and open to a graph, the `Text` of
//! `dump` is exactly `dump` of that graph (`Dump` of pm3_types), and no damage is found; of every store it is the text of the
//! images that are held then. The store stays open, and its page file is only read: each page that is reached is loaded once,
//! and held from then on. A fault of the page file is answered exactly where it failed, and damage only where a reference
//! that was met leads to no object.
//!
//! Objects are read where they lie on the pages that are held, and their numbers stand in a table for each such page, so that an
//! object takes no memory but its number, its place in the order and its text.
#![tactic(auto)]

// Why a store isn't dumped.
mod faults;

// Addresses, the places of an object's body, and the numbers of the objects that were met.
mod addresses;
mod met;
mod object;
mod tables;

// All objects that the roots reach are met: pages are loaded, references followed, objects looked at in order.
mod holding;
mod looking;
mod meeting;
mod walking;

// The lines.
mod printing;
mod text;

// The whole, and what it is.
mod catalogs;
mod dumping;
mod laws;
#[cfg(test)]
mod tests;

pub use catalogs::types_are_sound;
pub use dumping::dump;
pub use faults::DumpFault;
pub use laws::dumps_by_address;
pub use text::Text;
