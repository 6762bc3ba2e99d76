//! What one transaction holds: pages, each alone, and a space of volatile pages or none.
//!
//! The layer above may rely on three things. A `Held` is seen as the images that it found and those that it has now, and each call
//! says exactly what it does to both; `Held::undo`, and after `Held::part` each of `rejoin`, `undo` and `finish`, bring it to its end
//! without memory, and pages drawn since are then among the free ones unless a commit keeps them. Each access is one operation on the
//! graph, under every book that fits what is held: a read or a write of a place of an object, or of a root slot of page 2, is that
//! operation on the part that is left, `NoPlace` is its refusal there, and a new object is a new record under the book that has its
//! name as well. Every call keeps the form of pages, under every catalog and every test of references that what is written passes; the
//! functions of `laws` say all this of holdings as values.
#![tactic(auto)]

// Pages that are held, and a space.
mod free_pages;
mod held;
mod held_pages;
mod held_space;
mod spaces;
mod undone;

// Places of objects, new objects, and root slots.
mod objects;
mod places;
mod roots;
mod spots;

// A commit: the parts of what is held.
mod moving;
mod parted;
mod parting;
mod rest;
mod rest_space;

// Laws of holdings as values.
mod laws;

// Tests, and the steps that they are made of.
#[cfg(test)]
mod access_tests;
#[cfg(test)]
mod parted_trials;
#[cfg(test)]
mod parting_tests;
#[cfg(test)]
mod tests;
#[cfg(test)]
mod trial_ends;
#[cfg(test)]
mod trial_steps;
#[cfg(test)]
mod trial_types;
#[cfg(test)]
mod trials;

pub use held::Held;
pub use laws::{
    admit_law, book_law, grow_law, make_law, place_law, read_law, root_law, sound_law, write_law,
};
pub use parted::Parted;
pub use places::{NoPlace, Place};
pub use rest::Rest;
pub use spaces::Space;
pub use undone::Undone;
