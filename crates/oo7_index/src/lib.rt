//! The index of designs: a B+ tree of objects of the heap. So far it is made and read; how entries come and go is still to come.
//!
//! The layer above may rely on three things. A cursor, which is a leaf at a place of the row and an entry of it, stands for a rest of the
//! tree's list of entries (`From` of specs/): `seek` gives that from a key on, `advance` that without its first, and each is none exactly
//! where the rest is empty. Each call tells of whichever graph the transaction may commit on, and of any tree there that is an index. And
//! an object that is answered as none of a design is the one that was read, and departs from one (`Departs`), which none of an index does.
#![tactic(auto)]

mod descents;
mod entries;
mod faults;
mod laws;
mod nodes;
mod trees;

pub use entries::{Entry, advance, value};
pub use faults::JobFault;
pub use laws::departures;
pub use trees::{create, seek};
