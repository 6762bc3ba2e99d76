//! The calls of a transaction, said of the whole graph.
//!
//! The layer above may rely on three things. What a transaction knows of the graph (`Knows` of specs/) holds of whichever graph it may
//! commit on, whatever others commit before, and stays known over each call that only reads. What is written changes that one place of
//! the graph, and what is made is one new object, so that each graph behind a call was made of one before it (`Made`). And where an
//! object is known to have a place, a call on it is refused only as a run may be: a unit of another, a device, a limit, or memory.
#![tactic(auto)]

mod fields;
mod kinds;
mod makes;
mod places;
mod roots;
mod spots;
mod standing;
mod tails;

pub use fields::{reference, set_reference, set_word, word};
pub use kinds::{name_of, type_of};
pub use makes::make;
pub use places::{clear, copy, is_nil};
pub use roots::{root, set_root};
pub use spots::{Spot, spot_of};
pub use tails::{set_tail_ref, tail_len, tail_ref};
