//! A store on its two devices.
//!
//! A layer above may rely on three things. `create` makes two files that open to the graph without objects. What `checkpoint`
//! is given open it leaves open, and at each moment of it what a crash leaves of the two files opens to the same graph. A
//! call that is refused names its cause, and which of the two devices failed.
#![tactic(auto)]

#[cfg(test)]
mod crash_tests;
#[cfg(test)]
mod tests;

// What the definitions say of a page file that its journal is ahead of.
mod laws;

// A new store.
mod creation;

// A store is opened: why it isn't, and what is read.
mod causes;
mod opens;
mod page_reading;
mod picturing;

// The checkpoint, and the images that it writes set apart from the others.
mod checkpointing;
mod parting;

pub use causes::OpenCause;
pub use checkpointing::{CheckpointFault, checkpoint};
pub use creation::{CreateFault, create};
pub use laws::{carries_records, new_store_opens};
pub use opens::{OpenFault, open};
