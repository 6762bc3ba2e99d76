//! The journal of a store.
//!
//! The layer above may rely on three things. What the bytes of a journal say is a list of records (`records` of specs/),
//! the longest that stands behind the head. An append adds exactly its record, and at each moment of it a crash leaves the
//! list as it was, or with that record. From its receipt on every crash leaves that record.
#![tactic(auto)]

// Why calls are refused, and the lengths of the file's parts.
mod faults;
mod sizes;

// What a value was at an earlier moment, for clauses alone.
mod earlier;

// A journal without records.
mod creation;
mod file_head;

// What a commit hands over, and what is kept of it.
mod entries;
mod entry;
mod file_pages;
mod summary;

// The bytes of a record, and bytes behind a gate.
mod encoding;
mod gate;
mod record_front;

// A journal that is open: its states, appends, closings, images, and how it is recovered.
mod journal;

// What is read of a device: a stretch of it, one record, the list, the images, all of it.
mod device_reading;
mod image_reading;
mod list_reading;
mod record_reading;
mod window;

// A store that is open: its two files, and what is held of them.
mod opened;

// What the definitions say of worked bytes, and of the graph that files open to.
mod laws;
#[cfg(test)]
mod recover_tests;
#[cfg(test)]
mod tests;

pub use creation::create;
pub use earlier::Earlier;
pub use entries::Entries;
pub use entry::{Entry, Receipt};
pub use faults::{AppendFault, JournalFault, PageFault, RecoverFault};
pub use file_pages::FilePages;
pub use journal::Journal;
pub use journal::recover::recover;
pub use laws::{new_journal_is_empty, nothing_mends, opens_to_one_graph};
pub use opened::Opened;
