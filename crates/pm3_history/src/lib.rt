//! Histories of commits: what one commit adds, when it may follow what stands, and what stands after all of them.
//!
//! The layer above may rely on three things. A commit is plain images (`Done` of specs/), which its mutator has; what it is
//! as parts of a graph follows from what stood before it, and where its images may follow, the history stays lawful and its
//! operations are a run on the whole graph (`commit_law`). After every lawful history the images that stand show all that the
//! roots reach (`chronicle_law`), and a journal with its records and the page file open to just that (`files_law`). What stands
//! after a list of commits is a fold, so that a longer history goes on from a shorter one (`history_law`), and a page that is
//! held stands while others commit, as does a space (`held_law`, `space_law`).
#![tactic(auto)]

// Histories in general, and what every lawful one keeps.
mod chronicle;
mod law;

// One commit, the pages that are held before it, and the files behind it.
mod commit;
mod files;
mod held;

pub use chronicle::{bounds_law, chronicle_law};
pub use commit::{commit_law, last_image_law};
pub use files::files_law;
pub use held::{held_law, space_law};
pub use law::history_law;
