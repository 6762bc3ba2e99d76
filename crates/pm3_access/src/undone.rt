//! What a transaction gives back.
use crate::spaces::Space;
use pm3_page::Pages;

/// What a transaction gives back.
#[derive(Debug, Drop)]
pub struct Undone {
    /// The pages that were held alone and not written.
    pub pages: Pages,
    /// The pages that were written, after a commit alone.
    pub written: Pages,
    /// The space, or None exactly where none was held.
    pub space: Option<Space>,
}
