//! The parts of what is held.
use crate::rest::Rest;
use pm3_page::Pages;

/// What a transaction holds, parted for a commit.
#[derive(Debug, Drop)]
pub struct Parted {
    /// The images of the held space as they are now. There are none where no space is held.
    pub volatile: Pages,
    /// The images of the pages held alone that are not as they were found.
    pub written: Pages,
    /// All else that is held.
    pub rest: Rest,
}
