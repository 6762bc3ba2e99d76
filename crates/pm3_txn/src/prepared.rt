//! What a pass needs.
use pm3_copy::Plan;
use pm3_journal::FilePages;
use pm3_page::{PageSet, Pages};

/// All that the pass of a commit needs, so that it takes no memory once it is carried out.
#[derive(Drop)]
pub(crate) struct Prepared {
    pub(crate) plan: Plan,
    /// The pages of the space that words of the rows pin.
    pub(crate) pins: PageSet,
    /// Blank images of free pages of the space, as many as the plan wants.
    pub(crate) fresh: Pages,
    /// Room for the pages of the record.
    pub(crate) pages: FilePages,
}
