//! What the machine is for, proved of every list of events.
//!
//! These functions do nothing: each is called for its clauses, which hold of the definitions.

ghost use Rattle.pm3_core.specs.Law.{MovesUnpinned, NoneBegins, NoneBeginsBeforeUnmark, OpensApart, StandsNaming, StandsSinceLoad, StaysApart};

/// A move that is a step is of a page that no standing word names, and no word that names a marked
/// page begins to stand before the page's unmark.
pub fn pinning_law()
    ensures moves { MovesUnpinned }
    ensures begins { NoneBegins }
    ensures until_unmark { NoneBeginsBeforeUnmark }
{}

/// A standing place is not read off for the marked page that it names: so it is at the opening, and
/// each event keeps it so. The law of pinning follows from this.
pub fn apart_law()
    ensures opening { OpensApart }
    ensures event { StaysApart }
{}

/// A place stands exactly where its page was loaded and found without a mark, and nothing was stored
/// at the place since. It then names a page.
pub fn standing_law()
    ensures since { StandsSinceLoad }
    ensures named { StandsNaming }
{}
