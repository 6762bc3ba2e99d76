//! What is proved of passes that were carried out. Each law is a function with an empty body, whose clauses are the law.
ghost use Rattle.pm3_copy.specs.PassLaws.{FitsAfter, ShowsTheLiving, ShowsNoDead, ShowsNothingNew, KeepsRoots};
ghost use Rattle.pm3_copy.specs.PassLaws.{KeepsQuietPages, PinnedIsQuiet, OthersAreQuiet, PromotedStays, PlansPassItBy};

/// What the images of a pass show once it was carried out: just what they showed, less what is dead.
pub fn carried_law()
    ensures fits { FitsAfter }
    ensures shows { ShowsTheLiving }
    ensures less { ShowsNoDead }
    ensures only { ShowsNothingNew }
    ensures roots { KeepsRoots }
{}

/// Which addresses a pass keeps: all on pages from which nothing moved and on which nothing died. These are the pinned ones and
/// those that were none of the space.
pub fn quiet_law()
    ensures kept { KeepsQuietPages }
    ensures pinned { PinnedIsQuiet }
    ensures others { OthersAreQuiet }
{}

/// What a pass promoted, a later pass over the space that it left neither moves nor lets die.
pub fn promoted_law()
    ensures stays { PromotedStays }
    ensures planned { PlansPassItBy }
{}
