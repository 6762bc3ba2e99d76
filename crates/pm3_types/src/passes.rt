//! What is proved of passes in general: what images show once objects have new addresses.
ghost use Rattle.pm3_types.specs.PassLaws.{FitsAfter, KeepsRoots, KeepsStandingPages, MovesWithinTheSpace, ShowsNoDead, ShowsNothingNew, ShowsTheLiving};

/// A pass over the images of a space and of written pages. The new book fits the images afterwards. What is not dead is shown as
/// it was, what is dead is not shown, nothing else is, and the roots stand for the same names.
pub fn pass_law()
    ensures fits { FitsAfter }
    ensures shows { ShowsTheLiving }
    ensures less { ShowsNoDead }
    ensures only { ShowsNothingNew }
    ensures roots { KeepsRoots }
{}

/// What a pass leaves as it was. An address of the old book from which nothing moves stays in the new one if nothing on its page is
/// dead. A later pass over other images of the space moves nothing that lies on no page of the space, and so nothing that an
/// earlier one made persistent.
pub fn standing_law()
    ensures stays { KeepsStandingPages }
    ensures later { MovesWithinTheSpace }
{}
