//! What is proved of all histories.
ghost use Rattle.pm3_history.specs.HistoryLaws.{GoesOn, GraphIsFold, LawfulParts, LooseIsLawful};

/// A history goes on from what stands after a part of it (`goes_on`), its graph is the fold of its entries (`graph`), it
/// is lawful exactly where its parts are (`lawful`), and over an opening that stands for nothing each is (`loose`).
pub fn history_law()
    ensures goes_on { GoesOn }
    ensures graph { GraphIsFold }
    ensures lawful { LawfulParts }
    ensures loose { LooseIsLawful }
{}
