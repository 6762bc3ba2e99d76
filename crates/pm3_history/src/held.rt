//! What is proved of pages and spaces that are held while others commit.
ghost use Rattle.pm3_history.specs.Homes.{HomesStay, HomesStand, HeldShowsOn};
ghost use Rattle.pm3_history.specs.Spaces.{SpacesStand, SpacesStay, SpacesAreLeft, PersistentAreWritten, KnownStay};

/// The page of the roots and each page with a persistent object stay persistent (`stay`) and keep their last images where no
/// commit wrote them (`stand`). What images of such pages show doesn't change while others commit (`shown`).
pub fn held_law()
    ensures stay { HomesStay }
    ensures stand { HomesStand }
    ensures shown { HeldShowsOn }
{}

/// A space keeps its last images where an entry has no pass of it (`stand`), and else has those that the pass leaves (`left`).
/// Its pages stay its own then, with their objects (`stay`), and no persistent object comes to a page that no commit writes
/// (`written`). An object, also one of a space, keeps its address and its name where no pass moves or loses one of its page
/// (`known`).
pub fn space_law()
    ensures stand { SpacesStand }
    ensures stay { SpacesStay }
    ensures written { PersistentAreWritten }
    ensures left { SpacesAreLeft }
    ensures known { KnownStay }
{}
