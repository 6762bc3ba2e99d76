//! What is proved of all lawful histories.
ghost use Rattle.pm3_history.specs.ChronicleLaws.{OpeningsAreChronicled, HistoriesKeep, NothingIsLost, NothingIsVolatile, PersistentStay, NamesAreMade};
ghost use Rattle.pm3_history.specs.Bounded.{OpeningsAreBounded, HistoriesAreBounded};

/// What holds of each state that an opening leads to (`opening`) is kept by every lawful history (`kept`). So nothing that the
/// roots reach after it is lost: the images that stand then show it (`nothing_lost`), and those of the persistent pages alone
/// do (`nothing_volatile`). A persistent object keeps its address and its name (`persistent`). A name that the graph lacked comes
/// into it only by a commit that made an object of that name (`made`).
pub fn chronicle_law()
    ensures opening { OpeningsAreChronicled }
    ensures kept { HistoriesKeep }
    ensures nothing_lost { NothingIsLost }
    ensures nothing_volatile { NothingIsVolatile }
    ensures persistent { PersistentStay }
    ensures made { NamesAreMade }
{}

/// The next name and the high page bound the persistent objects and all to which their pages refer, at each opening
/// (`opening`) and after each lawful history (`kept`).
pub fn bounds_law()
    ensures opening { OpeningsAreBounded }
    ensures kept { HistoriesAreBounded }
{}
