//! Laws over the definitions. Each is a function with an empty body, whose clauses are the law.
ghost use Rattle.std.specs.Prelude.{◌≡◌};
ghost use Rattle.pm3_types.specs.NumberingLaws.{MeetsTheReached, MeetsOnce, ComputesTheClosure};
ghost use Rattle.pm3_types.specs.PageLaws.{PageHasForm, OneCatalog, DepartureStands};
ghost use Rattle.pm3_types.specs.ReachedLaws.{OneClosure, AlikeClosures, PartsReach, ClosureIsClosed, ReachedWith};
ghost use Rattle.pm3_types.specs.ImageLaws.{OneLayout, ShowsEachName, ShowsObjects, ShowsNothingElse, ShowsAlike, ShowsOneChange, ShowsOnePageChange};
ghost use Rattle.pm3_types.specs.ImageLaws.{WritesOneField, WritesKeepLayout, WritesKeepOthers, PlacesKeepLayout, PlacesKeepOthers};
ghost use Rattle.pm3_types.specs.Dump.{dump};
ghost use Rattle.pm3_types.specs.Tried.{tried_catalog, one_object, one_object_text, knot, knot_text};

/// What is reached from the roots of a graph, and its closure.
pub fn reached_names()
    ensures one_closure { OneClosure }
    ensures alike { AlikeClosures }
    ensures parts { PartsReach }
    ensures closed { ClosureIsClosed }
    ensures with { ReachedWith }
{}

/// The dumps of two small graphs, one of them with shared and cyclic references, as they are printed.
pub fn dumps()
    ensures one { dump tried_catalog one_object ≡ one_object_text }
    ensures knot { dump tried_catalog knot ≡ knot_text }
{}

/// The bytes of page 1: those of a catalog have the form, and those of two catalogs are not the same. Nothing that stands
/// behind a field named as a departure can mend the page.
pub fn pages()
    ensures form { PageHasForm }
    ensures one { OneCatalog }
    ensures departure { DepartureStands }
{}

/// The numbering of a dump: it numbers just the reached names, each once, and so the closure can be computed from it.
pub fn numberings()
    ensures reached { MeetsTheReached }
    ensures once { MeetsOnce }
    ensures closure { ComputesTheClosure }
{}

/// The words of a page and the catalog say where its objects begin.
pub fn starts_law()
    ensures { OneLayout }
{}

/// What images show, name by name: under each name what is seen at the address that the book has for it, and nothing else. A
/// change of one object changes one record, also where the change is that of one page's sheet.
pub fn shown_law()
    ensures pointwise { ShowsEachName }
    ensures shows { ShowsObjects }
    ensures only { ShowsNothingElse }
    ensures alike { ShowsAlike }
    ensures changed { ShowsOneChange }
    ensures on_a_page { ShowsOnePageChange }
{}

/// A word written within an object, below its head and its name: the objects lie as they did, and every other object of the
/// page is shown as it was.
pub fn write_law()
    ensures field { WritesOneField }
    ensures laid { WritesKeepLayout }
    ensures others { WritesKeepOthers }
{}

/// A new object of so many words behind the last one: the objects and the new one lie one after another, and every other
/// object of the page is shown as it was.
pub fn placing_law()
    ensures laid { PlacesKeepLayout }
    ensures others { PlacesKeepOthers }
{}
