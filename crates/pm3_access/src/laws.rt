//! Laws of holdings as values, under every catalog and every book. Each is a function with an empty body, whose clauses are the law.
ghost use Rattle.pm3_access.specs.AccessLaws.{ReadsAreSteps, ReadsOfNoPlace, ReadsAreKnown, ObjectsHaveMaps, WritesAreSteps, WritesFit, WritesOfNoPlace};
ghost use Rattle.pm3_access.specs.AccessLaws.{MakesAreSteps, MakesFit, MakesAtNewAddress, AdmitsToLeft, AdmitsToFound, AdmitsFit, SpaceToLeft, SpaceToFound, SpaceFits};
ghost use Rattle.pm3_access.specs.AccessLaws.{AdmittedInPlace, SpaceInPlace, GrownInPlace, WrittenInPlace, MadeInPlace, SoundInMorePages};
ghost use Rattle.pm3_access.specs.AccessLaws.{GrowthShowsNothing, GrowthKeepsFound, GrowthFits, FreeListKeepsLeft, FreeListKeepsFound, FreeListKeepsPlace};
ghost use Rattle.pm3_access.specs.Acts.{AreInPlace};
ghost use Rattle.pm3_access.specs.BodyWrites.{WritesChangeOneWord};
ghost use Rattle.pm3_access.specs.Holding.{nothing_held};
ghost use Rattle.pm3_access.specs.Fitting.{NothingIsNamed, MadeIsHeld, OthersStayNew};
ghost use Rattle.pm3_access.specs.Roots.{RootReadsAreSteps, RootWritesAreSteps, RootsStayInPlace};

/// A read of a place of an object that is held is a read of that place of its record, whose answer is the value, or the name that
/// the value stands for (`value`); an address that is read is in the book (`known`). Where the object has no such place, there is no
/// such step (`no_place`). Each object of sound images has a type map (`map`).
pub fn read_law()
    ensures value { ReadsAreSteps }
    ensures no_place { ReadsOfNoPlace }
    ensures known { ReadsAreKnown }
    ensures map { ObjectsHaveMaps }
{}

/// A write to a place of an object that is held is a write to that place of its record, of the value, or of the name that the value
/// stands for (`value`), and changes one word of the object's body alone (`one_word`). A book that has the value, where it is to
/// be an address, fits what is left as before (`fits`). Where the
/// object has no such place, there is no such step (`no_place`).
pub fn write_law()
    ensures value { WritesAreSteps }
    ensures one_word { WritesChangeOneWord }
    ensures fits { WritesFit }
    ensures no_place { WritesOfNoPlace }
{}

/// What is read in a root slot of page 2 is read in the graph, and is a name of it (`read`), and what is written there is written
/// there (`write`). What is held stays in place (`place`).
pub fn root_law()
    ensures read { RootReadsAreSteps }
    ensures write { RootWritesAreSteps }
    ensures place { RootsStayInPlace }
{}

/// A new object is a new record of its type, name and length of tail, with 0 in all its places (`step`), under the book that has
/// the name at the object's address, which fits what is left (`fits`). The book that fitted before had nothing there (`address`).
pub fn make_law()
    ensures step { MakesAreSteps }
    ensures fits { MakesFit }
    ensures address { MakesAtNewAddress }
{}

/// Books that fit what is held are had from nothing on: the empty book fits nothing held, and has no name (`nothing`). What was made
/// is held as its name, under the book that has it as well (`made`), and every other new name is still new (`others`). So the
/// premises of the other laws are met, and of the clauses of a `Held`.
pub fn book_law()
    ensures nothing { NothingIsNamed }
    ensures made { MadeIsHeld }
    ensures others { OthersStayNew }
{}

/// An image whose page is not held adds to what is left, and alike to what was found, what it shows alone (`left`, `found`), and so
/// does a space (`space_left`, `space_found`). A book that fits them as well fits all that is left then (`fits`, `space_fits`).
pub fn admit_law()
    ensures left { AdmitsToLeft }
    ensures found { AdmitsToFound }
    ensures fits { AdmitsFit }
    ensures space_left { SpaceToLeft }
    ensures space_found { SpaceToFound }
    ensures space_fits { SpaceFits }
{}

/// What is held is in place, from nothing on (`nothing`), after each change: a page or a space admitted (`admitted`, `space`), a page
/// drawn (`grown`), a write (`written`) and a new object (`made`).
pub fn place_law()
    ensures nothing { AreInPlace nothing_held }
    ensures admitted { AdmittedInPlace }
    ensures space { SpaceInPlace }
    ensures grown { GrownInPlace }
    ensures written { WrittenInPlace }
    ensures made { MadeInPlace }
{}

/// A page of zeros that is drawn into the space, of which a book has no address, shows nothing: what is left is as it was
/// (`left`), and so is what was found (`found`), and the book still fits (`fits`). A change of the free pages, or of the page that
/// objects are placed on, changes none of the images (`free_left`, `free_found`), and all stays in place (`free_place`).
pub fn grow_law()
    ensures left { GrowthShowsNothing }
    ensures found { GrowthKeepsFound }
    ensures fits { GrowthFits }
    ensures free_left { FreeListKeepsLeft }
    ensures free_found { FreeListKeepsFound }
    ensures free_place { FreeListKeepsPlace }
{}

/// What has the form of pages in a store has it in every larger store.
pub fn sound_law()
    ensures { SoundInMorePages }
{}
