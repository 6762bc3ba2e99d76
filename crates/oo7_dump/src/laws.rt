//! What the dump of a store is.
ghost use Rattle.oo7_dump.specs.ByAddress.{DumpsOpened};

/// The dump of the graph that two files open to is the text of the objects that are met by their addresses.
pub fn dumps_by_address()
    ensures { DumpsOpened }
{}
