//! Laws of trees.
ghost use Rattle.oo7_index.specs.Departures.{NoneDeparts};

/// Where a tree is an index, a call is never refused for want of a design: none of its objects departs.
pub fn departures()
    ensures { NoneDeparts }
{}
