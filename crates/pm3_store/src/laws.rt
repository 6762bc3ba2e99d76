//! What the two files of a store open to.
ghost use Rattle.pm3_store.specs.Ahead.{TornOpens, WrittenOpens};
ghost use Rattle.pm3_store.specs.NewStore.{NewStoreOpens};

/// While the records of a journal are carried into the page file, and once they are there, the two files open to what they
/// opened to before.
pub fn carries_records()
    ensures torn { TornOpens }
    ensures written { WrittenOpens }
{}

/// The files of a new store open to the graph without objects.
pub fn new_store_opens()
    ensures { NewStoreOpens }
{}
