//! The heap, as its mutators share it.
ghost use Rattle.std.specs.Prelude.{◌≡◌, ◌<◌, ◌≤◌};
ghost use Rattle.pm3_txn.specs.Heaps.{IsBelow};

use crate::values::Value;
use pm3_disk::Disk;
use pm3_table::Shared;
use pm3_types::Catalog;
use std::marker::Model;

/// A heap over an opened store. Contracts see which table it is, and what was told of the store.
#[derive(Drop)]
pub struct Heap<D: Disk> {
    pub(crate) shared: Shared<Value<D>>,
    pub(crate) catalog: Catalog,
    /// Loaded pages and what they refer to lie below it.
    pub(crate) frontier: u32,
}

impl<D: Disk> Model for Heap<D> {
    ghost use Rattle.std.specs.Coded.{codes};
    ghost use Rattle.atomic_table.specs.Seated.{TableId, table_id_coded};
    ghost use Rattle.pm3_history.specs.Opens.{origin_code};
    ghost use Rattle.pm3_table.specs.declared.view.Told.{Told};
    ghost use Rattle.pm3_txn.specs.Heaps.{IsHeap};

    ghost Value = { TableId × Told };

    ghost coded = { Prim.hlevel (codes, table_id_coded, origin_code) };

    ghost view = { λ h. h.shared };

    ghost invariant = { λ h. IsHeap h.shared.1 h.catalog h.frontier };
}

impl<D: Disk> Heap<D> {
    /// How many pages the store has.
    pub(crate) fn page_count(&self) -> u32
        ensures count { result ≡ self.now.1.pages }
        ensures small { self.now.1.pages < 16385 }
        ensures first { 1 ≤ self.now.1.next_name }
        ensures least { 3 ≤ self.now.1.frontier }
        ensures most { self.now.1.frontier ≤ self.now.1.pages }
        ensures below { IsBelow self.now.1 }
    {
        let _ = &self.catalog;
        self.shared.page_count()
    }
}
