//! Transactions.
ghost use Rattle.std.specs.Prelude.{◌≡◌, false, replicate};
ghost use Rattle.pm3_access.specs.Holding.{nothing_held};
ghost use Rattle.pm3_txn.specs.Underway.{Belongs, HoldsNothing, IsUnderway};

use crate::heap::Heap;
use crate::mutator::Mutator;
use pm3_access::Held;
use pm3_disk::Disk;
use std::marker::Model;

/// A transaction of one mutator: what it holds, until it commits or is aborted.
#[derive(Drop)]
pub struct Txn<'h, D: Disk> {
    pub(crate) heap: &'h Heap<D>,
    pub(crate) mutator: Mutator<D>,
    pub(crate) held: Held,
    pub(crate) tag: u32,
}

impl<'h, D: Disk> Model for Txn<'h, D> {
    ghost use Rattle.std.specs.Coded.{codes};
    ghost use Rattle.atomic_table.specs.Seated.{table_id_coded};
    ghost use Rattle.pm3_access.specs.Codes.{holding_code};
    ghost use Rattle.pm3_history.specs.Entry.{done_code};
    ghost use Rattle.pm3_history.specs.Opens.{origin_code};
    ghost use Rattle.pm3_txn.specs.Codes.{mutator_code, txn_code};
    ghost use Rattle.pm3_txn.specs.States.{TxnState};
    ghost use Rattle.pm3_txn.specs.Underway.{IsUnderway};

    ghost Value = { TxnState D.Reader };

    ghost coded = { txn_code (Prim.hlevel (codes, table_id_coded, origin_code)) (mutator_code D.Reader.code (Prim.hlevel (codes, table_id_coded, done_code))) holding_code };

    ghost view = { λ t. record { heap = t.heap.now; mutator = t.mutator; held = t.held; tag = t.tag } };

    ghost invariant = { λ t. IsUnderway D.Reader.content (view t) };
}

impl<D: Disk> Mutator<D> {
    /// Begins a transaction, which holds nothing and has drawn no name. Its commit has this tag.
    pub fn begin(self, heap: &Heap<D>, tag: u32) -> Txn<'_, D>
        requires of { Belongs D.Reader.content heap.now self }
        requires bare { HoldsNothing self }
        ensures { result ≡ record { heap = heap.now; mutator = record self { wrote = replicate 512 false; next_name = 0 }; held = nothing_held; tag = tag } }
    {
        let mutator = self.unwritten();
        let held = Held::new(mutator.allocator());
        Txn {
            heap,
            mutator,
            held,
            tag,
        }
    }
}

impl<D: Disk> Txn<'_, D> {
    /// Does nothing. It tells a proof what holds of a transaction between two of its calls.
    pub fn is_underway(&self)
        ensures { IsUnderway D.Reader.content self.now }
    {
        let _ = &self.tag;
    }
}
