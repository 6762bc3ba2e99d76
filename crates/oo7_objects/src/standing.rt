//! What holds of a transaction between two of its calls.
ghost use Rattle.pm3_graph.specs.Frame.{FrameOfRuns};
ghost use Rattle.pm3_txn.specs.Underway.{IsUnderway};

use pm3_disk::Disk;
use pm3_txn::Txn;

/// Does nothing. It tells a proof what holds of the transaction, and that what is done to a part of a graph is done to the graph.
pub(crate) fn stand<D: Disk>(txn: &Txn<'_, D>)
    ensures underway { IsUnderway D.Reader.content txn.now }
    ensures frame { FrameOfRuns }
{
    pm3_graph::frame_of_runs();
    txn.is_underway();
}
