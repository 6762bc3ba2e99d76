//! The command `checkpoint`.
ghost use Rattle.std.specs.Prelude.{◌≡◌, ◌⊎◌, None, OnOk};
ghost use Rattle.oo7.specs.Checkpoints.{CheckpointEnds, StandThroughout};
ghost use Rattle.pm3_store.specs.Creation.{AreOnward, AreSynced, files};
ghost use Rattle.pm3_store.specs.Standing.{AreRead, JournalStands, PagesStand, Stands, files_of};
ghost use Rattle.pm3_journal.specs.Opened.{IsOpenStore};
ghost use Rattle.pm3_types.specs.Graph.{Part};

use crate::opening::open_store;
use crate::performing::Performed;
use crate::refusal::Refusal;
use oo7_dump::Text;
use pm3_disk::Disk;
use pm3_journal::Opened;
use pm3_store::CheckpointFault;
use std::alloc::Global;

/// Opens a store and carries the records of its journal into the page file.
pub(crate) fn checkpoint<D: Disk>(alloc: Global, pages: D, journal: D) -> Performed<D>
    ensures reason { CheckpointEnds D.Disk (files pages journal) (files result.pages result.journal) result.outcome }
    ensures onward { AreOnward D.Disk (files pages journal) (files result.pages result.journal) }
    ensures synced { OnOk result.outcome (AreSynced D.Disk (files result.pages result.journal)) }
    ensures stops { AreRead D.Disk (files pages journal) (files result.pages result.journal)
        ⊎ StandThroughout D.Disk (files pages journal) (files result.pages result.journal) }
{
    let mut opened = match open_store(alloc, pages, journal) {
        Ok(opened) => opened,
        Err(refused) => return Performed::on_none(refused),
    };
    let outcome = carry(alloc, &mut opened);
    Performed::on_store(outcome, opened)
}

/// Carries the records of an open store into its page file.
fn carry<D: Disk>(alloc: Global, opened: &mut Opened<D>) -> Result<Option<Text>, Refusal>
    requires open { IsOpenStore D.Disk opened.old }
    requires runs { opened.old.journal.stopped ≡ None }
    requires synced { AreSynced D.Disk (files_of opened.old) }
    ensures ends { CheckpointEnds D.Disk (files_of opened.old) (files_of opened.new) result }
    ensures onward { AreOnward D.Disk (files_of opened.old) (files_of opened.new) }
    ensures pages { (graph : Part) → Stands D.Disk (files_of opened.old) graph → PagesStand D.Disk (files_of opened.old) (files_of opened.new) graph }
    ensures journal { (graph : Part) → Stands D.Disk (files_of opened.old) graph → JournalStands D.Disk (files_of opened.old) (files_of opened.new) graph }
    ensures exit { (graph : Part) → Stands D.Disk (files_of opened.old) graph → Stands D.Disk (files_of opened.new) graph }
{
    match pm3_store::checkpoint(alloc, opened) {
        Ok(()) => Ok(None),
        Err(CheckpointFault::PageFault) => Err(Refusal::PageFault),
        Err(CheckpointFault::JournalFault) => Err(Refusal::JournalFault),
        Err(CheckpointFault::Memory) => Err(Refusal::Memory),
        Err(CheckpointFault::Stopped { .. }) => unreachable!(),
    }
}
