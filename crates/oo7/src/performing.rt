//! What the words ask for is done.
ghost use Rattle.std.specs.Prelude.{◌≡◌, ◌⊎◌, ◌≤◌, Some, Err, OnOk};
ghost use Rattle.oo7.specs.Answer.{CreateEnds, HasReason};
ghost use Rattle.oo7.specs.Checkpoints.{StandThroughout};
ghost use Rattle.oo7.specs.Words.{command_of, texts};
ghost use Rattle.pm3_store.specs.Creation.{AreOnward, AreSynced, files};
ghost use Rattle.pm3_store.specs.Standing.{AreRead};

use crate::checkpointing::checkpoint;
use crate::dumping::dump;
use crate::opening::Refused;
use crate::refusal::Refusal;
use crate::words::{Command, read_command};
use oo7_dump::Text;
use pm3_disk::Disk;
use pm3_journal::Opened;
use pm3_store::CreateFault;
use std::alloc::Global;

/// How a command ended, and the two files.
#[derive(Drop)]
pub(crate) struct Performed<D> {
    pub outcome: Result<Option<Text>, Refusal>,
    pub pages: D,
    pub journal: D,
}

impl<D: Disk> Performed<D> {
    /// A command on an open store has ended.
    pub(crate) fn on_store(
        outcome: Result<Option<Text>, Refusal>,
        opened: Opened<D>,
    ) -> Performed<D>
        ensures { result ≡ record { outcome = outcome; pages = opened.pages; journal = opened.journal.disk } }
    {
        let Opened { pages, journal, .. } = opened;
        Performed {
            outcome,
            pages,
            journal: journal.into_disk(),
        }
    }

    /// A store wasn't opened.
    pub(crate) fn on_none(refused: Refused<D>) -> Performed<D>
        ensures { result ≡ record { outcome = Err refused.refusal; pages = refused.pages; journal = refused.journal } }
    {
        let Refused {
            refusal,
            pages,
            journal,
        } = refused;
        Performed {
            outcome: Err(refusal),
            pages,
            journal,
        }
    }
}

/// Does what the words ask for.
pub(crate) fn perform<D: Disk>(
    alloc: Global,
    words: &[String],
    pages: D,
    journal: D,
) -> Performed<D>
    ensures reason { HasReason D.Disk (command_of (texts words.now)) (files pages journal) (files result.pages result.journal) result.outcome }
    ensures onward { AreOnward D.Disk (files pages journal) (files result.pages result.journal) }
    ensures synced { OnOk result.outcome (AreSynced D.Disk (files result.pages result.journal)) }
    ensures reads { command_of (texts words.now) ≡ Some Command.Dump
        → AreRead D.Disk (files pages journal) (files result.pages result.journal) }
    ensures stops { command_of (texts words.now) ≡ Some Command.Checkpoint
        → AreRead D.Disk (files pages journal) (files result.pages result.journal)
        ⊎ StandThroughout D.Disk (files pages journal) (files result.pages result.journal) }
{
    match read_command(words) {
        Some(Command::Create(count)) => create(alloc, pages, journal, count),
        Some(Command::Checkpoint) => checkpoint(alloc, pages, journal),
        Some(Command::Dump) => dump(alloc, pages, journal),
        Some(Command::NotYet) => Performed {
            outcome: Err(Refusal::Later),
            pages,
            journal,
        },
        None => Performed {
            outcome: Err(Refusal::Usage),
            pages,
            journal,
        },
    }
}

/// Makes a store of so many pages with the catalog of the design database.
fn create<D: Disk>(alloc: Global, mut pages: D, mut journal: D, count: u32) -> Performed<D>
    requires few { 16 ≤ count }
    requires most { count ≤ 16384 }
    ensures reason { CreateEnds D.Disk count (files pages journal) (files result.pages result.journal) result.outcome }
    ensures onward { AreOnward D.Disk (files pages journal) (files result.pages result.journal) }
    ensures synced { OnOk result.outcome (AreSynced D.Disk (files result.pages result.journal)) }
{
    let Ok(catalog) = oo7_schema::catalog(alloc) else {
        unreachable!()
    };
    let outcome = match pm3_store::create(&mut pages, &mut journal, count, &catalog) {
        Ok(()) => Ok(None),
        Err(CreateFault::Exists { .. }) => Err(Refusal::Exists),
        Err(CreateFault::PageFault) => Err(Refusal::PageFault),
        Err(CreateFault::JournalFault) => Err(Refusal::JournalFault),
    };
    Performed {
        outcome,
        pages,
        journal,
    }
}
