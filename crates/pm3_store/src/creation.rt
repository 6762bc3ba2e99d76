//! A new store: its journal and its page file.
ghost use Rattle.std.specs.Prelude.{◌≤◌, ◌+◌, OnOk};
ghost use Rattle.pm3_core.specs.declared.naming.TheConstants.{BASE};
ghost use Rattle.pm3_disk.specs.Content.{IfTold};
ghost use Rattle.pm3_disk.specs.Devices.{MakesAtMost};
ghost use Rattle.pm3_types.specs.PageLaws.{IsCatalog};
ghost use Rattle.pm3_journal.specs.Opening.{OpenTo};
ghost use Rattle.pm3_store.specs.Creation.{AreOnward, AreSynced, CreationEnds, files};
ghost use Rattle.pm3_store.specs.NewStore.{empty_graph};

use pm3_disk::Disk;
use pm3_types::Catalog;
use thiserror::Error;

/// Why a store wasn't made.
#[derive(Clone, Copy, Debug, PartialEq, Eq, Error)]
pub enum CreateFault {
    /// The page file has bytes already, so many.
    #[error("the page file has {len} bytes already")]
    Exists { len: u64 },
    /// The page file failed.
    #[error("the page file failed")]
    PageFault,
    /// The journal failed.
    #[error("the journal failed")]
    JournalFault,
}

/// Makes the two files of a store without objects, the journal first. A page file with bytes, or one whose length can't be
/// read, is left as it is. It takes no memory.
pub fn create<D: Disk>(
    pages: &mut D,
    journal: &mut D,
    count: u32,
    catalog: &Catalog,
) -> Result<(), CreateFault>
    requires few { 16 ≤ count }
    requires most { count ≤ 16384 }
    ensures ends { CreationEnds D.Disk count catalog.now (files pages.old journal.old) (files pages.new journal.new) result }
    ensures onward { AreOnward D.Disk (files pages.old journal.old) (files pages.new journal.new) }
    ensures synced { OnOk result (AreSynced D.Disk (files pages.new journal.new)) }
    ensures single { MakesAtMost D.Disk (count + 3) pages.old pages.new × MakesAtMost D.Disk 3 journal.old journal.new }
    ensures opens { OnOk result (IsCatalog catalog.now → IfTold (D.content pages.new) (λ file. IfTold (D.content journal.new) (λ bytes.
        OpenTo BASE file bytes empty_graph))) }
{
    match pages.len() {
        Ok(0) => {}
        Ok(len) => return Err(CreateFault::Exists { len }),
        Err(_) => return Err(CreateFault::PageFault),
    }
    if pm3_journal::create(journal, count).is_err() {
        return Err(CreateFault::JournalFault);
    }
    if pm3_pagefile::format(pages, count, catalog).is_err() {
        return Err(CreateFault::PageFault);
    }
    Ok(())
}
