//! The checkpoint: the records of the journal are carried into the page file.
ghost use Rattle.std.specs.Prelude.{◌≡◌, ◌↔◌, ◌+◌, ◌*◌, ◌<◌, ◌≤◌, ℕ, List, [], length, Ok, Some, None, OnOk, IsErrOf};
ghost use Rattle.std.specs.FinMap.{len};
ghost use Rattle.pm3_core.specs.declared.naming.TheConstants.{BASE};
ghost use Rattle.pm3_disk.specs.Content.{Anything, IfTold};
ghost use Rattle.pm3_disk.specs.Devices.{HasFailed, HasNotFailed, IsSynced, Leaves, MakesAtMost, Takes};
ghost use Rattle.pm3_types.specs.Graph.{Part};
ghost use Rattle.pm3_page.specs.PageMap.{IsAtHome};
ghost use Rattle.pm3_pagefile.specs.PageBytes.{ChangesOnly, IsReplaced};
ghost use Rattle.pm3_pagefile.specs.Writing.{AreWritable};
ghost use Rattle.pm3_journal.specs.JournalState.{torn};
ghost use Rattle.pm3_journal.specs.Opened.{IsOpenStore};
ghost use Rattle.pm3_store.specs.Creation.{AreOnward};
ghost use Rattle.pm3_store.specs.Parting.{recorded_given};
ghost use Rattle.pm3_journal.specs.Records.{records, Whole};
ghost use Rattle.pm3_store.specs.Standing.{files_of, JournalStands, PagesStand, Stands};

use crate::parting::{rejoin, set_apart};
use pm3_disk::Disk;
use pm3_journal::{Entries, JournalFault, Opened};
use pm3_page::{Marks, Pages};
use pm3_pagefile::{PageFault, write_images};
use pm3_types::Catalog;
use std::alloc::Global;
use thiserror::Error;

/// Why a checkpoint wasn't made.
#[derive(Clone, Copy, Debug, PartialEq, Eq, Error)]
pub enum CheckpointFault {
    /// An earlier call stopped the journal, when this number was due.
    #[error("the journal stopped before record {seq}")]
    Stopped { seq: u64 },
    /// The page file failed. A further checkpoint may succeed.
    #[error("the page file failed")]
    PageFault,
    /// The journal failed, and is stopped.
    #[error("the journal failed")]
    JournalFault,
    /// Want of memory. No call was made.
    #[error("out of memory")]
    Memory,
}

/// Writes the last images of the journal's records and the marks into the page file, and closes the journal's first gate
/// once they are synced. Without records it does nothing. At each moment what a crash leaves of the two files opens to what
/// they opened to before.
pub fn checkpoint<D: Disk>(alloc: Global, opened: &mut Opened<D>) -> Result<(), CheckpointFault>
    requires open { IsOpenStore D.Disk opened.old }
    ensures open { IsOpenStore D.Disk opened.new }
    ensures stopped { (seq : ℕ) → IsErrOf result (CheckpointFault.Stopped seq) ↔ (opened.old.journal.stopped ≡ Some seq) }
    ensures unmoved { (seq : ℕ) → IsErrOf result (CheckpointFault.Stopped seq) → opened.new ≡ opened.old }
    ensures nothing { opened.old.journal.stopped ≡ None → opened.old.journal.summaries ≡ [] → (opened.new ≡ opened.old) × (result ≡ Ok tt) }
    ensures done { OnOk result ((opened.new.journal.summaries ≡ []) × (opened.new.journal.stopped ≡ None)) }
    ensures memory { IsErrOf result CheckpointFault.Memory → opened.new ≡ opened.old }
    ensures catalog { opened.new.catalog ≡ opened.old.catalog }
    ensures marks { opened.new.marks ≡ opened.old.marks }
    ensures images { opened.new.images.images ≡ opened.old.images.images }
    ensures page_fault { IsErrOf result CheckpointFault.PageFault
        → (opened.new.journal ≡ opened.old.journal) × HasFailed D.Disk opened.old.pages opened.new.pages }
    ensures journal_fault { IsErrOf result CheckpointFault.JournalFault
        → (opened.new.journal ≡ torn opened.new.journal.disk opened.old.journal)
        × HasFailed D.Disk opened.old.journal.disk opened.new.journal.disk × HasNotFailed D.Disk opened.old.pages opened.new.pages }
    ensures honest { OnOk result (HasNotFailed D.Disk opened.old.pages opened.new.pages
        × HasNotFailed D.Disk opened.old.journal.disk opened.new.journal.disk) }
    ensures onward { AreOnward D.Disk (files_of opened.old) (files_of opened.new) }
    ensures told { OnOk result (Takes D.Disk opened.old.pages opened.new.pages Anything
        × Takes D.Disk opened.old.journal.disk opened.new.journal.disk Anything) }
    ensures emptied { OnOk result (IfTold (D.content opened.new.journal.disk) (λ bytes. records bytes ≡ Whole [])) }
    ensures synced { OnOk result (IsSynced D.Disk opened.old.pages → IsSynced D.Disk opened.new.pages × IsSynced D.Disk opened.new.journal.disk) }
    ensures single { MakesAtMost D.Disk (len opened.old.images.images + 2) opened.old.pages opened.new.pages
        × MakesAtMost D.Disk 2 opened.old.journal.disk opened.new.journal.disk }
    ensures pages_crash { (graph : Part) → Stands D.Disk (files_of opened.old) graph → PagesStand D.Disk (files_of opened.old) (files_of opened.new) graph }
    ensures journal_crash { (graph : Part) → Stands D.Disk (files_of opened.old) graph → JournalStands D.Disk (files_of opened.old) (files_of opened.new) graph }
    ensures stands { (graph : Part) → Stands D.Disk (files_of opened.old) graph → Stands D.Disk (files_of opened.new) graph }
{
    if let Some(seq) = opened.journal.stopped() {
        return Err(CheckpointFault::Stopped { seq });
    }
    if opened.journal.entries().len() == 0 {
        return Ok(());
    }
    let marks = opened.marks;
    match write_records(
        alloc,
        &mut opened.pages,
        marks,
        &opened.catalog,
        &mut opened.images,
        opened.journal.entries(),
    ) {
        Ok(()) => {}
        Err(WriteFault::PageFault) => return Err(CheckpointFault::PageFault),
        Err(WriteFault::Memory) => return Err(CheckpointFault::Memory),
    }
    // Only now, with the page file synced: until then the records are all that mends what a crash tears of it.
    match opened.journal.close_first_gate() {
        Ok(()) => Ok(()),
        Err(JournalFault) => Err(CheckpointFault::JournalFault),
    }
}

/// Why the images of the records weren't written.
enum WriteFault {
    PageFault,
    Memory,
}

/// Writes the images of the pages that the entries have, and the marks, and syncs. Other images aren't written: what a crash
/// tore of their pages no record would mend.
fn write_records<D: Disk>(
    alloc: Global,
    pages: &mut D,
    marks: Marks,
    catalog: &Catalog,
    images: &mut Pages,
    entries: &Entries,
) -> Result<(), WriteFault>
    requires file { IfTold (D.content pages.old) (λ bytes. length bytes ≡ 4096 * marks.pages) }
    requires images { AreWritable catalog.now BASE marks.pages images.old.images }
    requires home { IsAtHome images.old.images }
    ensures same { images.new.images ≡ images.old.images }
    ensures ok { OnOk result (Takes D.Disk pages.old pages.new
        (IsReplaced (recorded_given entries.now.summaries marks catalog.now BASE images.old.images))) }
    ensures settled { OnOk result (IsSynced D.Disk pages.new) }
    ensures torn { IsErrOf result WriteFault.PageFault → Takes D.Disk pages.old pages.new
        (ChangesOnly (recorded_given entries.now.summaries marks catalog.now BASE images.old.images)) }
    ensures crash { Leaves D.Disk pages.old pages.new
        (ChangesOnly (recorded_given entries.now.summaries marks catalog.now BASE images.old.images)) }
    ensures single { MakesAtMost D.Disk (len images.old.images + 2) pages.old pages.new }
    ensures memory { IsErrOf result WriteFault.Memory → (pages.new ≡ pages.old) × (images.new ≡ images.old) }
    ensures cause { IsErrOf result WriteFault.PageFault → HasFailed D.Disk pages.old pages.new }
    ensures honest { OnOk result (HasNotFailed D.Disk pages.old pages.new) }
    ensures later { D.faults pages.old ≤ D.faults pages.new }
{
    let mut others = Pages::new(alloc);
    if others.reserve(images.len()).is_err() {
        return Err(WriteFault::Memory);
    }
    set_apart(images, entries, &mut others);
    let written = write_images(pages, marks, catalog, images);
    rejoin(images, &mut others);
    match written {
        Ok(()) => Ok(()),
        Err(PageFault) => Err(WriteFault::PageFault),
    }
}
