//! A store is opened.
ghost use Rattle.std.specs.Prelude.{◌≡◌, ℕ, List, map, slice_index_or, Some, None, IfOk, IfErr, IsErrOf};
ghost use Rattle.pm3_core.specs.declared.naming.TheConstants.{BASE};
ghost use Rattle.pm3_disk.specs.Content.{IfTold};
ghost use Rattle.pm3_disk.specs.Devices.{HasFailed, HasNotFailed, IsSynced, OnlyReads};
ghost use Rattle.pm3_journal.specs.Format.{JournalRecord};
ghost use Rattle.pm3_journal.specs.Offsets.{last_offset};
ghost use Rattle.pm3_journal.specs.Opened.{IsOpen, IsOpenStore};
ghost use Rattle.pm3_journal.specs.Records.{records, Whole};
ghost use Rattle.pm3_journal.specs.Summaries.{summary_of};
ghost use Rattle.pm3_pagefile.specs.PageBytes.{page_at};
ghost use Rattle.pm3_types.specs.PageOne.{catalog_page};
ghost use Rattle.pm3_store.specs.Damage.{IsCauseIn, PageFileDeparts};
ghost use Rattle.pm3_store.specs.Recovering.{cause_of, IsCauseOf, IsRecovered, IsSameJournal};

use crate::causes::OpenCause;
use crate::page_reading::{check_length, read_store_marks, read_types};
use crate::picturing::read_images;
use pm3_disk::Disk;
use pm3_journal::{Journal, Opened, RecoverFault, recover};
use pm3_page::{Marks, Pages};
use pm3_types::Catalog;
use std::alloc::Global;
use std::fmt;

/// A store that wasn't opened: why, and its two devices.
#[derive(Drop)]
pub struct OpenFault<D> {
    pub cause: OpenCause,
    pub pages: D,
    pub journal: D,
}

impl<D> fmt::Display for OpenFault<D> {
    fn fmt<W: fmt::Write>(&self, f: &mut fmt::Formatter<W>) -> fmt::Result {
        write!(f, "{}", self.cause)
    }
}

/// Opens the store of a page file and a journal. Both are synced before they are read, and no byte of them is written.
pub fn open<D: Disk>(alloc: Global, pages: D, journal: D) -> Result<Opened<D>, OpenFault<D>>
    ensures open { IfOk result (λ opened. IsOpenStore D.Disk opened) }
    ensures runs { IfOk result (λ opened. opened.journal.stopped ≡ None) }
    ensures told { IfOk result (λ opened. IfTold (D.content pages) (λ file. IfTold (D.content journal) (λ bytes.
        PageFileDeparts file bytes None))) }
    ensures list { IfOk result (λ opened. IfTold (D.content journal) (λ bytes. (list : List JournalRecord)
        × (records bytes ≡ Whole list) × (opened.journal.summaries ≡ map summary_of list)
        × ((page : ℕ) → slice_index_or opened.journal.offsets page None ≡ last_offset page 32 list None))) }
    ensures catalog { IfOk result (λ opened. IfTold (D.content pages) (λ file. page_at 1 file ≡ catalog_page opened.catalog)) }
    ensures since { IfOk result (λ opened. opened.journal.since ≡ D.moment opened.journal.disk) }
    ensures synced { IfOk result (λ opened. IsSynced D.Disk opened.pages × IsSynced D.Disk opened.journal.disk) }
    ensures reads { IfOk result (λ opened. OnlyReads D.Disk pages opened.pages × OnlyReads D.Disk journal opened.journal.disk) }
    ensures honest { IfOk result (λ opened. HasNotFailed D.Disk pages opened.pages × HasNotFailed D.Disk journal opened.journal.disk) }
    ensures back { IfErr result (λ fault. OnlyReads D.Disk pages fault.pages × OnlyReads D.Disk journal fault.journal) }
    ensures cause { IfErr result (λ fault. IfTold (D.content pages) (λ file. IfTold (D.content journal) (λ bytes.
        IsCauseIn BASE file bytes fault.cause))) }
    ensures fault { IfErr result (λ fault. IsCauseOf D.Disk pages fault.pages journal fault.journal fault.cause) }
{
    let mut pages = pages;
    let mut journal = match recover(alloc, journal) {
        Ok(journal) => journal,
        Err((fault, journal)) => {
            return Err(OpenFault {
                cause: journal_cause(fault),
                pages,
                journal,
            });
        }
    };
    match read_parts(alloc, &mut pages, &mut journal) {
        Ok(parts) => {
            let Parts {
                catalog,
                images,
                marks,
            } = parts;
            Ok(Opened {
                pages,
                journal,
                catalog,
                images,
                marks,
            })
        }
        Err(cause) => Err(OpenFault {
            cause,
            pages,
            journal: journal.into_disk(),
        }),
    }
}

/// What is read of the two files beside the journal's records.
#[derive(Drop)]
struct Parts {
    catalog: Catalog,
    images: Pages,
    marks: Marks,
}

/// The cause of a journal that wasn't recovered.
fn journal_cause(fault: RecoverFault) -> OpenCause
    ensures { result ≡ cause_of fault }
{
    match fault {
        RecoverFault::JournalFault => OpenCause::JournalFault,
        RecoverFault::Damaged { offset } => OpenCause::JournalDamaged { offset },
        RecoverFault::Memory => OpenCause::Memory,
    }
}

/// Reads the page file beside a journal that was recovered, and takes the journal's images.
fn read_parts<D: Disk>(
    alloc: Global,
    pages: &mut D,
    journal: &mut Journal<D>,
) -> Result<Parts, OpenCause>
    requires { IsRecovered D.Disk journal.old }
    ensures open { IfOk result (λ parts. IsOpen D.Disk BASE (D.content pages.new) journal.new parts.catalog parts.images.images parts.marks) }
    ensures told { IfOk result (λ parts. IfTold (D.content pages.old) (λ file. IfTold (D.content journal.old.disk) (λ bytes.
        PageFileDeparts file bytes None))) }
    ensures cause { IfErr result (λ cause. IfTold (D.content pages.old) (λ file. IfTold (D.content journal.old.disk) (λ bytes.
        IsCauseIn BASE file bytes cause))) }
    ensures catalog { IfOk result (λ parts. IfTold (D.content pages.old) (λ file. page_at 1 file ≡ catalog_page parts.catalog)) }
    ensures other { IfErr result (λ cause. cause ≡ OpenCause.JournalFault → ⊥) }
    ensures settled { IfOk result (λ parts. IsSynced D.Disk pages.new) }
    ensures journal { IsSameJournal journal.old journal.new }
    ensures reads { OnlyReads D.Disk pages.old pages.new }
    ensures fault { IsErrOf result OpenCause.PageFault → HasFailed D.Disk pages.old pages.new }
    ensures calm { ¬ IsErrOf result OpenCause.PageFault → HasNotFailed D.Disk pages.old pages.new }
{
    match check_length(pages, journal.pages()) {
        Ok(()) => {}
        Err(cause) => return Err(cause),
    }
    let marks = match read_store_marks(pages, journal) {
        Ok(marks) => marks,
        Err(cause) => return Err(cause),
    };
    let catalog = match read_types(alloc, pages) {
        Ok(catalog) => catalog,
        Err(cause) => return Err(cause),
    };
    match read_images(alloc, journal, &catalog) {
        Ok(images) => Ok(Parts {
            catalog,
            images,
            marks,
        }),
        Err(cause) => Err(cause),
    }
}
