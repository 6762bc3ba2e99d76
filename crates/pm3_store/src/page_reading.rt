//! What is read of the page file as a store is opened: its length, its marks and its types.
ghost use Rattle.std.specs.Prelude.{◌≡◌, ◌*◌, ◌^◌, ◌<◌, ◌≤◌, ◌∷◌, ◌++◌, [], List, length, None, OnOk, IfOk, IfErr, MatchResult, IsErrOf};
ghost use Rattle.pm3_disk.specs.Content.{IfTold};
ghost use Rattle.pm3_disk.specs.Devices.{HasFailed, HasNotFailed, IsSynced, OnlyReads};
ghost use Rattle.pm3_types.specs.PageOne.{catalog_page};
ghost use Rattle.pm3_page.specs.Head.{AreMarks, head_page};
ghost use Rattle.pm3_pagefile.specs.PageBytes.{page_at};
ghost use Rattle.pm3_journal.specs.Summaries.{Summary};
ghost use Rattle.pm3_store.specs.Damage.{catalog_departure, head_departure_below, IsPageCause, length_departure};

use crate::causes::OpenCause;
use pm3_disk::Disk;
use pm3_journal::Journal;
use pm3_page::Marks;
use pm3_pagefile::{CatalogReadFault, MarksFault, read_catalog, read_marks_of};
use pm3_types::Catalog;
use std::alloc::Global;

/// Syncs a page file, and looks whether it has so many pages.
pub(crate) fn check_length<D: Disk>(pages: &mut D, count: u32) -> Result<(), OpenCause>
    requires { count ≤ 16384 }
    ensures read { IfTold (D.content pages.old) (λ bytes.
        MatchResult result (λ _. length_departure count bytes ≡ None) (IsPageCause (length_departure count bytes))) }
    ensures size { OnOk result (IfTold (D.content pages.old) (λ bytes. length bytes ≡ 4096 * count)) }
    ensures settled { OnOk result (IsSynced D.Disk pages.new) }
    ensures other { IfErr result (λ cause. cause ≡ OpenCause.JournalFault → ⊥) }
    ensures reads { OnlyReads D.Disk pages.old pages.new }
    ensures cause { IsErrOf result OpenCause.PageFault → HasFailed D.Disk pages.old pages.new }
    ensures calm { ¬ IsErrOf result OpenCause.PageFault → HasNotFailed D.Disk pages.old pages.new }
{
    // Synced before it is read: else a crash could leave another file than the one that was read.
    let Ok(()) = pages.sync() else {
        return Err(OpenCause::PageFault);
    };
    let Ok(len) = pages.len() else {
        return Err(OpenCause::PageFault);
    };
    let wanted = 4096 * u64::from(count);
    if len != wanted {
        return Err(OpenCause::PageDamaged {
            offset: len.min(wanted),
        });
    }
    Ok(())
}

/// The marks of a store: those behind the journal's last record, or those of page 0 where it has none. The journal goes on
/// with their number.
pub(crate) fn read_store_marks<D: Disk>(
    pages: &mut D,
    journal: &mut Journal<D>,
) -> Result<Marks, OpenCause>
    requires pages { (16 ≤ journal.old.pages) × (journal.old.pages ≤ 16384) }
    requires next { (1 ≤ journal.old.next) × (journal.old.next < 2 ^ 64) }
    ensures bounds { IfOk result (λ marks. AreMarks marks × (marks.pages ≡ journal.old.pages) × (marks.next_seq ≡ journal.new.next)) }
    ensures last { IfOk result (λ marks. (front : List Summary) (s : Summary) → journal.old.summaries ≡ front ++ s ∷ []
        → (marks.next_name ≡ s.next_name) × (marks.high_page ≡ s.high_page)) }
    ensures head { IfOk result (λ marks. IfTold (D.content pages.old) (λ bytes.
        journal.old.summaries ≡ [] → page_at 0 bytes ≡ head_page marks)) }
    ensures read { IfTold (D.content pages.old) (λ bytes. MatchResult result
        (λ _. head_departure_below journal.old.pages journal.old.summaries bytes ≡ None)
        (IsPageCause (head_departure_below journal.old.pages journal.old.summaries bytes))) }
    ensures journal { journal.new ≡ record journal.old { next = journal.new.next } }
    ensures other { IfErr result (λ cause. cause ≡ OpenCause.JournalFault → ⊥) }
    ensures reads { OnlyReads D.Disk pages.old pages.new }
    ensures cause { IsErrOf result OpenCause.PageFault → HasFailed D.Disk pages.old pages.new }
    ensures calm { ¬ IsErrOf result OpenCause.PageFault → HasNotFailed D.Disk pages.old pages.new }
{
    if let Some((next_name, high_page)) = journal.entries().last() {
        return Ok(Marks {
            pages: journal.pages(),
            high_page,
            next_name,
            next_seq: journal.next(),
        });
    }
    let marks = match read_marks_of(pages, journal.pages()) {
        Ok(marks) => marks,
        Err(MarksFault::PageFault) => return Err(OpenCause::PageFault),
        Err(MarksFault::Damaged { offset }) => {
            return Err(OpenCause::PageDamaged {
                offset: u64::from(offset),
            });
        }
    };
    journal.start_at(marks.next_seq);
    Ok(marks)
}

/// The types of page 1.
pub(crate) fn read_types<D: Disk>(alloc: Global, pages: &mut D) -> Result<Catalog, OpenCause>
    ensures catalog { IfOk result (λ catalog. IfTold (D.content pages.old) (λ bytes. page_at 1 bytes ≡ catalog_page catalog)) }
    ensures read { IfTold (D.content pages.old) (λ bytes.
        MatchResult result (λ _. catalog_departure bytes ≡ None) (IsPageCause (catalog_departure bytes))) }
    ensures other { IfErr result (λ cause. cause ≡ OpenCause.JournalFault → ⊥) }
    ensures reads { OnlyReads D.Disk pages.old pages.new }
    ensures cause { IsErrOf result OpenCause.PageFault → HasFailed D.Disk pages.old pages.new }
    ensures calm { ¬ IsErrOf result OpenCause.PageFault → HasNotFailed D.Disk pages.old pages.new }
{
    match read_catalog(alloc, pages) {
        Ok(catalog) => Ok(catalog),
        Err(CatalogReadFault::PageFault) => Err(OpenCause::PageFault),
        Err(CatalogReadFault::Damaged { offset }) => Err(OpenCause::PageDamaged {
            offset: u64::from(offset),
        }),
        Err(CatalogReadFault::Memory) => Err(OpenCause::Memory),
    }
}
