//! The journal of a device.
ghost use Rattle.std.specs.Prelude.{◌≡◌, ◌^◌, ◌<◌, ◌≤◌, ℕ, true, List, [], map, take, slice_index_or, is_some, Some, None, IfOk, IfErr, Err};
ghost use Rattle.pm3_disk.specs.Content.{IfTold};
ghost use Rattle.pm3_disk.specs.Devices.{HasNotFailed, IsSynced, OnlyReads};
ghost use Rattle.pm3_journal.specs.Format.{JournalRecord};
ghost use Rattle.pm3_journal.specs.Honesty.{IsCauseOf};
ghost use Rattle.pm3_journal.specs.Offsets.{has_offset, images_at};
ghost use Rattle.pm3_journal.specs.Pages.{image_of};
ghost use Rattle.pm3_journal.specs.Records.{Damaged, records};
ghost use Rattle.pm3_journal.specs.Recovered.{HasRecords};
ghost use Rattle.pm3_journal.specs.Summaries.{has_page};

use crate::device_reading::{Findings, find};
use crate::earlier::Earlier;
use crate::faults::RecoverFault;
use crate::journal::Journal;
use crate::list_reading::Scanned;
use pm3_disk::Disk;
use std::alloc::Global;

/// The journal of a device. It syncs the device first, so that no earlier write is pending, reads the records of its list,
/// and nothing behind it. A journal without records has the number 1 due.
pub fn recover<D: Disk>(alloc: Global, disk: D) -> Result<Journal<D>, (RecoverFault, D)>
    ensures list { IfOk result (λ journal. IfTold (D.content disk) (λ bytes. (rs : List JournalRecord) × HasRecords journal rs bytes)) }
    ensures images { IfOk result (λ journal. IfTold (D.content disk) (λ bytes. journal.images ≡ images_at 0 journal.offsets bytes)) }
    ensures damaged { (offset : ℕ) (back : D) → result ≡ Err (RecoverFault.Damaged offset, back)
        → IfTold (D.content disk) (λ bytes. records bytes ≡ Damaged offset) }
    ensures idle { IfOk result (λ journal. (journal.stopped ≡ None) × (journal.failed ≡ None)) }
    ensures first { IfOk result (λ journal. journal.summaries ≡ [] → journal.next ≡ 1) }
    ensures range { IfOk result (λ journal. (16 ≤ journal.pages) × (journal.pages ≤ 16384) × (1 ≤ journal.next) × (journal.next < 2 ^ 64)) }
    ensures held { IfOk result (λ journal. (page : ℕ) → is_some (image_of page journal.images) ≡ has_page journal.summaries page) }
    ensures placed { IfOk result (λ journal. (page : ℕ)
        → has_offset (slice_index_or journal.offsets page None) ≡ has_page journal.summaries page) }
    ensures within { IfOk result (λ journal. (page : ℕ) → has_page journal.summaries page ≡ true → (2 ≤ page) × (page < journal.pages)) }
    ensures settled { IfOk result (λ journal. IsSynced D.Disk journal.disk) }
    ensures since { IfOk result (λ journal. journal.since ≡ D.moment journal.disk) }
    ensures reads { IfOk result (λ journal. OnlyReads D.Disk disk journal.disk) }
    ensures honest { IfOk result (λ journal. HasNotFailed D.Disk disk journal.disk) }
    ensures back { IfErr result (λ refused. OnlyReads D.Disk disk refused.1) }
    ensures cause { IfErr result (λ refused. IsCauseOf D.Disk disk refused.1 refused.0) }
{
    let mut disk = disk;
    let Findings {
        pages,
        list,
        next,
        is_closed,
        images,
        offsets,
    } = match find(alloc, &mut disk) {
        Ok(found) => found,
        Err(fault) => return Err((fault, disk)),
    };
    let Scanned {
        entries,
        end,
        due: _,
    } = list;
    let since = Earlier::of(&disk);
    Ok(Journal {
        disk,
        pages,
        entries,
        end,
        next,
        is_closed,
        stopped: None,
        is_torn: false,
        buffer: Vec::new(alloc),
        numbers: Vec::new(alloc),
        room: None,
        since,
        failed: None,
        images,
        offsets,
    })
}
