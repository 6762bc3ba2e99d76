//! The records of a journal, read from its device.
ghost use Rattle.std.specs.Prelude.{◌≡◌, ◌+◌, ◌*◌, ◌^◌, ◌<◌, ◌≤◌, ℕ, [], length, slice_index_or, Option, Some, None, IfOk, IfSome, OnOk, IsErrOf};
ghost use Rattle.pm3_disk.specs.Content.{IfTold};
ghost use Rattle.pm3_disk.specs.Devices.{OnlyReads};
ghost use Rattle.pm3_journal.specs.Findings.{HasHead, HasList};
ghost use Rattle.pm3_journal.specs.Honesty.{IsHonestReading};
ghost use Rattle.pm3_journal.specs.Offsets.{AreHeld, IsTable};
ghost use Rattle.pm3_journal.specs.Reading.{Ends, record_at};
ghost use Rattle.pm3_journal.specs.Records.{Damaged, records};
ghost use Rattle.pm3_journal.specs.Windows.{IsWindowOn};

use crate::entries::Entries;
use crate::faults::RecoverFault;
use crate::record_front::successor;
use crate::record_reading::{next_front, read_record};
use crate::sizes::{FRONT_SIZE, HEAD_SIZE, PART_SIZE};
use crate::window::Window;
use pm3_disk::Disk;
use std::alloc::Global;

/// The list, and where it ends.
#[derive(Drop)]
pub(crate) struct Scanned {
    /// What is kept of the records.
    pub(crate) entries: Entries,
    /// The offset behind the last.
    pub(crate) end: u64,
    /// The number that is due there, if there is a record before.
    pub(crate) due: Option<u64>,
}

/// All records behind a head. The offsets of their last images are noted.
pub(crate) fn read_list<D: Disk>(
    alloc: Global,
    window: &mut Window,
    disk: &mut D,
    len: u64,
    offsets: &mut [Option<u64>],
) -> Result<Scanned, RecoverFault>
    requires window { IsWindowOn window.old (D.content disk.old) }
    requires len { IfTold (D.content disk.old) (λ bytes. len ≡ length bytes) }
    requires within { 32 ≤ len }
    requires head { IfTold (D.content disk.old) (HasHead (length offsets.old)) }
    requires blank { (page : ℕ) → slice_index_or offsets.old page None ≡ None }
    requires table { IsTable offsets.old }
    ensures good { IfOk result (λ list. IfTold (D.content disk.old) (HasList
        (length offsets.old) list.end list.due list.entries.summaries offsets.new)) }
    ensures ends { IfOk result (λ list. IfTold (D.content disk.old)
        (λ bytes. record_at (record { pages = length offsets.old; due = list.due }) list.end bytes ≡ Ends)) }
    ensures within { IfOk result (λ list. list.end ≤ len) }
    ensures pages { IfOk result (λ list. list.entries.pages ≡ length offsets.old) }
    ensures first { IfOk result (λ list. list.entries.summaries ≡ [] → list.due ≡ None) }
    ensures positive { IfOk result (λ list. IfSome list.due (λ due. 1 ≤ due)) }
    ensures held { IfOk result (λ list. AreHeld list.entries.summaries offsets.new) }
    ensures damaged { (offset : ℕ) → IsErrOf result (RecoverFault.Damaged offset)
        → IfTold (D.content disk.old) (λ bytes. records bytes ≡ Damaged offset) }
    ensures window { OnOk result (IsWindowOn window.new (D.content disk.new)) }
    ensures size { length offsets.new ≡ length offsets.old }
    ensures table { IsTable offsets.new }
    ensures reads { OnlyReads D.Disk disk.old disk.new }
    ensures cause { IsHonestReading D.Disk disk.old disk.new result }
{
    let Ok(mut entries) = Entries::new(alloc, offsets.len() as u32) else {
        return Err(RecoverFault::Memory);
    };
    let mut end = HEAD_SIZE;
    let mut due = None;
    while end < len {
        let front = match next_front(window, disk, end, len, due) {
            Ok(Some(front)) => front,
            Ok(None) => return Ok(Scanned { entries, end, due }),
            Err(_) => return Err(RecoverFault::JournalFault),
        };
        let summary = match read_record(alloc, window, disk, end, &front, due, offsets) {
            Ok(summary) => summary,
            Err(fault) => return Err(fault),
        };
        end += FRONT_SIZE + PART_SIZE * summary.pages.len() as u64;
        due = Some(successor(summary.seq));
        let Ok(()) = entries.reserve() else {
            return Err(RecoverFault::Memory);
        };
        entries.add(summary);
    }
    Ok(Scanned { entries, end, due })
}
