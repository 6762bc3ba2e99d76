//! One record, read from a device.
ghost use Rattle.std.specs.Prelude.{All, ◌≡◌, ◌+◌, ◌-◌, ◌*◌, ◌^◌, ◌<◌, ◌≤◌, ℕ, false, length, Option, IfOk, OnOk, IfSome, IfNone, IsErrOf};
ghost use Rattle.pm3_disk.specs.Content.{IfTold};
ghost use Rattle.pm3_disk.specs.Devices.{IsHonest, OnlyReads};
ghost use Rattle.pm3_types.specs.Bytes.{piece};
ghost use Rattle.pm3_journal.specs.Findings.{HasParts, HasRecord, IsFrontAt};
ghost use Rattle.pm3_journal.specs.Honesty.{IsHonestReading};
ghost use Rattle.pm3_journal.specs.Offsets.{AreNoted, IsTable};
ghost use Rattle.pm3_journal.specs.Reading.{Bad, Broken, parts_at, record_at};
ghost use Rattle.pm3_journal.specs.RecordFront.{number_of, stands};
ghost use Rattle.pm3_journal.specs.Summaries.{IsBounded};
ghost use Rattle.pm3_journal.specs.Windows.{IsWindowOn};

use crate::faults::RecoverFault;
use crate::record_front::{decode, departing_front, departing_part, part_count, stands_here};
use crate::sizes::{FRONT_SIZE, PART_SIZE};
use crate::summary::{Summary, add};
use crate::window::Window;
use pm3_disk::{Disk, Failed};
use pm3_types::u32_at;
use std::alloc::Global;

/// The front of the record at an offset, if one of the list stands there.
pub(crate) fn next_front<D: Disk>(
    window: &mut Window,
    disk: &mut D,
    at: u64,
    len: u64,
    due: Option<u64>,
) -> Result<Option<[u8; 48]>, Failed>
    requires window { IsWindowOn window.old (D.content disk.old) }
    requires len { IfTold (D.content disk.old) (λ bytes. len ≡ length bytes) }
    requires within { at ≤ len }
    ensures here { IfOk result (λ found. IfSome found (λ front. IfTold (D.content disk.old) (IsFrontAt due at front))) }
    ensures fits { IfOk result (λ found. IfSome found (λ front. at + 48 + 4104 * number_of front ≤ len)) }
    ensures none { IfOk result (λ found. IfNone found (IfTold (D.content disk.old)
        (λ bytes. stands due (length bytes - at) (piece at 48 bytes) ≡ false))) }
    ensures window { OnOk result (IsWindowOn window.new (D.content disk.new)) }
    ensures reads { OnlyReads D.Disk disk.old disk.new }
    ensures cause { IsHonest D.Disk disk.old disk.new result }
{
    if len - at < FRONT_SIZE {
        return Ok(None);
    }
    let mut front = [0; FRONT_SIZE as usize];
    window.read(disk, at, &mut front)?;
    if stands_here(due, len - at, &front) {
        Ok(Some(front))
    } else {
        Ok(None)
    }
}

/// The numbers of the pages of a record. The offsets of their images are noted.
fn read_parts<D: Disk>(
    alloc: Global,
    window: &mut Window,
    disk: &mut D,
    at: u64,
    count: u32,
    offsets: &mut [Option<u64>],
) -> Result<Vec<u32>, RecoverFault>
    requires window { IsWindowOn window.old (D.content disk.old) }
    requires within { IfTold (D.content disk.old) (λ bytes. at + 4104 * count ≤ length bytes) }
    requires table { IsTable offsets.old }
    requires fewer { count < length offsets.old }
    requires small { at + 4104 * count < 2 ^ 64 }
    ensures good { IfOk result (λ numbers. IfTold (D.content disk.old)
        (λ bytes. HasParts count (length offsets.old) at bytes numbers.items offsets.old offsets.new)) }
    ensures number { IfOk result (λ numbers. length numbers.items ≡ count) }
    ensures pages { IfOk result (λ numbers. All (λ page. page < length offsets.old) numbers.items) }
    ensures above { IfOk result (λ numbers. All (λ page. 2 ≤ page) numbers.items) }
    ensures noted { IfOk result (λ numbers. AreNoted numbers.items offsets.old offsets.new) }
    ensures damaged { (offset : ℕ) → IsErrOf result (RecoverFault.Damaged offset)
        → IfTold (D.content disk.old) (λ bytes. parts_at count (length offsets.old) 1 at bytes ≡ Bad offset) }
    ensures window { OnOk result (IsWindowOn window.new (D.content disk.new)) }
    ensures size { length offsets.new ≡ length offsets.old }
    ensures table { IsTable offsets.new }
    ensures reads { OnlyReads D.Disk disk.old disk.new }
    ensures cause { IsHonestReading D.Disk disk.old disk.new result }
{
    let pages = offsets.len() as u32;
    let Ok(mut numbers) = Vec::with_capacity(alloc, count as usize) else {
        return Err(RecoverFault::Memory);
    };
    let mut last = 1;
    for i in 0..count {
        let here = at + PART_SIZE * i as u64;
        let mut field = [0; 8];
        let Ok(()) = window.read(disk, here, &mut field) else {
            return Err(RecoverFault::JournalFault);
        };
        if let Some(offset) = departing_part(pages, last, &field) {
            return Err(RecoverFault::Damaged {
                offset: here + offset,
            });
        }
        last = u32_at(&field, 0);
        add(&mut numbers, last);
        offsets[last as usize] = Some(here + 8);
    }
    Ok(numbers)
}

/// The record with this front, at an offset.
pub(crate) fn read_record<D: Disk>(
    alloc: Global,
    window: &mut Window,
    disk: &mut D,
    at: u64,
    front: &[u8],
    due: Option<u64>,
    offsets: &mut [Option<u64>],
) -> Result<Summary, RecoverFault>
    requires window { IsWindowOn window.old (D.content disk.old) }
    requires size { length front.now ≡ 48 }
    requires here { IfTold (D.content disk.old) (IsFrontAt due at front.now) }
    requires fits { at + 48 + 4104 * number_of front.now < 2 ^ 64 }
    requires table { IsTable offsets.old }
    ensures good { IfOk result (λ summary. IfTold (D.content disk.old)
        (λ bytes. HasRecord (record { pages = length offsets.old; due = due }) at bytes summary offsets.old offsets.new)) }
    ensures number { IfOk result (λ summary. length summary.pages ≡ number_of front.now) }
    ensures pages { IfOk result (λ summary. All (λ page. page < length offsets.old) summary.pages) }
    ensures above { IfOk result (λ summary. All (λ page. 2 ≤ page) summary.pages) }
    ensures noted { IfOk result (λ summary. AreNoted summary.pages offsets.old offsets.new) }
    ensures bounded { IfOk result (λ summary. IsBounded (length offsets.old) summary) }
    ensures damaged { (offset : ℕ) → IsErrOf result (RecoverFault.Damaged offset)
        → IfTold (D.content disk.old)
        (λ bytes. record_at (record { pages = length offsets.old; due = due }) at bytes ≡ Broken offset) }
    ensures window { OnOk result (IsWindowOn window.new (D.content disk.new)) }
    ensures size { length offsets.new ≡ length offsets.old }
    ensures table { IsTable offsets.new }
    ensures reads { OnlyReads D.Disk disk.old disk.new }
    ensures cause { IsHonestReading D.Disk disk.old disk.new result }
{
    let pages = offsets.len() as u32;
    if let Some(field) = departing_front(pages, front) {
        return Err(RecoverFault::Damaged { offset: at + field });
    }
    let count = part_count(front);
    let numbers = match read_parts(alloc, window, disk, at + FRONT_SIZE, count, offsets) {
        Ok(numbers) => numbers,
        Err(fault) => return Err(fault),
    };
    Ok(decode(front, numbers))
}
