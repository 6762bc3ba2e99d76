//! A journal, read from its device.
ghost use Rattle.std.specs.Prelude.{◌≡◌, ◌≤◌, ℕ, true, length, replicate, Option, Some, None, IfOk, IfSome, OnOk, IsErrOf, take};
ghost use Rattle.pm3_disk.specs.Content.{IfTold};
ghost use Rattle.pm3_disk.specs.Devices.{IsHonest, IsSynced, OnlyReads};
ghost use Rattle.pm3_journal.specs.FileHead.{head_departure};
ghost use Rattle.pm3_journal.specs.Findings.{HasHead, IsFoundIn, IsSoundFound};
ghost use Rattle.pm3_journal.specs.Gates.{IsGate};
ghost use Rattle.pm3_journal.specs.Honesty.{IsHonestReading};
ghost use Rattle.pm3_journal.specs.RecordFront.{is_due};
ghost use Rattle.pm3_journal.specs.Records.{Damaged, records};
ghost use Rattle.pm3_journal.specs.Windows.{IsWindowOn};

use crate::faults::RecoverFault;
use crate::file_head::decode;
use crate::file_pages::FilePages;
use crate::image_reading::read_images;
use crate::list_reading::{Scanned, read_list};
use crate::sizes::HEAD_SIZE;
use crate::window::Window;
use pm3_disk::{Disk, Failed, Memory};
use std::alloc::Global;

/// What a device has of a journal.
#[derive(Drop)]
pub(crate) struct Findings {
    /// How many pages the store has.
    pub(crate) pages: u32,
    /// The records, and where they end.
    pub(crate) list: Scanned,
    /// The number that is due.
    pub(crate) next: u64,
    /// Whether the gate where they end is there and closed.
    pub(crate) is_closed: bool,
    /// The last images in the records.
    pub(crate) images: FilePages,
    /// By page number, the offsets of these images.
    pub(crate) offsets: Vec<Option<u64>>,
}

/// The page count in the head.
fn read_head<D: Disk>(window: &mut Window, disk: &mut D) -> Result<u32, RecoverFault>
    ensures head { IfOk result (λ pages. IfTold (D.content disk.old) (HasHead pages)) }
    ensures range { IfOk result (λ pages. (16 ≤ pages) × (pages ≤ 16384)) }
    ensures damaged { (offset : ℕ) → IsErrOf result (RecoverFault.Damaged offset)
        → IfTold (D.content disk.old) (λ bytes. head_departure (take 32 bytes) ≡ Some offset) }
    ensures window { OnOk result (IsWindowOn window.new (D.content disk.new)) }
    ensures reads { OnlyReads D.Disk disk.old disk.new }
    ensures cause { IsHonestReading D.Disk disk.old disk.new result }
{
    let Ok(()) = window.fill(disk, 0) else {
        return Err(RecoverFault::JournalFault);
    };
    match decode(window.first(HEAD_SIZE as usize)) {
        Ok(pages) => Ok(pages),
        Err(offset) => Err(RecoverFault::Damaged { offset }),
    }
}

/// Whether the gate at an offset, where the list ends, is there and closed.
fn gate_is_closed<D: Disk>(
    window: &mut Window,
    disk: &mut D,
    at: u64,
    len: u64,
) -> Result<bool, Failed>
    requires window { IsWindowOn window.old (D.content disk.old) }
    requires len { IfTold (D.content disk.old) (λ bytes. len ≡ length bytes) }
    requires within { at ≤ len }
    ensures gate { IfOk result (λ is_closed. IfTold (D.content disk.old) (IsGate is_closed at)) }
    ensures window { OnOk result (IsWindowOn window.new (D.content disk.new)) }
    ensures reads { OnlyReads D.Disk disk.old disk.new }
    ensures cause { IsHonest D.Disk disk.old disk.new result }
{
    if at >= len {
        return Ok(false);
    }
    let mut gate = [0];
    window.read(disk, at, &mut gate)?;
    Ok(gate[0] != 1)
}

/// A table of no offsets.
fn blank_table(alloc: Global, pages: u32) -> Result<Vec<Option<u64>>, Memory>
    ensures { IfOk result (λ table. table.items ≡ replicate pages None) }
{
    let table = vec![in alloc; None; pages as usize]?;
    Ok(table)
}

/// The number that is due, or 1 where no record says.
fn first_number(due: Option<u64>) -> u64
    requires { IfSome due (λ seq. 1 ≤ seq) }
    ensures due { is_due due result ≡ true }
    ensures first { due ≡ None → result ≡ 1 }
    ensures positive { 1 ≤ result }
{
    match due {
        None => 1,
        Some(seq) => seq,
    }
}

/// The journal on a device of so many bytes.
fn read_journal<D: Disk>(alloc: Global, disk: &mut D, len: u64) -> Result<Findings, RecoverFault>
    requires len { IfTold (D.content disk.old) (λ bytes. len ≡ length bytes) }
    ensures found { IfOk result (λ found. IfTold (D.content disk.old) (IsFoundIn found)) }
    ensures sound { IfOk result IsSoundFound }
    ensures damaged { (offset : ℕ) → IsErrOf result (RecoverFault.Damaged offset)
        → IfTold (D.content disk.old) (λ bytes. records bytes ≡ Damaged offset) }
    ensures reads { OnlyReads D.Disk disk.old disk.new }
    ensures cause { IsHonestReading D.Disk disk.old disk.new result }
{
    let Ok(mut window) = Window::new(alloc) else {
        return Err(RecoverFault::Memory);
    };
    let pages = match read_head(&mut window, disk) {
        Ok(pages) => pages,
        Err(fault) => return Err(fault),
    };
    let len = len.max(HEAD_SIZE);
    let Ok(mut offsets) = blank_table(alloc, pages) else {
        return Err(RecoverFault::Memory);
    };
    let list = match read_list(alloc, &mut window, disk, len, &mut offsets) {
        Ok(list) => list,
        Err(fault) => return Err(fault),
    };
    let Ok(is_closed) = gate_is_closed(&mut window, disk, list.end, len) else {
        return Err(RecoverFault::JournalFault);
    };
    let images = match read_images(alloc, &window, disk, &offsets) {
        Ok(images) => images,
        Err(fault) => return Err(fault),
    };
    let next = first_number(list.due);
    Ok(Findings {
        pages,
        list,
        next,
        is_closed,
        images,
        offsets,
    })
}

/// Syncs a device and reads its journal.
pub(crate) fn find<D: Disk>(alloc: Global, disk: &mut D) -> Result<Findings, RecoverFault>
    ensures found { IfOk result (λ found. IfTold (D.content disk.old) (IsFoundIn found)) }
    ensures sound { IfOk result IsSoundFound }
    ensures damaged { (offset : ℕ) → IsErrOf result (RecoverFault.Damaged offset)
        → IfTold (D.content disk.old) (λ bytes. records bytes ≡ Damaged offset) }
    ensures settled { OnOk result (IsSynced D.Disk disk.new) }
    ensures reads { OnlyReads D.Disk disk.old disk.new }
    ensures cause { IsHonestReading D.Disk disk.old disk.new result }
{
    // Synced before it is read: what is read then is what every later crash leaves, and no write from before is pending
    // that could undo it.
    let Ok(()) = disk.sync() else {
        return Err(RecoverFault::JournalFault);
    };
    let Ok(len) = disk.len() else {
        return Err(RecoverFault::JournalFault);
    };
    match read_journal(alloc, disk, len) {
        Ok(found) => Ok(found),
        Err(fault) => Err(fault),
    }
}
