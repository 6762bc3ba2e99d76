//! Bytes behind a gate, which is opened once they are on the disk.
ghost use Rattle.std.specs.Prelude.{◌≡◌, ◌+◌, ◌^◌, ◌<◌, ◌≤◌, ◌∷◌, [], true, if◌then◌else◌, length, option_map, OnOk, OnErr};
ghost use Rattle.pm3_disk.specs.Content.{IfTold, overwrite};
ghost use Rattle.pm3_disk.specs.Devices.{IsHonest, IsSynced, LeavesFromTold, MakesAtMost, Takes};
ghost use Rattle.pm3_journal.specs.Gates.{AppendLeaves, Closes, ClosingLeaves, entered, EntryLeaves, IsClosed};

use pm3_disk::{Disk, Failed, write_through};

/// Closes the gate at this offset, which is open or missing where it isn't known to be closed. A gate that is closed is
/// left alone: to write 0 over another byte could tear it open.
pub(crate) fn close_gate<D: Disk>(disk: &mut D, at: u64, is_closed: bool) -> Result<(), Failed>
    requires settled { IsSynced D.Disk disk.old }
    requires within { IfTold (D.content disk.old) (λ old. at ≤ length old) }
    requires closed { is_closed ≡ true → IfTold (D.content disk.old) (IsClosed at) }
    ensures written { OnOk result (D.content disk.new
        ≡ (if is_closed then D.content disk.old else option_map (overwrite at (0 ∷ [])) (D.content disk.old))) }
    ensures done { OnOk result (Takes D.Disk disk.old disk.new (Closes at)) }
    ensures settled { OnOk result (IsSynced D.Disk disk.new) }
    ensures torn { OnErr result (Takes D.Disk disk.old disk.new (ClosingLeaves at is_closed)) }
    ensures crash { LeavesFromTold D.Disk disk.old disk.new (ClosingLeaves at is_closed) }
    ensures single { MakesAtMost D.Disk (if is_closed then 0 else 2) disk.old disk.new }
    ensures cause { IsHonest D.Disk disk.old disk.new result }
{
    if is_closed {
        return Ok(());
    }
    write_through(disk, at, &[0])?;
    Ok(())
}

/// Puts a body behind the closed gate at this offset, and then opens the gate. The body is synced before the gate is
/// written: else a crash could leave the open gate before a body that is there in part.
pub(crate) fn enter<D: Disk>(disk: &mut D, at: u64, body: &[u8]) -> Result<(), Failed>
    requires settled { IsSynced D.Disk disk.old }
    requires gate { IfTold (D.content disk.old) (λ old. at < length old) }
    requires small { at + length body.now < 2 ^ 62 }
    ensures done { OnOk result (D.content disk.new ≡ option_map (entered at body.now) (D.content disk.old)) }
    ensures settled { OnOk result (IsSynced D.Disk disk.new) }
    ensures torn { OnErr result (Takes D.Disk disk.old disk.new (EntryLeaves at body.now)) }
    ensures crash { LeavesFromTold D.Disk disk.old disk.new (EntryLeaves at body.now) }
    ensures single { MakesAtMost D.Disk 4 disk.old disk.new }
    ensures cause { IsHonest D.Disk disk.old disk.new result }
{
    write_through(disk, at + 1, body)?;
    // Synced once more, so that the record is kept from here on: what is answered next is its receipt.
    write_through(disk, at, &[1])?;
    Ok(())
}

/// Closes the gate where it isn't, puts a body behind it, and opens it.
pub(crate) fn append_body<D: Disk>(
    disk: &mut D,
    at: u64,
    is_closed: bool,
    body: &[u8],
) -> Result<(), Failed>
    requires settled { IsSynced D.Disk disk.old }
    requires within { IfTold (D.content disk.old) (λ old. at ≤ length old) }
    requires closed { is_closed ≡ true → IfTold (D.content disk.old) (IsClosed at) }
    requires small { at + length body.now < 2 ^ 62 }
    ensures done { OnOk result (D.content disk.new ≡ option_map (entered at body.now) (D.content disk.old)) }
    ensures settled { OnOk result (IsSynced D.Disk disk.new) }
    ensures torn { OnErr result (Takes D.Disk disk.old disk.new (AppendLeaves at is_closed body.now)) }
    ensures crash { LeavesFromTold D.Disk disk.old disk.new (AppendLeaves at is_closed body.now) }
    ensures single { MakesAtMost D.Disk (if is_closed then 4 else 6) disk.old disk.new }
    ensures cause { IsHonest D.Disk disk.old disk.new result }
{
    // An open gate that a crash left, whose record isn't whole, is closed and synced before anything is written behind it.
    close_gate(disk, at, is_closed)?;
    enter(disk, at, body)?;
    Ok(())
}
