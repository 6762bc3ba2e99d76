//! Writes that a crash can't undo.
ghost use Rattle.std.specs.Prelude.{◌≡◌, ◌≤◌, length, option_map, OnOk, OnErr};
ghost use Rattle.pm3_disk.specs.Content.{IfTold, overwrite, TornWrite};
ghost use Rattle.pm3_disk.specs.Devices.{IsHonest, IsSynced, Leaves, MakesAtMost, Takes};

use crate::outside::{Disk, Failed};

/// Writes bytes from offset `at` on, and syncs. `at` isn't past the end. Where it fails, the write may be done, in
/// part or whole, or not. A sync that failed isn't tried again: a system may have dropped what it couldn't write.
pub fn write_through<D: Disk>(disk: &mut D, at: u64, bytes: &[u8]) -> Result<(), Failed>
    requires { IfTold (D.content disk.old) (λ old. at ≤ length old) }
    ensures written { OnOk result (D.content disk.new ≡ option_map (overwrite at bytes.now) (D.content disk.old)) }
    ensures settled { OnOk result (IsSynced D.Disk disk.new) }
    ensures torn { OnErr result (Takes D.Disk disk.old disk.new (TornWrite at (length bytes.now))) }
    ensures crash { Leaves D.Disk disk.old disk.new (TornWrite at (length bytes.now)) }
    ensures single { MakesAtMost D.Disk 2 disk.old disk.new }
    ensures cause { IsHonest D.Disk disk.old disk.new result }
{
    match disk.write_at(at, bytes) {
        Ok(()) => disk.sync(),
        Err(failed) => Err(failed),
    }
}
