//! A journal without records.
ghost use Rattle.std.specs.Prelude.{◌≡◌, ◌≤◌, option_map, OnOk, OnErr};
ghost use Rattle.pm3_disk.specs.Devices.{IsHonest, IsSynced, MakesAtMost, Takes};
ghost use Rattle.pm3_journal.specs.FileHead.{empty_journal};

use crate::faults::JournalFault;
use crate::file_head::encode_empty;
use pm3_disk::{Disk, write_through};

/// Writes a journal without records, of a store of so many pages, over what is there, and syncs it. A crash before its end
/// may leave bytes that are no journal.
pub fn create<D: Disk>(disk: &mut D, pages: u32) -> Result<(), JournalFault>
    requires few { 16 ≤ pages }
    requires most { pages ≤ 16384 }
    ensures created { OnOk result (D.content disk.new ≡ option_map (λ _. empty_journal pages) (D.content disk.old)) }
    ensures settled { OnOk result (IsSynced D.Disk disk.new) }
    ensures told { OnErr result (Takes D.Disk disk.old disk.new (λ _ _. Unit {0})) }
    ensures single { MakesAtMost D.Disk 3 disk.old disk.new }
    ensures cause { IsHonest D.Disk disk.old disk.new result }
{
    disk.cut(0)?;
    // Synced, so that the journal is there before the store's page file is written.
    write_through(disk, 0, &encode_empty(pages))?;
    Ok(())
}
