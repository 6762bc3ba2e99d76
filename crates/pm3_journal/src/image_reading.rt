//! The last images in a journal's records, read from its device.
ghost use Rattle.std.specs.Prelude.{◌≡◌, ◌+◌, ◌<◌, ◌≤◌, ◌==◌, ◌||◌, ◌&&◌, ◌∷◌, ◌++◌, ℕ, true, [], length, slice_index_or, is_some, Option, Some, None, IfOk, OnOk, IsErrOf};
ghost use Rattle.pm3_disk.specs.Content.{IfTold};
ghost use Rattle.pm3_disk.specs.Devices.{IsHonest, OnlyReads};
ghost use Rattle.pm3_journal.specs.Honesty.{IsHonestReading};
ghost use Rattle.pm3_journal.specs.Offsets.{has_offset, images_at, number_of_offsets, one_at};
ghost use Rattle.pm3_journal.specs.Pages.{AreBelow, image_of};
ghost use Rattle.pm3_journal.specs.Windows.{IsWindowOn};

use crate::faults::RecoverFault;
use crate::file_pages::FilePages;
use crate::window::Window;
use pm3_disk::{Disk, Failed};
use std::alloc::Global;

/// The images at the offsets of a table, in order of their pages. Memory is taken once for all of them.
pub(crate) fn read_images<D: Disk>(
    alloc: Global,
    window: &Window,
    disk: &mut D,
    offsets: &[Option<u64>],
) -> Result<FilePages, RecoverFault>
    requires window { IsWindowOn window.now (D.content disk.old) }
    requires within { IfTold (D.content disk.old) (λ bytes. (page place : ℕ)
        → slice_index_or offsets.now page None ≡ Some place → place + 4096 ≤ length bytes) }
    requires few { length offsets.now ≤ 16384 }
    ensures images { IfOk result (λ images. IfTold (D.content disk.old) (λ bytes. images.items ≡ images_at 0 offsets.now bytes)) }
    ensures has { IfOk result (λ images. (page : ℕ)
        → is_some (image_of page images.items) ≡ has_offset (slice_index_or offsets.now page None)) }
    ensures whole { (offset : ℕ) → ¬ (IsErrOf result (RecoverFault.Damaged offset)) }
    ensures reads { OnlyReads D.Disk disk.old disk.new }
    ensures cause { IsHonestReading D.Disk disk.old disk.new result }
{
    let mut images = FilePages::new(alloc);
    let Ok(()) = images.reserve(count_offsets(offsets)) else {
        return Err(RecoverFault::Memory);
    };
    for page in 0..offsets.len() {
        let Ok(()) = add_image(window, disk, page as u32, offsets[page], &mut images) else {
            return Err(RecoverFault::JournalFault);
        };
    }
    Ok(images)
}

/// Adds the image of a page, where it has an offset. There is room for it.
fn add_image<D: Disk>(
    window: &Window,
    disk: &mut D,
    page: u32,
    offset: Option<u64>,
    images: &mut FilePages,
) -> Result<(), Failed>
    requires window { IsWindowOn window.now (D.content disk.old) }
    requires within { IfTold (D.content disk.old) (λ bytes. (at : ℕ) → offset ≡ Some at → at + 4096 ≤ length bytes) }
    requires below { AreBelow page images.old.items }
    requires room { has_offset offset ≡ true → 0 < images.old.room }
    ensures added { OnOk result (IfTold (D.content disk.old) (λ bytes. images.new.items ≡ images.old.items ++ one_at page offset bytes)) }
    ensures has { OnOk result ((q : ℕ) → is_some (image_of q images.new.items)
        ≡ (is_some (image_of q images.old.items) || (has_offset offset && page == q))) }
    ensures below { OnOk result (AreBelow (page + 1) images.new.items) }
    ensures room { OnOk result (images.old.room ≤ images.new.room + number_of_offsets (offset ∷ [])) }
    ensures reads { OnlyReads D.Disk disk.old disk.new }
    ensures cause { IsHonest D.Disk disk.old disk.new result }
{
    let Some(at) = offset else {
        return Ok(());
    };
    let mut image = [0; 4096];
    window.read_beside(disk, at, &mut image)?;
    images.push(page, &image);
    Ok(())
}

/// How many cells of a table have an offset.
fn count_offsets(offsets: &[Option<u64>]) -> u32
    requires { length offsets.now ≤ 16384 }
    ensures { result ≡ number_of_offsets offsets.now }
{
    offsets.iter().filter(|offset| offset.is_some()).count() as u32
}
