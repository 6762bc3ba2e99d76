//! The marks, read from page 0.
ghost use Rattle.std.specs.Prelude.{◌≡◌, ◌≤◌, IfOk, IsErrOf};
ghost use Rattle.pm3_disk.specs.Content.{IfTold};
ghost use Rattle.pm3_disk.specs.Devices.{HasFailed, HasNotFailed, OnlyReads};
ghost use Rattle.pm3_page.specs.Head.{AreMarks};
ghost use Rattle.pm3_pagefile.specs.HeadForm.{AreRead, AreReadIn};
ghost use Rattle.pm3_pagefile.specs.PageBytes.{page_at};

use crate::faults::MarksFault;
use crate::head::decode;
use crate::padding::PAGE_SIZE;
use crate::transfer::read_page;
use pm3_disk::Disk;
use pm3_page::Marks;

/// Reads the marks of page 0. The offset of a damage is that of the first byte of the first field that departs from the
/// form or that the file hasn't whole.
pub fn read_marks<D: Disk>(disk: &mut D) -> Result<Marks, MarksFault>
    ensures read { IfTold (D.content disk.old) (λ bytes. AreRead (page_at 0 bytes) result) }
    ensures bounds { IfOk result AreMarks }
    ensures reads { OnlyReads D.Disk disk.old disk.new }
    ensures cause { IsErrOf result MarksFault.PageFault → HasFailed D.Disk disk.old disk.new }
    ensures calm { ¬ IsErrOf result MarksFault.PageFault → HasNotFailed D.Disk disk.old disk.new }
{
    read_within(disk, 16, 16_384)
}

/// Reads the marks of page 0 in a store whose page count is known: another count departs from the form.
pub fn read_marks_of<D: Disk>(disk: &mut D, pages: u32) -> Result<Marks, MarksFault>
    requires { (16 ≤ pages) × (pages ≤ 16384) }
    ensures read { IfTold (D.content disk.old) (λ bytes. AreReadIn pages pages (page_at 0 bytes) result) }
    ensures bounds { IfOk result (λ marks. AreMarks marks × (marks.pages ≡ pages)) }
    ensures reads { OnlyReads D.Disk disk.old disk.new }
    ensures cause { IsErrOf result MarksFault.PageFault → HasFailed D.Disk disk.old disk.new }
    ensures calm { ¬ IsErrOf result MarksFault.PageFault → HasNotFailed D.Disk disk.old disk.new }
{
    read_within(disk, pages, pages)
}

/// Reads the marks of page 0 in a store of `least` to `most` pages.
fn read_within<D: Disk>(disk: &mut D, least: u32, most: u32) -> Result<Marks, MarksFault>
    requires { (16 ≤ least) × (most ≤ 16384) }
    ensures read { IfTold (D.content disk.old) (λ bytes. AreReadIn least most (page_at 0 bytes) result) }
    ensures bounds { IfOk result (λ marks. AreMarks marks × (least ≤ marks.pages) × (marks.pages ≤ most)) }
    ensures reads { OnlyReads D.Disk disk.old disk.new }
    ensures cause { IsErrOf result MarksFault.PageFault → HasFailed D.Disk disk.old disk.new }
    ensures calm { ¬ IsErrOf result MarksFault.PageFault → HasNotFailed D.Disk disk.old disk.new }
{
    let mut page = [0; PAGE_SIZE];
    let Ok(count) = read_page(disk, 0, &mut page) else {
        return Err(MarksFault::PageFault);
    };
    let (bytes, _) = page.split_at(count);
    decode(bytes, least, most)
}
