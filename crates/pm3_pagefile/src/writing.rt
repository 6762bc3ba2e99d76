//! Images, written to their pages, and page 0 behind them.
ghost use Rattle.std.specs.Prelude.{◌≡◌, ◌+◌, ◌*◌, ◌≤◌, length, OnOk, OnErr};
ghost use Rattle.std.specs.FinMap.{len};
ghost use Rattle.pm3_disk.specs.Content.{IfTold};
ghost use Rattle.pm3_disk.specs.Devices.{IsHonest, IsSynced, Leaves, MakesAtMost, Takes};
ghost use Rattle.pm3_types.specs.PageForm.{IsSound};
ghost use Rattle.pm3_page.specs.PageBytes.{file_bytes};
ghost use Rattle.pm3_pagefile.specs.PageBytes.{ChangesOnly, IsReplaced};
ghost use Rattle.pm3_pagefile.specs.Writing.{AreWritable, HeadComesLast, images_given, only, store_given};

use crate::faults::PageFault;
use crate::head::encode;
use crate::padding::{PAGE_SIZE, padded_page};
use pm3_disk::{Disk, Failed};
use pm3_page::{BASE, Image, Marks, PageNo, Pages};
use pm3_types::Catalog;

/// Writes each image at its page, then the marks at page 0, and syncs once. After a fault these pages may have any bytes,
/// and nothing else has changed. The marks come last, so that they aren't written at all where an image wasn't. No page is
/// written twice.
pub fn write_images<D: Disk>(
    disk: &mut D,
    marks: Marks,
    catalog: &Catalog,
    images: &Pages,
) -> Result<(), PageFault>
    requires file { IfTold (D.content disk.old) (λ bytes. length bytes ≡ 4096 * marks.pages) }
    requires images { AreWritable catalog.now BASE marks.pages images.now.images }
    ensures ok { OnOk result (Takes D.Disk disk.old disk.new (IsReplaced (store_given marks catalog.now BASE images.now.images))) }
    ensures settled { OnOk result (IsSynced D.Disk disk.new) }
    ensures torn { OnErr result (Takes D.Disk disk.old disk.new (ChangesOnly (store_given marks catalog.now BASE images.now.images))) }
    ensures crash { Leaves D.Disk disk.old disk.new (ChangesOnly (store_given marks catalog.now BASE images.now.images)) }
    ensures order { HeadComesLast D.Disk disk.old disk.new (images_given catalog.now BASE images.now.images) }
    ensures single { MakesAtMost D.Disk (len images.now.images + 2) disk.old disk.new }
    ensures cause { IsHonest D.Disk disk.old disk.new result }
{
    let Ok(()) = write_pages(disk, marks.pages, catalog, images) else {
        return Err(PageFault);
    };
    let head = padded_page(&encode(marks));
    let Ok(()) = write_page(disk, 0, &head) else {
        return Err(PageFault);
    };
    let Ok(()) = disk.sync() else {
        return Err(PageFault);
    };
    Ok(())
}

/// Writes each image at its page.
fn write_pages<D: Disk>(
    disk: &mut D,
    pages: u32,
    catalog: &Catalog,
    images: &Pages,
) -> Result<(), Failed>
    requires file { IfTold (D.content disk.old) (λ bytes. length bytes ≡ 4096 * pages) }
    requires images { AreWritable catalog.now BASE pages images.now.images }
    ensures ok { OnOk result (Takes D.Disk disk.old disk.new (IsReplaced (images_given catalog.now BASE images.now.images))) }
    ensures torn { OnErr result (Takes D.Disk disk.old disk.new (ChangesOnly (images_given catalog.now BASE images.now.images))) }
    ensures crash { Leaves D.Disk disk.old disk.new (ChangesOnly (images_given catalog.now BASE images.now.images)) }
    ensures single { MakesAtMost D.Disk (len images.now.images) disk.old disk.new }
    ensures cause { IsHonest D.Disk disk.old disk.new result }
{
    let mut start = 0;
    while let Some(page) = images.next(start) {
        let Some(image) = images.get(page) else {
            unreachable!()
        };
        let Ok(()) = write_image(disk, catalog, page, image) else {
            return Err(Failed);
        };
        start = page + 1;
    }
    Ok(())
}

/// Writes an image at a page.
fn write_image<D: Disk>(
    disk: &mut D,
    catalog: &Catalog,
    page: PageNo,
    image: &Image,
) -> Result<(), Failed>
    requires place { IfTold (D.content disk.old) (λ bytes. 4096 * page ≤ length bytes) }
    requires sound { IsSound catalog.now BASE 16384 image.now }
    ensures ok { OnOk result (Takes D.Disk disk.old disk.new (IsReplaced (only page (file_bytes catalog.now BASE image.now)))) }
    ensures torn { OnErr result (Takes D.Disk disk.old disk.new (ChangesOnly (only page (file_bytes catalog.now BASE image.now)))) }
    ensures crash { Leaves D.Disk disk.old disk.new (ChangesOnly (only page (file_bytes catalog.now BASE image.now))) }
    ensures single { MakesAtMost D.Disk 1 disk.old disk.new }
    ensures cause { IsHonest D.Disk disk.old disk.new result }
{
    let mut bytes = [0; PAGE_SIZE];
    image.to_file(catalog, &mut bytes);
    write_page(disk, page, &bytes)
}

/// Writes the bytes of a page.
fn write_page<D: Disk>(disk: &mut D, page: PageNo, bytes: &[u8; PAGE_SIZE]) -> Result<(), Failed>
    requires { IfTold (D.content disk.old) (λ old. 4096 * page ≤ length old) }
    ensures ok { OnOk result (Takes D.Disk disk.old disk.new (IsReplaced (only page bytes.now))) }
    ensures torn { OnErr result (Takes D.Disk disk.old disk.new (ChangesOnly (only page bytes.now))) }
    ensures crash { Leaves D.Disk disk.old disk.new (ChangesOnly (only page bytes.now)) }
    ensures single { MakesAtMost D.Disk 1 disk.old disk.new }
    ensures cause { IsHonest D.Disk disk.old disk.new result }
{
    match disk.write_at(4096 * u64::from(page), bytes) {
        Ok(()) => Ok(()),
        Err(failed) => Err(failed),
    }
}
