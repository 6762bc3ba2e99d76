//! The page file of a store without objects.
ghost use Rattle.std.specs.Prelude.{◌≡◌, ◌+◌, ◌*◌, ◌-◌, ◌≤◌, [], ◌++◌, length, option_map, OnOk};
ghost use Rattle.pm3_disk.specs.Content.{Anything, IfTold};
ghost use Rattle.pm3_disk.specs.Devices.{IsHonest, IsSynced, MakesAtMost, Takes};
ghost use Rattle.pm3_types.specs.PageOne.{zeros};
ghost use Rattle.pm3_pagefile.specs.EmptyFile.{first_marks, page_file};

use crate::faults::PageFault;
use crate::head::encode;
use crate::padding::{PAGE_SIZE, padded_page};
use pm3_disk::{Disk, Failed};
use pm3_page::Marks;
use pm3_types::Catalog;

/// Writes the page file of a store without objects over what is there, and syncs it. A stop or a fault within the call may
/// leave a file that no call of this crate reads.
pub fn format<D: Disk>(disk: &mut D, pages: u32, catalog: &Catalog) -> Result<(), PageFault>
    requires few { 16 ≤ pages }
    requires most { pages ≤ 16384 }
    ensures ok { OnOk result (D.content disk.new ≡ option_map (λ _. page_file pages catalog.now) (D.content disk.old)) }
    ensures settled { OnOk result (IsSynced D.Disk disk.new) }
    ensures told { Takes D.Disk disk.old disk.new Anything }
    ensures single { MakesAtMost D.Disk (pages + 2) disk.old disk.new }
    ensures cause { IsHonest D.Disk disk.old disk.new result }
{
    let mut catalog_page = [0; PAGE_SIZE];
    catalog.encode_into(&mut catalog_page);
    empty(disk)?;
    append(disk, 0, &padded_page(&encode(marks_of(pages))))?;
    append(disk, 1, &catalog_page)?;
    append(disk, 2, &padded_page(&ROOTS))?;
    append_free(disk, pages)?;
    disk.sync()?;
    Ok(())
}

/// The first word of the page of the roots: page 2, and 18 words in use.
const ROOTS: [u8; 8] = [2, 0, 0, 0, 18, 0, 0, 0];

/// The marks of a store in which nothing was given out.
fn marks_of(pages: u32) -> Marks
    ensures { result ≡ first_marks pages }
{
    Marks {
        pages,
        high_page: 3,
        next_name: 1,
        next_seq: 1,
    }
}

/// Takes every byte away.
fn empty<D: Disk>(disk: &mut D) -> Result<(), Failed>
    ensures ok { OnOk result (D.content disk.new ≡ option_map (λ _. []) (D.content disk.old)) }
    ensures len { OnOk result (IfTold (D.content disk.new) (λ bytes. length bytes ≡ 0)) }
    ensures told { Takes D.Disk disk.old disk.new Anything }
    ensures single { MakesAtMost D.Disk 1 disk.old disk.new }
    ensures cause { IsHonest D.Disk disk.old disk.new result }
{
    disk.cut(0)
}

/// Writes a page behind the `count` pages that are there.
fn append<D: Disk>(disk: &mut D, count: u32, page: &[u8; PAGE_SIZE]) -> Result<(), Failed>
    requires { IfTold (D.content disk.old) (λ bytes. length bytes ≡ 4096 * count) }
    ensures ok { OnOk result (D.content disk.new ≡ option_map (λ bytes. bytes ++ page.now) (D.content disk.old)) }
    ensures len { OnOk result (IfTold (D.content disk.new) (λ bytes. length bytes ≡ 4096 * (count + 1))) }
    ensures told { Takes D.Disk disk.old disk.new Anything }
    ensures single { MakesAtMost D.Disk 1 disk.old disk.new }
    ensures cause { IsHonest D.Disk disk.old disk.new result }
{
    disk.write_at(u64::from(count) * 4096, page)
}

/// Writes free pages behind the first three, up to `pages` in all.
fn append_free<D: Disk>(disk: &mut D, pages: u32) -> Result<(), Failed>
    requires few { 3 ≤ pages }
    requires three { IfTold (D.content disk.old) (λ bytes. length bytes ≡ 4096 * 3) }
    ensures ok { OnOk result (D.content disk.new ≡ option_map (λ bytes. bytes ++ zeros (4096 * (pages - 3))) (D.content disk.old)) }
    ensures told { Takes D.Disk disk.old disk.new Anything }
    ensures single { MakesAtMost D.Disk (pages - 3) disk.old disk.new }
    ensures cause { IsHonest D.Disk disk.old disk.new result }
{
    let free = [0; PAGE_SIZE];
    for number in 3..pages {
        append(disk, number, &free)?;
    }
    Ok(())
}
