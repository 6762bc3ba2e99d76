//! The catalog, read from page 1.
ghost use Rattle.std.specs.Prelude.{◌≡◌, ◌+◌, ◌<◌, ◌≤◌, ◌^◌, length, take, IfErr, IsErrOf};
ghost use Rattle.pm3_disk.specs.Content.{IfTold};
ghost use Rattle.pm3_disk.specs.Devices.{HasFailed, HasNotFailed, OnlyReads};
ghost use Rattle.pm3_types.specs.PageOne.{padded};
ghost use Rattle.pm3_pagefile.specs.CatalogBytes as form;
ghost use Rattle.pm3_pagefile.specs.CatalogBytes.{IsReadAs};
ghost use Rattle.pm3_pagefile.specs.PageBytes.{page_at};

use crate::faults::CatalogReadFault;
use crate::padding::PAGE_SIZE;
use crate::transfer::read_page;
use pm3_disk::Disk;
use pm3_types::{Catalog, CatalogFault, u32_at};
use std::alloc::Global;

/// Reads the catalog of page 1. The offset of a damage is that of the first byte of the first field that departs from the
/// form or that the file hasn't whole.
pub fn read_catalog<D: Disk>(alloc: Global, disk: &mut D) -> Result<Catalog, CatalogReadFault>
    ensures read { IfTold (D.content disk.old) (λ bytes. IsReadAs (page_at 1 bytes) result) }
    ensures reads { OnlyReads D.Disk disk.old disk.new }
    ensures cause { IsErrOf result CatalogReadFault.PageFault → HasFailed D.Disk disk.old disk.new }
    ensures calm { ¬ IsErrOf result CatalogReadFault.PageFault → HasNotFailed D.Disk disk.old disk.new }
{
    let mut page = [0; PAGE_SIZE];
    let Ok(count) = read_page(disk, 1, &mut page) else {
        return Err(CatalogReadFault::PageFault);
    };
    decode(alloc, &page, count as u32)
}

/// The catalog of a page of which the file has so many bytes, with zeros behind them.
fn decode(alloc: Global, page: &[u8; PAGE_SIZE], count: u32) -> Result<Catalog, CatalogReadFault>
    requires bound { count ≤ 4096 }
    requires zeros { page.now ≡ padded 4096 (take count page.now) }
    ensures read { IsReadAs (take count page.now) result }
    ensures damage { IfErr result (λ fault. fault ≡ CatalogReadFault.PageFault → ⊥) }
{
    let whole = count as usize == PAGE_SIZE;
    let missing = catalog_field(u32_at(page, 0), count);
    match Catalog::decode(alloc, page) {
        Ok(catalog) if whole => Ok(catalog),
        Ok(_) => Err(damaged(missing)),
        Err(CatalogFault::Damaged { offset }) if whole => Err(damaged(offset)),
        Err(CatalogFault::Damaged { offset }) => Err(damaged(offset.min(missing))),
        Err(CatalogFault::Memory) => Err(CatalogReadFault::Memory),
    }
}

/// A damage at a byte of page 1.
fn damaged(at: u32) -> CatalogReadFault
    requires { at < 2 ^ 31 }
    ensures { result ≡ CatalogReadFault.Damaged (4096 + at) }
{
    CatalogReadFault::Damaged { offset: 4096 + at }
}

/// The first byte of the field of page 1 that has the byte `at`, where there are so many types.
#[tactic(auto, unfolding(crate::specs::CatalogBytes::catalog_field))]
fn catalog_field(types: u32, at: u32) -> u32
    requires { at ≤ 4096 }
    ensures field { result ≡ form.catalog_field types at }
    ensures before { result ≤ at }
{
    if at < 4 {
        return 0;
    }
    if at < 8 {
        return 4;
    }
    let behind = 8 + 8 * u64::from(types);
    if u64::from(at) >= behind {
        return behind as u32;
    }
    at - at % 8 + type_field(at % 8)
}

/// The first byte of the field that has the byte `at` of the eight of a type.
fn type_field(at: u32) -> u32
    requires { at < 8 }
    ensures field { result ≡ form.type_field at }
    ensures before { result ≤ at }
{
    match at {
        0 | 1 => at,
        2 | 3 => 2,
        _ => 4,
    }
}
