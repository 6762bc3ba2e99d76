//! Damaged and cut files, devices that fail, and images that go from one file to another.
ghost use Rattle.std.specs.Prelude.{◌≡◌, ◌<◌, ◌≤◌, IfOk};
ghost use Rattle.pm3_types.specs.PageForm.{IsSound};
ghost use Rattle.pm3_pagefile.specs.Writing.{AreWritable};

use crate::{
    CatalogReadFault, LoadFault, MarksFault, PageFault, format, load, read_catalog, read_marks,
    write_images,
};
use pm3_disk::{Disk, MemoryDisk};
use pm3_page::{BASE, Image, Marks, Pages};
use pm3_types::{Catalog, Memory, Tail, TypeMap};
use std::alloc::Global;
use std::process::Abort;
use std::test::Fail;

/// A disk with these bytes, whose calls with these numbers fail.
fn disk_of(alloc: Global, bytes: &[u8], fails: &[u32]) -> Result<MemoryDisk, Fail> {
    let content = Vec::from_slice(alloc, bytes)?;
    let fails = Vec::from_slice(alloc, fails)?;
    Ok(MemoryDisk::new(alloc, content, fails))
}

/// A catalog of nine types of one field, a reference, and a tail of bytes.
fn nine_types(alloc: Global) -> Result<Catalog, Fail> {
    let map = TypeMap::new(1, 1, Tail::Bytes).ok_or("one field, a reference")?;
    let mut catalog = Catalog::new(alloc);
    for _ in 0..9u32 {
        catalog.add(map)?;
    }
    Ok(catalog)
}

/// The bytes of a page file of 16 pages without objects.
fn new_file(alloc: Global, catalog: &Catalog) -> Result<Vec<u8>, Fail> {
    let mut disk = disk_of(alloc, b"", &[])?;
    format(&mut disk, 16, catalog)?;
    Ok(Vec::from_slice(alloc, disk.bytes())?)
}

/// A disk with these bytes, of which one is another.
fn changed(alloc: Global, bytes: &[u8], at: usize, value: u8) -> Result<MemoryDisk, Fail> {
    let mut bytes = Vec::from_slice(alloc, bytes)?;
    if let Some(byte) = bytes.get_mut(at) {
        *byte = value;
    }
    Ok(MemoryDisk::new(alloc, bytes, Vec::new(alloc)))
}

/// A disk with the first of these bytes.
fn cut(alloc: Global, bytes: &[u8], len: usize) -> Result<MemoryDisk, Fail> {
    let mut bytes = Vec::from_slice(alloc, bytes)?;
    bytes.truncate(len);
    Ok(MemoryDisk::new(alloc, bytes, Vec::new(alloc)))
}

/// Page 0 of the disk is damaged here.
fn expect_marks_damage(rt: &impl Abort, mut disk: MemoryDisk, offset: u32) {
    let wanted = Err(MarksFault::Damaged { offset });
    assert_eq!(rt; read_marks(&mut disk), wanted);
}

#[test]
fn damaged_marks_are_named(rt: HostRuntime) -> Result<(), Fail> {
    let alloc = rt.alloc();
    let bytes = new_file(alloc, &nine_types(alloc)?)?;
    for (at, value, offset) in [
        (0, b'Q', 0),
        (7, b'T', 0),
        (8, 2, 8),
        (12, 15, 12),
        (16, 2, 16),
        (16, 17, 16),
        (23, 1, 20),
        (24, 0, 24),
        (31, 64, 24),
        (32, 0, 32),
        (40, 1, 40),
        (4095, 1, 40),
    ] {
        expect_marks_damage(&rt, changed(alloc, &bytes, at, value)?, offset);
    }
    for (len, offset) in [
        (0, 0),
        (11, 8),
        (15, 12),
        (19, 16),
        (23, 20),
        (31, 24),
        (39, 32),
        (4095, 40),
    ] {
        expect_marks_damage(&rt, cut(alloc, &bytes, len)?, offset);
    }
    Ok(())
}

/// Page 1 of the disk is damaged here.
fn expect_catalog_damage(rt: &impl Abort, alloc: Global, mut disk: MemoryDisk, offset: u32) {
    let wanted = Some(CatalogReadFault::Damaged { offset });
    assert_eq!(rt; read_catalog(alloc, &mut disk).err(), wanted);
}

#[test]
fn damaged_catalogs_are_named(rt: HostRuntime) -> Result<(), Fail> {
    let alloc = rt.alloc();
    let bytes = new_file(alloc, &nine_types(alloc)?)?;
    for (at, value, offset) in [
        (4097, 2, 4096),
        (4100, 1, 4100),
        (4104, 33, 4104),
        (4105, 3, 4105),
        (4107, 1, 4106),
        (4120, 0, 4124),
        (4176, 1, 4176),
    ] {
        expect_catalog_damage(&rt, alloc, changed(alloc, &bytes, at, value)?, offset);
    }
    for (len, offset) in [
        (4096, 4096),
        (4103, 4100),
        (4104, 4104),
        (4105, 4105),
        (4107, 4106),
        (4110, 4108),
        (4180, 4176),
        (8191, 4176),
    ] {
        expect_catalog_damage(&rt, alloc, cut(alloc, &bytes, len)?, offset);
    }
    Ok(())
}

/// The fault that the loading of a page answers, if there is one.
fn loading(alloc: Global, mut disk: MemoryDisk, page: u32) -> Result<Option<LoadFault>, Fail>
    requires { (2 ≤ page) × (page < 16) }
{
    let catalog = nine_types(alloc)?;
    let mut reader = disk.reader()?;
    Ok(load(alloc, &mut reader, 16, &catalog, page).err())
}

#[test]
fn pages_that_are_not_whole_are_damaged(rt: HostRuntime) -> Result<(), Fail> {
    let alloc = rt.alloc();
    let bytes = new_file(alloc, &nine_types(alloc)?)?;
    for (len, word) in [
        (4096 * 4 + 20, 2),
        (4096 * 4, 0),
        (4096 * 5 - 1, 511),
        (100, 0),
    ] {
        let fault = loading(alloc, cut(alloc, &bytes, len)?, 4)?;
        assert_eq!(rt; fault, Some(LoadFault::Damaged { page: 4, word }));
    }
    assert_eq!(rt; loading(alloc, disk_of(alloc, &bytes, &[])?, 15)?, None);
    Ok(())
}

#[test]
fn devices_that_fail_are_named(rt: HostRuntime) -> Result<(), Fail> {
    let alloc = rt.alloc();
    let bytes = new_file(alloc, &nine_types(alloc)?)?;
    let mut disk = disk_of(alloc, &bytes, &[0, 1])?;
    assert_eq!(rt; read_marks(&mut disk), Err(MarksFault::PageFault));
    assert_eq!(rt;
        read_catalog(alloc, &mut disk).err(),
        Some(CatalogReadFault::PageFault)
    );
    assert_eq!(rt;
        loading(alloc, disk_of(alloc, &bytes, &[1])?, 3)?,
        Some(LoadFault::PageFault)
    );
    for call in [0, 1, 16, 17] {
        let mut disk = disk_of(alloc, b"", &[call])?;
        assert_eq!(rt; format(&mut disk, 16, &nine_types(alloc)?), Err(PageFault));
    }
    Ok(())
}

/// The bytes of a file whose page 4 has an object of type 8, with the name 1, a nil reference and a tail of five bytes.
fn object_file(alloc: Global, catalog: &Catalog) -> Result<Vec<u8>, Fail> {
    let mut bytes = new_file(alloc, catalog)?;
    for (at, value) in [
        (0, 4),
        (4, 6),
        (16, 8),
        (18, 5),
        (24, 1),
        (40, b'a'),
        (44, b'e'),
    ] {
        if let Some(byte) = bytes.get_mut(4096 * 4 + at) {
            *byte = value;
        }
    }
    Ok(bytes)
}

/// One image.
fn alone(alloc: Global, catalog: &Catalog, image: Image) -> Result<Pages, Memory>
    requires page { (2 ≤ image.page) × (image.page < 16) }
    requires sound { IsSound catalog.now BASE 16384 image }
    ensures { IfOk result (λ pages. AreWritable catalog.now BASE 16 pages.images) }
{
    let mut pages = Pages::new(alloc);
    pages.reserve(1)?;
    pages.put(image);
    Ok(pages)
}

/// The image of page 4 of a file.
fn page_4(alloc: Global, catalog: &Catalog, bytes: &[u8]) -> Result<Pages, Fail>
    ensures { IfOk result (λ pages. AreWritable catalog.now BASE 16 pages.images) }
{
    let mut disk = disk_of(alloc, bytes, &[])?;
    let mut reader = disk.reader()?;
    let image = load(alloc, &mut reader, 16_384, catalog, 4)?;
    let pages = alone(alloc, catalog, image)?;
    Ok(pages)
}

/// The marks that are written.
const MARKS: Marks = Marks {
    pages: 16,
    high_page: 5,
    next_name: 2,
    next_seq: 7,
};

/// The fault that a write of images answers, if there is one. The length is the disk's first call.
fn writing(disk: &mut MemoryDisk, catalog: &Catalog, images: &Pages) -> Option<PageFault>
    requires { AreWritable catalog.now BASE 16 images.now.images }
{
    let Ok(65_536) = disk.len() else {
        return None;
    };
    write_images(disk, MARKS, catalog, images).err()
}

#[test]
fn an_image_goes_from_file_to_file(rt: HostRuntime) -> Result<(), Fail> {
    let alloc = rt.alloc();
    let catalog = nine_types(alloc)?;
    let bytes = object_file(alloc, &catalog)?;
    let images = page_4(alloc, &catalog, &bytes)?;
    let empty = new_file(alloc, &catalog)?;
    for call in [1, 2, 3] {
        let mut disk = disk_of(alloc, &empty, &[call])?;
        assert_eq!(rt; writing(&mut disk, &catalog, &images), Some(PageFault));
    }
    let mut disk = disk_of(alloc, &empty, &[])?;
    assert_eq!(rt; writing(&mut disk, &catalog, &images), None);
    assert_eq!(rt; disk.bytes().get(4096..), bytes.get(4096..));
    assert_eq!(rt; read_marks(&mut disk), Ok(MARKS));
    assert_eq!(rt; read_catalog(alloc, &mut disk)?.len(), 9);
    Ok(())
}
