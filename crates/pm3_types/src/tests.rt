//! Calls that succeed with ample memory, and values taken from the description of the format.
use super::*;
use std::test::Fail;

#[test]
fn maps_have_at_most_32_fields_and_no_bit_past_them(rt: HostRuntime) {
    assert_eq!(rt; TypeMap::new(33, 0, Tail::Empty), None);
    assert_eq!(rt; TypeMap::new(1, 2, Tail::Empty), None);
    assert_eq!(rt; TypeMap::new(0, 1, Tail::Bytes), None);
    assert!(rt; TypeMap::new(0, 0, Tail::Bytes).is_some());
    assert!(rt; TypeMap::new(32, 0xffff_ffff, Tail::Refs).is_some());
}

#[test]
fn a_field_that_is_cut_or_out_of_its_bounds_departs(rt: HostRuntime) {
    let mut bytes = [9, 0, 1, 0, 0, 0, 0, 0, 0, 0, 7];
    assert_eq!(rt; u32_field(&bytes, 1, 256, 256), Some(256));
    assert_eq!(rt; u32_field(&bytes, 1, 257, 300), None);
    assert_eq!(rt; u32_field(&bytes, 8, 0, u32::MAX), None);
    assert_eq!(rt; u64_field(&bytes, 3, 0, 7 << 56), Some(7 << 56));
    assert_eq!(rt; u64_field(&bytes, 3, 0, 7), None);
    assert!(rt; has_zeros(&bytes, 3, 7));
    assert!(rt; !has_zeros(&bytes, 3, 8));
    assert!(rt; !has_zeros(&bytes, 9, 3));
    put(&mut bytes, 9, &[5, 6]);
    assert_eq!(rt; &bytes[8..], [0, 5, 6].as_slice());
}

#[test]
fn a_catalog_is_full_at_256_types(rt: HostRuntime) -> Result<(), Fail> {
    let map = TypeMap::new(2, 1, Tail::Refs).ok_or("two fields, the first a reference")?;
    let mut catalog = Catalog::new(rt.alloc());
    assert!(rt; catalog.is_empty());
    for number in 0..256 {
        assert_eq!(rt; catalog.add(map)?, number);
    }
    assert_eq!(rt; catalog.add(map), Err(AddFault::Full { limit: 256 }));
    assert_eq!(rt; catalog.len(), 256);
    assert_eq!(rt; catalog.get(255), Some(map));
    assert_eq!(rt; catalog.get(256), None);
    Ok(())
}

#[test]
fn page_1_has_the_count_and_eight_bytes_for_each_type(rt: HostRuntime) -> Result<(), Fail> {
    let map = TypeMap::new(9, 0x102, Tail::Bytes).ok_or(
        "nine fields, the second and the last references",
    )?;
    let mut catalog = Catalog::new(rt.alloc());
    let mut page = [7; 4096];
    catalog.encode_into(&mut page);
    assert_eq!(rt; page, [0; 4096]);
    assert_eq!(rt; catalog.add(map)?, 0);
    catalog.encode_into(&mut page);
    assert_eq!(rt;
        &page[..16],
        [1, 0, 0, 0, 0, 0, 0, 0, 9, 2, 0, 0, 2, 1, 0, 0].as_slice()
    );
    assert_eq!(rt; &page[16..], [0; 4080].as_slice());
    Ok(())
}

/// One byte of the page of two types that is changed, its new value, and the first byte of the field that then departs.
const SPOILED: [(usize, u8, u32); 10] = [
    (1, 1, 0),
    (5, 1, 4),
    (8, 33, 8),
    (9, 3, 9),
    (11, 1, 10),
    (12, 4, 12),
    (16, 30, 20),
    (17, 255, 17),
    (24, 1, 24),
    (4095, 1, 24),
];

#[test]
fn a_page_is_read_back_or_its_first_departure_named(rt: HostRuntime) -> Result<(), Fail> {
    let mut catalog = Catalog::new(rt.alloc());
    catalog.add(TypeMap::new(2, 2, Tail::Refs).ok_or("two fields")?)?;
    catalog.add(TypeMap::new(31, 0x4000_0001, Tail::Empty).ok_or("31 fields")?)?;
    let mut page = [0; 4096];
    catalog.encode_into(&mut page);

    let read = Catalog::decode(rt.alloc(), &page)?;
    assert_eq!(rt; read.len(), 2);
    assert_eq!(rt; read.get(0), catalog.get(0));
    assert_eq!(rt; read.get(1), catalog.get(1));

    for (at, byte, offset) in SPOILED {
        assert!(rt; at < 4096);
        let mut spoiled = page;
        spoiled[at] = byte;
        let fault = Catalog::decode(rt.alloc(), &spoiled).err();
        assert_eq!(rt; fault, Some(CatalogFault::Damaged { offset }), "byte {at}");
    }
    dumps();
    numberings();
    pages();
    reached_names();
    Ok(())
}
