//! The bytes of page 1: the number of types, then eight bytes for each type, then zeros.
ghost use Rattle.std.specs.Prelude.{◌≡◌, ◌≤◌, length, None, IfOk, OnOk, IfErr};
ghost use Rattle.std.specs.Int.{w32};
ghost use Rattle.pm3_types.specs.Bytes.{number_at};
ghost use Rattle.pm3_types.specs.PageOne.{catalog_head, catalog_page, map_bytes, maps_bytes, padded};
ghost use Rattle.pm3_types.specs.CatalogForm.{departure, head_departure, maps_departure, map_departure, IsCauseOf};

use crate::bytes::{is_zero, put, u32_at};
use crate::catalogs::CatalogFault;
use crate::type_map::{MOST_FIELDS, Tail, TypeMap};
use arrayvec::ArrayVec;

/// The most types that a catalog may have.
pub(crate) const MOST_TYPES: usize = 256;

/// Writes the bytes of page 1 for these maps.
pub(crate) fn encode(maps: &[TypeMap], out: &mut [u8])
    requires page { length out.old ≡ 4096 }
    requires few { length maps.now ≤ 256 }
    ensures { out.new ≡ catalog_page maps.now }
{
    write_head(out, maps.len() as u32);
    for (i, map) in maps.iter().enumerate() {
        let entry = to_bytes(*map);
        put(out, 8 + 8 * i, &entry);
    }
}

/// Writes the head of page 1 and zeros behind it.
fn write_head(out: &mut [u8], count: u32)
    requires { length out.old ≡ 4096 }
    ensures { out.new ≡ padded 4096 (catalog_head count) }
{
    out.fill(0);
    let [a, b, c, d] = count.to_le_bytes();
    put(out, 0, &[a, b, c, d, 0, 0, 0, 0]);
}

/// The eight bytes of a type.
fn to_bytes(map: TypeMap) -> [u8; 8]
    ensures { result ≡ map_bytes map }
{
    let [a, b, c, d] = map.refs.to_le_bytes();
    [map.count, map.tail.code(), 0, 0, a, b, c, d]
}

/// The maps whose page 1 this is.
pub(crate) fn decode(bytes: &[u8]) -> Result<ArrayVec<TypeMap, MOST_TYPES>, CatalogFault>
    requires { length bytes.now ≡ 4096 }
    ensures same { IfOk result (λ maps. bytes.now ≡ catalog_page maps.items) }
    ensures sound { OnOk result (departure bytes.now ≡ None) }
    ensures fault { IfErr result (λ fault. IsCauseOf (departure bytes.now) fault) }
{
    let (head, rest) = bytes.split_at(8);
    let count = read_head(head)?;
    let maps = read_maps(count, rest)?;
    Ok(maps)
}

/// The number of types that the first eight bytes give.
fn read_head(head: &[u8]) -> Result<u32, CatalogFault>
    requires { length head.now ≡ 8 }
    ensures sound { OnOk result (head_departure head.now ≡ None) }
    ensures value { IfOk result (λ count. count ≡ number_at w32 0 head.now) }
    ensures few { IfOk result (λ count. count ≤ 256) }
    ensures same { IfOk result (λ count. head.now ≡ catalog_head count) }
    ensures fault { IfErr result (λ fault. IsCauseOf (head_departure head.now) fault) }
{
    let count = u32_at(head, 0);
    if count > MOST_TYPES as u32 {
        return Err(CatalogFault::Damaged { offset: 0 });
    }
    let (_, gap) = head.split_at(4);
    if !is_zero(gap) {
        return Err(CatalogFault::Damaged { offset: 4 });
    }
    Ok(count)
}

/// So many maps, from the bytes behind the head.
fn read_maps(count: u32, bytes: &[u8]) -> Result<ArrayVec<TypeMap, MOST_TYPES>, CatalogFault>
    requires page { length bytes.now ≡ 4088 }
    requires few { count ≤ 256 }
    ensures count { IfOk result (λ maps. length maps.items ≡ count) }
    ensures same { IfOk result (λ maps. bytes.now ≡ padded 4088 (maps_bytes maps.items)) }
    ensures sound { OnOk result (maps_departure count 8 bytes.now ≡ None) }
    ensures fault { IfErr result (λ fault. IsCauseOf (maps_departure count 8 bytes.now) fault) }
{
    let mut maps: ArrayVec<TypeMap, MOST_TYPES> = ArrayVec::new();
    let mut rest = bytes;
    for i in 0..count {
        let (entry, behind) = rest.split_at(8);
        let map = match read_map(entry, 8 + 8 * i) {
            Ok(map) => map,
            Err(fault) => return Err(fault),
        };
        maps.push(map);
        rest = behind;
    }
    if !is_zero(rest) {
        return Err(CatalogFault::Damaged {
            offset: 8 + 8 * count,
        });
    }
    Ok(maps)
}

/// The map of eight bytes, which begin at byte `at` of the page.
fn read_map(entry: &[u8], at: u32) -> Result<TypeMap, CatalogFault>
    requires eight { length entry.now ≡ 8 }
    requires near { at ≤ 4088 }
    ensures same { IfOk result (λ map. entry.now ≡ map_bytes map) }
    ensures sound { OnOk result (map_departure at entry.now ≡ None) }
    ensures fault { IfErr result (λ fault. IsCauseOf (map_departure at entry.now) fault) }
{
    let count = entry[0];
    if count > MOST_FIELDS {
        return Err(CatalogFault::Damaged { offset: at });
    }
    let Some(tail) = Tail::from_code(entry[1]) else {
        return Err(CatalogFault::Damaged { offset: at + 1 });
    };
    if entry[2] != 0 || entry[3] != 0 {
        return Err(CatalogFault::Damaged { offset: at + 2 });
    }
    let Some(map) = TypeMap::new(count, u32_at(entry, 4), tail) else {
        return Err(CatalogFault::Damaged { offset: at + 4 });
    };
    Ok(map)
}
