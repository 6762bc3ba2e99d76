//! The lines of a dump.
ghost use Rattle.std.specs.Prelude.{◌≡◌, ◌+◌, ◌*◌, ◌/◌, ◌%◌, ◌≤◌, ◌++◌, true, false, cond, codes, slice_get, slice_index, Some, OnOk};
ghost use Rattle.std.specs.Fmt.{decimal};
ghost use Rattle.std.specs.List.{flat_map};
ghost use Rattle.pm3_core.specs.declared.naming.TheConstants.{BASE};
ghost use Rattle.pm3_types.specs.Dump.{byte_text, fields_text, name_text, parts_text, record_text, root_lines, tail_text};
ghost use Rattle.pm3_types.specs.Layout.{begins_at, head_at, is_forwarded, tail_in, tail_words, type_in, word_in};
ghost use Rattle.pm3_types.specs.Shown.{byte_in, list_of};
ghost use Rattle.pm3_types.specs.Whole.{IsWhole};
ghost use Rattle.oo7_dump.specs.Raw.{raw_fields, raw_items, raw_record};

use crate::met::Met;
use crate::object::is_reference_field;
use crate::text::Text;
use pm3_page::{Addr, Image};
use pm3_types::{Catalog, Memory, Tail, TypeMap};

/// Adds a line for each of these root slots.
pub(crate) fn put_roots(text: &mut Text, met: &Met, roots: &[Addr]) -> Result<(), Memory>
    ensures { OnOk result (text.new ≡ text.old ++ root_lines met.now 0 roots.now) }
{
    for (slot, at) in roots.iter().enumerate() {
        put_root(text, met, slot as u64, *at)?;
    }
    Ok(())
}

/// Adds the line of a root slot.
fn put_root(text: &mut Text, met: &Met, slot: u64, at: Addr) -> Result<(), Memory>
    ensures { OnOk result (text.new ≡ text.old ++ (codes "root " ++ decimal slot ++ codes " " ++ name_text met.now at ++ codes "\n")) }
{
    text.put(b"root ")?;
    text.put_number(slot)?;
    text.put(b" ")?;
    text.put_name(met, at)?;
    text.put(b"\n")
}

/// Adds the line of an object that has a number.
pub(crate) fn put_object(
    text: &mut Text,
    met: &Met,
    catalog: &Catalog,
    number: u64,
    image: &Image,
    at: Addr,
) -> Result<(), Memory>
    requires begins { begins_at BASE image.now at ≡ true }
    requires whole { IsWhole catalog.now image.now.sheet (word_in BASE at) }
    ensures { OnOk result (text.new ≡ text.old ++ (decimal number ++ codes " " ++ record_text catalog.now met.now (Some (raw_record catalog.now image.now.sheet.words (word_in BASE at))) ++ codes "\n")) }
{
    text.put_number(number)?;
    text.put(b" ")?;
    text.put_number(u64::from(image.type_of(at)))?;
    put_parts(text, met, catalog, image, at)?;
    text.put(b"\n")
}

/// Adds the fields and the tail of an object.
fn put_parts(
    text: &mut Text,
    met: &Met,
    catalog: &Catalog,
    image: &Image,
    at: Addr,
) -> Result<(), Memory>
    requires begins { begins_at BASE image.now at ≡ true }
    requires whole { IsWhole catalog.now image.now.sheet (word_in BASE at) }
    ensures { OnOk result (text.new ≡ text.old ++ parts_text met.now (slice_get catalog.now (type_in (head_at BASE image.now at))) (raw_record catalog.now image.now.sheet.words (word_in BASE at))) }
{
    let Some(map) = catalog.get(image.type_of(at)) else {
        unreachable!()
    };
    put_fields(text, met, map, image, at)?;
    put_tail(text, met, map, image, at)
}

/// Adds the values of the fields of an object.
fn put_fields(
    text: &mut Text,
    met: &Met,
    map: TypeMap,
    image: &Image,
    at: Addr,
) -> Result<(), Memory>
    requires begins { begins_at BASE image.now at ≡ true }
    requires within { word_in BASE at + 2 + map.count ≤ 512 }
    ensures { OnOk result (text.new ≡ text.old ++ fields_text met.now map 0 (raw_fields (Some map) image.now.sheet.words (word_in BASE at))) }
{
    for field in 0..u32::from(map.count) {
        let is_reference = is_reference_field(map, field);
        put_field(text, met, is_reference, image.field(at, field))?;
    }
    Ok(())
}

/// Adds the value of a field.
fn put_field(text: &mut Text, met: &Met, is_reference: bool, value: u64) -> Result<(), Memory>
    ensures { OnOk result (text.new ≡ text.old ++ (codes " " ++ cond is_reference (codes "@" ++ name_text met.now value) (decimal value))) }
{
    if is_reference {
        text.put(b" @")?;
        text.put_name(met, value)
    } else {
        text.put(b" ")?;
        text.put_number(value)
    }
}

/// Adds the references or bytes of the tail of an object.
fn put_tail(text: &mut Text, met: &Met, map: TypeMap, image: &Image, at: Addr) -> Result<(), Memory>
    requires begins { begins_at BASE image.now at ≡ true }
    requires unmoved { is_forwarded (head_at BASE image.now at) ≡ false }
    requires within { word_in BASE at + 2 + map.count + tail_words map.tail (tail_in (head_at BASE image.now at)) ≤ 512 }
    ensures { OnOk result (text.new ≡ text.old ++ tail_text met.now map.tail (raw_items map.tail image.now.sheet.words (word_in BASE at + 2 + map.count) (tail_in (head_at BASE image.now at)))) }
{
    let from = u32::from(map.count);
    match map.tail {
        Tail::Empty => Ok(()),
        Tail::Refs => put_references(text, met, image, at, from, image.tail_len(at)),
        Tail::Bytes => put_bytes(text, image, at, from, image.tail_len(at)),
    }
}

/// Adds so many references of an object, from a place of its body on.
fn put_references(
    text: &mut Text,
    met: &Met,
    image: &Image,
    at: Addr,
    from: u32,
    count: u32,
) -> Result<(), Memory>
    requires begins { begins_at BASE image.now at ≡ true }
    requires within { word_in BASE at + 2 + from + count ≤ 512 }
    ensures { OnOk result (text.new ≡ text.old ++ (codes " *" ++ flat_map (λ n. codes " @" ++ name_text met.now n) (list_of count (λ k. slice_index image.now.sheet.words (word_in BASE at + 2 + from + k))))) }
{
    text.put(b" *")?;
    for place in 0..count {
        put_reference(text, met, image.field(at, from + place))?;
    }
    Ok(())
}

/// Adds a reference of a tail.
fn put_reference(text: &mut Text, met: &Met, item: Addr) -> Result<(), Memory>
    ensures { OnOk result (text.new ≡ text.old ++ (codes " @" ++ name_text met.now item)) }
{
    text.put(b" @")?;
    text.put_name(met, item)
}

/// Adds so many bytes of an object, from a place of its body on.
fn put_bytes(text: &mut Text, image: &Image, at: Addr, from: u32, count: u32) -> Result<(), Memory>
    requires begins { begins_at BASE image.now at ≡ true }
    requires within { word_in BASE at + 2 + from + (count + 7) / 8 ≤ 512 }
    ensures { OnOk result (text.new ≡ text.old ++ (codes " #" ++ flat_map byte_text (list_of count (λ k. byte_in (slice_index image.now.sheet.words (word_in BASE at + 2 + from + k / 8)) (k % 8))))) }
{
    text.put(b" #")?;
    put_words(text, image, at, from, count / 8)?;
    let rest = count % 8;
    if rest == 0 {
        return Ok(());
    }
    text.put_part(image.field(at, from + count / 8), rest)
}

/// Adds the bytes of so many words of an object, from a place of its body on.
fn put_words(text: &mut Text, image: &Image, at: Addr, from: u32, count: u32) -> Result<(), Memory>
    requires begins { begins_at BASE image.now at ≡ true }
    requires within { word_in BASE at + 2 + from + count ≤ 512 }
    ensures { OnOk result (text.new ≡ text.old ++ flat_map byte_text (list_of (8 * count) (λ k. byte_in (slice_index image.now.sheet.words (word_in BASE at + 2 + from + k / 8)) (k % 8)))) }
{
    for place in 0..count {
        text.put_word(image.field(at, from + place))?;
    }
    Ok(())
}
