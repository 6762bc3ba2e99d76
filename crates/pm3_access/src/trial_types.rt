//! The types of objects under trial, and pages of a file.
ghost use Rattle.std.specs.Prelude.{◌≡◌, ◌≤◌, ◌+◌, true};
ghost use Rattle.pm3_types.specs.Layout.{tail_words};

use pm3_types::{Catalog, Tail, TypeMap, TypeNo};
use std::alloc::Global;
use std::test::Fail;

/// Two fields, the second a reference, and a tail of references.
pub(crate) const PART: TypeNo = 0;

/// One field, a reference, and a tail of bytes.
pub(crate) const CHUNK: TypeNo = 1;

pub(crate) fn two_types(alloc: Global) -> Result<Catalog, Fail> {
    let part = TypeMap::new(2, 2, Tail::Refs).ok_or("two fields")?;
    let chunk = TypeMap::new(1, 1, Tail::Bytes).ok_or("one field")?;
    let mut catalog = Catalog::new(alloc);
    catalog.add(part)?;
    catalog.add(chunk)?;
    Ok(catalog)
}

/// The words of a tail of so many references or bytes.
fn words_of_tail(tail: Tail, len: u32) -> u64
    ensures { result ≡ tail_words tail len }
{
    match tail {
        Tail::Empty => 0,
        Tail::Refs => u64::from(len),
        Tail::Bytes => (u64::from(len) + 7) / 8,
    }
}

/// Whether an object of this type with a tail of this length fits on a page.
pub(crate) fn is_small(map: TypeMap, tail: u32) -> bool
    ensures { result ≡ true → 2 + map.count + tail_words map.tail tail ≤ 510 }
{
    2 + u64::from(map.count) + words_of_tail(map.tail, tail) <= 510
}
