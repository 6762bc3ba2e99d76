//! The places of an object's body.
ghost use Rattle.std.specs.Prelude.{◌≡◌, ◌+◌, ◌^◌, ◌<◌, ◌≤◌};
ghost use Rattle.pm3_types.specs.Fields.{is_reference};
ghost use Rattle.pm3_types.specs.Shown.{byte_in};
ghost use Rattle.oo7_dump.specs.Places.{is_place, places_of};

use pm3_types::{Tail, TypeMap};

/// The places of an object in which references may stand: its fields, and behind them the references of its tail.
pub(crate) fn places_of(map: TypeMap, tail: u32) -> u32
    requires { places_of map tail < 2 ^ 32 }
    ensures { result ≡ places_of map tail }
{
    let fields = u32::from(map.count);
    if map.tail == Tail::Refs {
        fields + tail
    } else {
        fields
    }
}

/// Whether one of these places has a reference.
pub(crate) fn is_place(map: TypeMap, place: u32) -> bool
    ensures { result ≡ is_place map place }
{
    place >= u32::from(map.count) || is_reference_field(map, place)
}

/// Whether a field of the type is a reference.
#[tactic(auto, unfolding(pm3_types::specs::Fields::is_reference))]
pub(crate) fn is_reference_field(map: TypeMap, field: u32) -> bool
    requires { field < map.count }
    ensures { result ≡ is_reference map field }
{
    map.refs >> field & 1 == 1
}

/// A byte of a word, the lowest first.
#[tactic(auto, unfolding(pm3_types::specs::Shown::byte_in))]
pub(crate) fn byte_of(word: u64, place: u32) -> u8
    requires { place < 8 }
    ensures { result ≡ byte_in word place }
{
    ((word >> (8 * place)) % 256) as u8
}
