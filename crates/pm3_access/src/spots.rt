//! Where the places of an object lie in its words.
ghost use Rattle.std.specs.Prelude.{◌≡◌, ◌+◌, ◌<◌, ◌≤◌, IfSome};
ghost use Rattle.pm3_types.specs.Layout.{tail_words};
ghost use Rattle.pm3_access.specs.Spots.{spot_by, word_of, IsByteOfWord, byte_of, with_byte};

use crate::places::Place;
use pm3_types::{Tail, TypeMap};

/// Where a place lies in the body of an object: a word, or a byte of a word, the lowest first.
#[derive(Clone, Copy, Debug)]
pub(crate) enum Spot {
    Word(u32),
    ByteOf(u32, u32),
}

/// Where a place lies in an object with this map and a tail of this length.
pub(crate) fn find(map: TypeMap, len: u32, place: Place) -> Option<Spot>
    requires { map.count + tail_words map.tail len ≤ 510 }
    ensures spot { result ≡ spot_by map len place }
    ensures within { IfSome result (λ spot. word_of spot < map.count + tail_words map.tail len) }
    ensures byte { IfSome result IsByteOfWord }
{
    let fields = u32::from(map.count);
    match place {
        Place::Field(f) => {
            if f < fields {
                Some(Spot::Word(f))
            } else {
                None
            }
        }
        Place::Tail(k) => {
            if map.tail == Tail::Refs && k < len {
                Some(Spot::Word(fields + k))
            } else {
                None
            }
        }
        Place::Byte(k) => {
            if map.tail == Tail::Bytes && k < len {
                Some(Spot::ByteOf(fields + k / 8, k % 8))
            } else {
                None
            }
        }
    }
}

/// A byte of a word, the lowest first.
#[tactic(auto, unfolding(crate::specs::Spots::byte_of))]
pub(crate) fn byte(word: u64, at: u32) -> u64
    requires { at < 8 }
    ensures { result ≡ byte_of word at }
{
    u64::from(word.to_le_bytes()[at as usize])
}

/// The word with another byte.
#[tactic(auto, unfolding(crate::specs::Spots::with_byte))]
pub(crate) fn set_byte(word: u64, at: u32, value: u64) -> u64
    requires at { at < 8 }
    requires byte { value < 256 }
    ensures { result ≡ with_byte word at value }
{
    let mut bytes = word.to_le_bytes();
    bytes[at as usize] = value as u8;
    u64::from_le_bytes(bytes)
}
