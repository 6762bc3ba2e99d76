//! The parts of heads, the first words of objects and pages.
ghost use Rattle.std.specs.Prelude.{◌≡◌, ◌↔◌, ◌+◌, ◌<◌, ◌≤◌, ◌^◌, false, IsNone};
ghost use Rattle.pm3_types.specs.Layout.{type_in, tail_in, head_of, tail_words, page_head, used_in, end_by, is_forwarded, forwarding, forwarded_to};

use crate::addresses::{Addr, PageNo};
use pm3_types::{Tail, TypeMap, TypeNo};

/// The bit of a head that says that the object was forwarded.
const FORWARDED: u64 = 1 << 63;

/// The type in an object's head.
#[tactic(auto, unfolding(pm3_types::specs::Layout::type_in))]
pub(crate) fn type_part(head: u64) -> TypeNo
    ensures { result ≡ type_in head }
{
    (head % 65536) as TypeNo
}

/// The length of the tail in an object's head.
#[tactic(auto, unfolding(pm3_types::specs::Layout::tail_in))]
pub(crate) fn tail_part(head: u64) -> u32
    ensures { result ≡ tail_in head }
{
    (head / 65536 % 4_294_967_296) as u32
}

/// The head of an object.
#[tactic(auto, unfolding(pm3_types::specs::Layout::head_of))]
pub(crate) fn object_head(ty: TypeNo, tail: u32) -> u64
    ensures { result ≡ head_of ty tail }
{
    u64::from(ty) + 65536 * u64::from(tail)
}

/// The new address in the head of a forwarded object, or None exactly where it was not forwarded.
#[tactic(auto, unfolding(pm3_types::specs::Layout::is_forwarded, pm3_types::specs::Layout::forwarded_to))]
pub(crate) fn forward_part(head: u64) -> Option<Addr>
    ensures to { result ≡ forwarded_to head }
    ensures unmoved { IsNone result ↔ (is_forwarded head ≡ false) }
{
    if head >= FORWARDED {
        Some(head - FORWARDED)
    } else {
        None
    }
}

/// The head of an object that was forwarded to this address.
pub(crate) fn forward_head(to: Addr) -> u64
    requires { to < 2 ^ 63 }
    ensures { result ≡ forwarding to }
{
    FORWARDED + to
}

/// The number of words in use, in the first word of a page.
#[tactic(auto, unfolding(pm3_types::specs::Layout::used_in))]
pub(crate) fn used_part(word: u64) -> u64
    ensures used { result ≡ used_in word }
    ensures low { result < 2 ^ 32 }
{
    word / 4_294_967_296
}

/// The word behind the last object, from the first word of a page.
pub(crate) fn end_part(word: u64) -> u64
    ensures end { result ≡ end_by (used_in word) }
    ensures low { result < 2 ^ 32 }
{
    let used = used_part(word);
    if used == 0 { 2 } else { used }
}

/// The first word of a page.
#[tactic(auto, unfolding(pm3_types::specs::Layout::page_head))]
pub(crate) fn first_word(page: PageNo, used: u32) -> u64
    ensures { result ≡ page_head page used }
{
    u64::from(page) + 4_294_967_296 * u64::from(used)
}

/// The words that the tail of an object takes.
pub(crate) fn tail_size(tail: Tail, len: u32) -> u64
    ensures words { result ≡ tail_words tail len }
    ensures low { result < 2 ^ 33 }
{
    match tail {
        Tail::Empty => 0,
        Tail::Refs => u64::from(len),
        Tail::Bytes => (u64::from(len) + 7) / 8,
    }
}

/// The words of an object of a type that the catalog has: its head, its name, its fields and its tail.
pub(crate) fn object_size(map: TypeMap, tail: u32) -> u64
    ensures size { result ≡ 2 + map.count + tail_words map.tail tail }
    ensures bounds { (2 ≤ result) × (result < 2 ^ 34) }
{
    2 + u64::from(map.count) + tail_size(map.tail, tail)
}
