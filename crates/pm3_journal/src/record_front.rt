//! The front of a record, and the bytes before an image in it: each field once, as it is written and as it is read.
ghost use Rattle.std.specs.Prelude.{◌≡◌, ◌+◌, ◌*◌, ◌^◌, ◌<◌, ◌≤◌, ◌∷◌, ◌++◌, true, [], length, Option, Some, None, IfSome};
ghost use Rattle.std.specs.Int.{w32, to_le_bytes};
ghost use Rattle.pm3_types.specs.Bytes.{number_at};
ghost use Rattle.pm3_journal.specs.Entered.{record_of};
ghost use Rattle.pm3_journal.specs.Format.{body, parts_bytes};
ghost use Rattle.pm3_journal.specs.Reading.{next_seq};
ghost use Rattle.pm3_journal.specs.RecordFront.{front_departure, high_of, is_due, name_of, number_of, part_departure, stands, summary_with};

use crate::entry::Entry;
use crate::sizes::{FRONT_SIZE, PART_SIZE};
use crate::summary::Summary;
use pm3_types::{has_zeros, u32_at, u32_field, u64_at, u64_field};

/// The greatest next name.
const MOST_NAMES: u64 = 1 << 62;

/// The bytes of a record between its gate and its pages.
#[tactic(auto, unfolding(crate::specs::Format::body))]
pub(crate) fn encode(seq: u64, entry: &Entry) -> [u8; 47]
    requires { length entry.now.pages.items < 2 ^ 32 }
    ensures { result ++ parts_bytes (record_of seq entry.now).parts ≡ body (record_of seq entry.now) }
{
    let [a, b, c, d, e, f, g, h] = seq.to_le_bytes();
    let [i, j, k, l, m, n, o, p] = entry.next_name.to_le_bytes();
    let tag = entry.tag.to_le_bytes();
    let number = (entry.pages.len() as u32).to_le_bytes();
    let high = entry.high_page.to_le_bytes();
    let pins = entry.pins.to_le_bytes();
    let moved = entry.moved.to_le_bytes();
    [
        0, 0, 0, 0, 0, 0, 0, // 1: zeros behind the gate
        a, b, c, d, e, f, g, h, // 8: the sequence number
        i, j, k, l, m, n, o, p, // 16: the next name
        tag[0], tag[1], tag[2], tag[3], // 24: the tag
        number[0], number[1], number[2], number[3], // 28: how many pages
        high[0], high[1], high[2], high[3], // 32: the high page
        pins[0], pins[1], pins[2], pins[3], // 36: how many pages were pinned
        moved[0], moved[1], moved[2], moved[3], // 40: how many objects were moved
        0, 0, 0, 0, // 44: zeros
    ]
}

/// Whether a record of the list stands where so many bytes are left. Its number must be the one after that of the record
/// before: what an earlier list left further on in the file, under other numbers, doesn't belong to this one.
#[tactic(auto, unfolding(crate::specs::RecordFront::stands))]
pub(crate) fn stands_here(due: Option<u64>, left: u64, front: &[u8]) -> bool
    requires { length front.now ≡ 48 }
    ensures is { result ≡ stands due left front.now }
    ensures long { result ≡ true → 48 + 4104 * number_of front.now ≤ left }
{
    if left < FRONT_SIZE || front[0] != 1 {
        return false;
    }
    if !is_next(due, u64_at(front, 8)) {
        return false;
    }
    FRONT_SIZE + PART_SIZE * part_count(front) as u64 <= left
}

/// The sequence number after this one.
pub(crate) fn successor(seq: u64) -> u64
    ensures is { result ≡ next_seq seq }
    ensures positive { 1 ≤ result }
{
    if seq == u64::MAX { 1 } else { seq + 1 }
}

fn is_next(due: Option<u64>, seq: u64) -> bool
    ensures { result ≡ is_due due seq }
{
    match due {
        None => true,
        Some(number) => number == seq,
    }
}

/// The first field of a record's front that departs from its form.
#[tactic(auto, unfolding(crate::specs::RecordFront::front_departure))]
pub(crate) fn departing_front(pages: u32, front: &[u8]) -> Option<u64>
    requires size { length front.now ≡ 48 }
    requires some { 1 ≤ pages }
    ensures is { result ≡ front_departure pages front.now }
    ensures few { result ≡ None → number_of front.now < pages }
    ensures names { result ≡ None → (1 ≤ name_of front.now) × (name_of front.now ≤ 2 ^ 62) }
    ensures high { result ≡ None → (3 ≤ high_of front.now) × (high_of front.now ≤ pages) }
    ensures small { IfSome result (λ offset. offset ≤ 44) }
{
    if !has_zeros(front, 1, 7) {
        return Some(1);
    }
    if u64_field(front, 16, 1, MOST_NAMES).is_none() {
        return Some(16);
    }
    if u32_field(front, 28, 0, pages - 1).is_none() {
        return Some(28);
    }
    if u32_field(front, 32, 3, pages).is_none() {
        return Some(32);
    }
    if !has_zeros(front, 44, 4) {
        return Some(44);
    }
    None
}

/// How many pages a record with this front has.
pub(crate) fn part_count(front: &[u8]) -> u32
    requires { length front.now ≡ 48 }
    ensures { result ≡ number_of front.now }
{
    u32_at(front, 28)
}

/// The summary of a record with this front, and of these pages.
pub(crate) fn decode(front: &[u8], pages: Vec<u32>) -> Summary
    requires { length front.now ≡ 48 }
    ensures { result ≡ summary_with front.now pages.items }
{
    Summary {
        seq: u64_at(front, 8),
        next_name: u64_at(front, 16),
        tag: u32_at(front, 24),
        high_page: u32_at(front, 32),
        pins: u32_at(front, 36),
        moved: u32_at(front, 40),
        pages,
    }
}

/// The bytes before the image of a page.
pub(crate) fn encode_part(page: u32) -> [u8; 8]
    ensures { result ≡ to_le_bytes w32 page ++ (0 ∷ 0 ∷ 0 ∷ 0 ∷ []) }
{
    let [a, b, c, d] = page.to_le_bytes();
    [
        a, b, c, d, // 0: the page's number
        0, 0, 0, 0, // 4: zeros
    ]
}

/// The first field before an image that departs from its form.
#[tactic(auto, unfolding(crate::specs::RecordFront::part_departure))]
pub(crate) fn departing_part(pages: u32, last: u32, field: &[u8]) -> Option<u64>
    requires size { length field.now ≡ 8 }
    requires some { 1 ≤ pages }
    requires within { last < pages }
    ensures is { result ≡ part_departure pages last field.now }
    ensures below { result ≡ None → number_at w32 0 field.now < pages }
    ensures above { result ≡ None → last < number_at w32 0 field.now }
    ensures small { IfSome result (λ offset. offset ≤ 4) }
{
    if u32_field(field, 0, last + 1, pages - 1).is_none() {
        return Some(0);
    }
    if !has_zeros(field, 4, 4) {
        return Some(4);
    }
    None
}
