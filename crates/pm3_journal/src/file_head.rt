//! The head of a journal's file: each field once, as it is written and as it is read.
ghost use Rattle.std.specs.Prelude.{◌≡◌, ◌≤◌, length, Some, None, IfOk, IfErr, OnOk};
ghost use Rattle.pm3_journal.specs.FileHead.{empty_journal, head_departure, page_count_of};

use pm3_types::{has_zeros, u32_field, u64_field};

/// What the file is.
const KIND: [u8; 8] = *b"PM3JOURN";

/// The version of the format.
const VERSION: u32 = 1;

/// The fewest and the most pages of a store.
const LEAST_PAGES: u32 = 16;

const MOST_PAGES: u32 = 16384;

/// The head, and the closed gate of the first record.
pub(crate) fn encode_empty(pages: u32) -> [u8; 40]
    ensures { result ≡ empty_journal pages }
{
    let [a, b, c, d] = pages.to_le_bytes();
    [
        b'P', b'M', b'3', b'J', b'O', b'U', b'R', b'N', // 0: what the file is
        1, 0, 0, 0, // 8: the version
        a, b, c, d, // 12: the page count
        0, 0, 0, 0, 0, 0, 0, 0, 0, 0, 0, 0, 0, 0, 0, 0, // 16: zeros
        0, 0, 0, 0, 0, 0, 0, 0, // 32: the gate
    ]
}

/// The page count of the bytes at the head of a journal, or the offset of the first field that departs.
#[tactic(auto, unfolding(crate::specs::FileHead::head_departure))]
pub(crate) fn decode(head: &[u8]) -> Result<u32, u64>
    ensures pages { IfOk result (λ pages. (head_departure head.now ≡ None) × (page_count_of head.now ≡ pages)) }
    ensures range { IfOk result (λ pages. (16 ≤ pages) × (pages ≤ 16384)) }
    ensures size { OnOk result (32 ≤ length head.now) }
    ensures damaged { IfErr result (λ field. head_departure head.now ≡ Some field) }
{
    let kind = u64::from_le_bytes(KIND);
    if u64_field(head, 0, kind, kind).is_none() {
        return Err(0);
    }
    if u32_field(head, 8, VERSION, VERSION).is_none() {
        return Err(8);
    }
    let Some(pages) = u32_field(head, 12, LEAST_PAGES, MOST_PAGES) else {
        return Err(12);
    };
    if !has_zeros(head, 16, 16) {
        return Err(16);
    }
    Ok(pages)
}
