//! The fields of the head: each is its value, or a damage at its first byte.
ghost use Rattle.std.specs.Prelude.{◌≡◌, ◌≤◌, true, false, IfOk, MatchResult};
ghost use Rattle.std.specs.Int.{w32, w64, to_le_bytes};
ghost use Rattle.pm3_types.specs.Bytes.{are_zeros, is_between, number_at, piece};

use crate::faults::MarksFault;
use pm3_types::{has_zeros, u32_field, u64_field};

/// The number of the four bytes that begin at `at`. It is damaged where they aren't all there, and where it isn't from
/// `least` to `most`.
pub(crate) fn short(bytes: &[u8], at: u32, least: u32, most: u32) -> Result<u32, MarksFault>
    ensures tested { MatchResult result (λ _. is_between at w32 least most bytes.now ≡ true) (λ fault. (is_between at w32 least most bytes.now ≡ false) × (fault ≡ MarksFault.Damaged at)) }
    ensures number { IfOk result (λ n. n ≡ number_at w32 at bytes.now) }
    ensures bounds { IfOk result (λ n. (least ≤ n) × (n ≤ most)) }
    ensures bytes { IfOk result (λ n. to_le_bytes w32 n ≡ piece at 4 bytes.now) }
{
    match u32_field(bytes, at as usize, least, most) {
        Some(number) => Ok(number),
        None => Err(MarksFault::Damaged { offset: at }),
    }
}

/// The number of the eight bytes that begin at `at`. It is damaged where they aren't all there, and where it isn't from
/// `least` to `most`.
pub(crate) fn long(bytes: &[u8], at: u32, least: u64, most: u64) -> Result<u64, MarksFault>
    ensures tested { MatchResult result (λ _. is_between at w64 least most bytes.now ≡ true) (λ fault. (is_between at w64 least most bytes.now ≡ false) × (fault ≡ MarksFault.Damaged at)) }
    ensures number { IfOk result (λ n. n ≡ number_at w64 at bytes.now) }
    ensures bounds { IfOk result (λ n. (least ≤ n) × (n ≤ most)) }
    ensures bytes { IfOk result (λ n. to_le_bytes w64 n ≡ piece at 8 bytes.now) }
{
    match u64_field(bytes, at as usize, least, most) {
        Some(number) => Ok(number),
        None => Err(MarksFault::Damaged { offset: at }),
    }
}

/// So many zero bytes that begin at `at`.
pub(crate) fn zeros(bytes: &[u8], at: u32, count: u32) -> Result<(), MarksFault>
    ensures tested { MatchResult result (λ _. are_zeros at count bytes.now ≡ true) (λ fault. (are_zeros at count bytes.now ≡ false) × (fault ≡ MarksFault.Damaged at)) }
{
    if !has_zeros(bytes, at as usize, count as usize) {
        return Err(MarksFault::Damaged { offset: at });
    }
    Ok(())
}
