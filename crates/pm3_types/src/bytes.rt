//! Bytes of files: numbers and zeros at an offset, and the fields of a form.
ghost use Rattle.std.specs.Prelude.{◌≡◌, ◌+◌, ◌≤◌, ◌++◌, length, take, drop, is_some, IfSome};
ghost use Rattle.std.specs.Int.{w32, w64, to_le_bytes};
ghost use Rattle.pm3_types.specs.Bytes as form;
ghost use Rattle.pm3_types.specs.Bytes.{piece, number_at, is_between, are_zeros};

/// Whether all bytes are zero.
pub fn is_zero(bytes: &[u8]) -> bool
    ensures { result ≡ form.is_zero bytes.now }
{
    bytes.iter().all(|byte| *byte == 0)
}

/// The number of the four bytes from an offset on, the lowest byte first.
#[tactic(auto, unfolding(crate::specs::Bytes::number_at))]
pub fn u32_at(bytes: &[u8], at: usize) -> u32
    requires { at + 4 ≤ length bytes.now }
    ensures number { result ≡ number_at w32 at bytes.now }
    ensures bytes { to_le_bytes w32 result ≡ piece at 4 bytes.now }
{
    let (_, rest) = bytes.split_at(at);
    u32::from_le_bytes([rest[0], rest[1], rest[2], rest[3]])
}

/// The number of the eight bytes from an offset on, the lowest byte first.
#[tactic(auto, unfolding(crate::specs::Bytes::number_at))]
pub fn u64_at(bytes: &[u8], at: usize) -> u64
    requires { at + 8 ≤ length bytes.now }
    ensures number { result ≡ number_at w64 at bytes.now }
    ensures bytes { to_le_bytes w64 result ≡ piece at 8 bytes.now }
{
    let (_, rest) = bytes.split_at(at);
    u64::from_le_bytes([
        rest[0], rest[1], rest[2], rest[3], rest[4], rest[5], rest[6], rest[7],
    ])
}

/// The number of a field of four bytes. None exactly where the field departs from its form: where its bytes aren't all
/// there, or the number isn't from `least` to `most`.
#[tactic(auto, unfolding(crate::specs::Bytes::is_between))]
pub fn u32_field(bytes: &[u8], at: usize, least: u32, most: u32) -> Option<u32>
    ensures tested { is_some result ≡ is_between at w32 least most bytes.now }
    ensures number { IfSome result (λ n. n ≡ number_at w32 at bytes.now) }
    ensures bounds { IfSome result (λ n. (least ≤ n) × (n ≤ most)) }
    ensures bytes { IfSome result (λ n. to_le_bytes w32 n ≡ piece at 4 bytes.now) }
    ensures within { IfSome result (λ _. at + 4 ≤ length bytes.now) }
{
    if bytes.len() < 4 || bytes.len() - 4 < at {
        return None;
    }
    let number = u32_at(bytes, at);
    if number < least || most < number {
        return None;
    }
    Some(number)
}

/// The number of a field of eight bytes. None exactly where the field departs from its form: where its bytes aren't all
/// there, or the number isn't from `least` to `most`.
#[tactic(auto, unfolding(crate::specs::Bytes::is_between))]
pub fn u64_field(bytes: &[u8], at: usize, least: u64, most: u64) -> Option<u64>
    ensures tested { is_some result ≡ is_between at w64 least most bytes.now }
    ensures number { IfSome result (λ n. n ≡ number_at w64 at bytes.now) }
    ensures bounds { IfSome result (λ n. (least ≤ n) × (n ≤ most)) }
    ensures bytes { IfSome result (λ n. to_le_bytes w64 n ≡ piece at 8 bytes.now) }
    ensures within { IfSome result (λ _. at + 8 ≤ length bytes.now) }
{
    if bytes.len() < 8 || bytes.len() - 8 < at {
        return None;
    }
    let number = u64_at(bytes, at);
    if number < least || most < number {
        return None;
    }
    Some(number)
}

/// Whether so many bytes from an offset on are there, and are zero.
#[tactic(auto, unfolding(crate::specs::Bytes::are_zeros))]
pub fn has_zeros(bytes: &[u8], at: usize, count: usize) -> bool
    ensures { result ≡ are_zeros at count bytes.now }
{
    if bytes.len() < count || bytes.len() - count < at {
        return false;
    }
    let (_, rest) = bytes.split_at(at);
    let (gap, _) = rest.split_at(count);
    is_zero(gap)
}

/// Writes bytes over those that begin at an offset.
pub fn put(out: &mut [u8], at: usize, bytes: &[u8])
    requires { at + length bytes.now ≤ length out.old }
    ensures { out.new ≡ take at out.old ++ bytes.now ++ drop (at + length bytes.now) out.old }
{
    out[at..at + bytes.len()].copy_from_slice(bytes);
}
