//! Bytes copied from one place to another.
ghost use Rattle.std.specs.Prelude.{◌≡◌, ◌+◌, ◌-◌, ◌≤◌, ◌<◌, ◌↔◌, min, length, take, drop, vec_capacity, IsTrue, Contains, OnOk, OnErr};
ghost use Rattle.pm3_disk.specs.Content.{IsRead, overwrite};
ghost use Rattle.pm3_disk.specs.Replay.{part_put};

use crate::Memory;

/// Copies the bytes from offset `at` on into the front of `out`, as many as there are and as `out` has, and
/// answers how many.
pub(crate) fn copy_out(bytes: &[u8], at: u64, out: &mut [u8]) -> usize
    ensures bound { result ≤ length out.new }
    ensures read { IsRead bytes.now at result out.new }
{
    let left = (bytes.len() as u64).saturating_sub(at) as usize;
    let count = out.len().min(left);
    if count > 0 {
        fill_front(out, &bytes[at as usize..at as usize + count]);
    }
    count
}

fn fill_front(out: &mut [u8], bytes: &[u8])
    requires { length bytes.now ≤ length out.old }
    ensures len { length out.new ≡ length out.old }
    ensures front { take (length bytes.now) out.new ≡ bytes.now }
{
    out[..bytes.len()].copy_from_slice(bytes);
}

fn put_within(bytes: &mut [u8], at: usize, part: &[u8])
    requires { at + length part.now ≤ length bytes.old }
    ensures { bytes.new ≡ overwrite at part.now bytes.old }
{
    bytes[at..at + part.len()].copy_from_slice(part);
}

// Writes a part over what stands from offset `at` on, and past the end. There is room for it.
fn put(bytes: &mut Vec<u8>, at: usize, part: &[u8])
    requires { min at (length bytes.old.items) + length part.now ≤ vec_capacity bytes.old }
    ensures { bytes.new.items ≡ overwrite at part.now bytes.old.items }
{
    if at <= bytes.len() && part.len() <= bytes.len() - at {
        put_within(bytes, at, part);
        return;
    }
    bytes.truncate(at);
    let Ok(()) = bytes.extend_from_slice(part) else {
        unreachable!();
    };
}

/// Writes a part over what stands from offset `at` on, and past the end where it reaches there. It takes memory
/// only where it makes the bytes longer, and changes nothing where there is none.
pub(crate) fn write_over(bytes: &mut Vec<u8>, at: u64, part: &[u8]) -> Result<(), Memory>
    ensures written { OnOk result (bytes.new.items ≡ overwrite at part.now bytes.old.items) }
    ensures err { OnErr result (bytes.new.items ≡ bytes.old.items) }
{
    let at = at as usize;
    let behind = bytes.len().saturating_sub(at);
    bytes.reserve(part.len().saturating_sub(behind))?;
    put(bytes, at, part);
    Ok(())
}

/// Whether a number is in a list.
pub(crate) fn is_listed(numbers: &[u32], number: u64) -> bool
    ensures { IsTrue result ↔ Contains numbers.now number }
{
    numbers.iter().any(|listed| u64::from(*listed) == number)
}

/// All bytes, or the first half of them.
pub(crate) fn part_of(bytes: &[u8], whole: bool) -> &[u8]
    ensures { result.now ≡ part_put whole bytes.now }
{
    if whole {
        bytes
    } else {
        &bytes[..bytes.len() / 2]
    }
}
