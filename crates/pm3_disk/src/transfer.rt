//! Reads and writes that go on where the system stops short.
ghost use Rattle.std.specs.Prelude.{◌≡◌, ◌<◌, ◌≤◌, length, take, IfOk, IsErr, OnOk, Ok, MatchResult};
ghost use Rattle.pm3_disk.specs.Faults.{HasCause};
ghost use Rattle.pm3_disk.specs.Systems.{Puts, Writes};

use crate::outside::Failed;
use crate::system::{Giver, SystemFile, Taker};
use std::io;
use std::io::ErrorKind;

// How often a call that the system interrupts is tried.
const TRIES: u32 = 1000;

/// Counts an error as a fault.
pub(crate) fn counted<T>(faults: &mut u64, answer: io::Result<T>) -> Result<T, Failed>
    ensures cause { HasCause faults.old faults.new result }
    ensures answer { MatchResult answer (λ value. result ≡ Ok value) (λ _. IsErr result) }
{
    match answer {
        Ok(value) => Ok(value),
        Err(_error) => {
            *faults = faults.saturating_add(1);
            Err(Failed)
        }
    }
}

/// One read, tried again where it is interrupted.
pub(crate) fn read_some<F: Giver>(from: &mut F, out: &mut [u8]) -> io::Result<usize>
    ensures { IfOk result (λ count. count ≤ length out.new) }
{
    for _ in 0..TRIES {
        match from.read(out) {
            Ok(count) => return Ok(count),
            Err(error) if error.kind() == ErrorKind::Interrupted => {}
            Err(error) => return Err(error),
        }
    }
    Err(io::Error::from(ErrorKind::Interrupted))
}

/// One write, tried again where it is interrupted. It takes at least one byte of a piece that has any.
pub(crate) fn write_some<F: Taker>(to: &mut F, bytes: &[u8]) -> io::Result<usize>
    ensures bound { IfOk result (λ count. count ≤ length bytes.now) }
    ensures some { IfOk result (λ count. 0 < length bytes.now → 0 < count) }
    ensures put { IfOk result (λ count. Puts (take count bytes.now) (F.seen to.old) (F.seen to.new)) }
{
    for _ in 0..TRIES {
        match to.write(bytes) {
            Ok(0) if !bytes.is_empty() => return Err(io::Error::from(ErrorKind::WriteZero)),
            Ok(count) => return Ok(count),
            Err(error) if error.kind() == ErrorKind::Interrupted => {}
            Err(error) => return Err(error),
        }
    }
    Err(io::Error::from(ErrorKind::Interrupted))
}

/// Reads from offset `at` on until `out` is full or the end is there, and answers how many bytes.
pub(crate) fn read_from<F: SystemFile>(file: &mut F, at: u64, out: &mut [u8]) -> io::Result<usize>
    ensures { IfOk result (λ count. count ≤ length out.new) }
{
    file.seek(at)?;
    let mut done = 0;
    while done < out.len() {
        let count = read_some(file, &mut out[done..])?;
        if count == 0 {
            return Ok(done);
        }
        done += count;
    }
    Ok(done)
}

/// Writes all bytes from offset `at` on, which isn't past the file's end.
pub(crate) fn write_to<F: SystemFile>(file: &mut F, at: u64, bytes: &[u8]) -> io::Result<()>
    ensures { OnOk result (Writes at bytes.now (F.Taker.seen file.old) (F.Taker.seen file.new)) }
{
    file.seek(at)?;
    let mut done = 0;
    while done < bytes.len() {
        let (_, rest) = bytes.split_at(done);
        done += write_some(file, rest)?;
    }
    Ok(())
}
