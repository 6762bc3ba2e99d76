//! The calls of a disk played again, up to a crash.
ghost use Rattle.std.specs.Prelude.{◌≡◌, ◌+◌, ◌-◌, ◌^◌, ◌<◌, ◌≤◌, nat_le, if◌then◌else◌, take, length, replicate, reverse, IfOk, OnOk, OnErr};
ghost use Rattle.pm3_disk.specs.Crash.{fate_of, meets, left_step, writes_step, left_after};
ghost use Rattle.pm3_disk.specs.Replay.{content_step};

use crate::Memory;
use crate::call::Call;
use crate::copies::{part_of, write_over};
use crate::fate::Fate;
use std::alloc::Global;

// The bytes that a read gives, those that the crash leaves, and how many writes there are since the last sync.
#[derive(Drop)]
struct Replay {
    content: Vec<u8>,
    left: Vec<u8>,
    writes: u64,
}

/// The bytes that a crash leaves after these calls, of which the oldest comes first.
pub(crate) fn left_by(
    alloc: Global,
    began: &[u8],
    calls: &[Call],
    choice: u64,
) -> Result<Vec<u8>, Memory>
    ensures { IfOk result (λ left. left.items ≡ left_after choice began.now (reverse calls.now)) }
{
    let mut replay = Replay {
        content: Vec::from_slice(alloc, began)?,
        left: Vec::from_slice(alloc, began)?,
        writes: 0,
    };
    for call in calls {
        replay.step(alloc, call, choice)?;
    }
    let Replay { left, .. } = replay;
    Ok(left)
}

impl Replay {
    fn step(&mut self, alloc: Global, call: &Call, choice: u64) -> Result<(), Memory>
        requires { self.old.writes < 2 ^ 63 }
        ensures content { OnOk result (self.new.content.items ≡ content_step call.now self.old.content.items) }
        ensures left { OnOk result (self.new.left.items ≡ left_step call.now (fate_of choice self.old.writes) self.old.content.items self.old.left.items) }
        ensures writes { OnOk result (self.new.writes ≡ writes_step call.now self.old.writes) }
        ensures few { OnOk result (self.new.writes ≤ self.old.writes + 1) }
    {
        match call {
            Call::Looked => {}
            Call::Wrote { at, bytes, whole } => {
                let fate = Fate::of(choice, self.writes);
                meet(alloc, fate, *at, bytes.as_slice(), *whole, &mut self.left)?;
                write_over(&mut self.content, *at, part_of(bytes.as_slice(), *whole))?;
                self.writes += 1;
            }
            Call::Shortened { len } => {
                shorten(&mut self.content, *len);
                shorten(&mut self.left, *len);
            }
            Call::Synced => {
                self.left.clear();
                self.left.extend_from_slice(&self.content)?;
                self.writes = 0;
            }
        }
        Ok(())
    }
}

fn shorten(bytes: &mut Vec<u8>, len: u64)
    ensures { bytes.new.items ≡ take len bytes.old.items }
{
    if len < bytes.len() as u64 {
        bytes.truncate(len as usize);
    }
}

// A write meets its fate, unless it lies past the end of what the earlier ones left.
fn meet(
    alloc: Global,
    fate: Fate,
    at: u64,
    bytes: &[u8],
    whole: bool,
    left: &mut Vec<u8>,
) -> Result<(), Memory>
    ensures met { OnOk result (left.new.items ≡ (if nat_le at (length left.old.items) then meets fate at bytes.now whole left.old.items else left.old.items)) }
{
    if at > left.len() as u64 {
        return Ok(());
    }
    match fate {
        Fate::Written => write_over(left, at, part_of(bytes, whole)),
        Fate::Missing => Ok(()),
        Fate::Half => write_over(left, at, part_of(bytes, false)),
        Fate::Ones => {
            let ones = vec![in alloc; 1u8; bytes.len()]?;
            write_over(left, at, &ones)
        }
    }
}
