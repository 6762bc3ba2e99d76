//! The bytes of a disk in memory, written in place.
ghost use Rattle.std.specs.Prelude.{◌≡◌, ◌≤◌, length, take, unwrap_or, Some, OnOk, OnErr};
ghost use Rattle.pm3_disk.specs.Content.{overwrite};

use crate::Memory;
use crate::bytes::Bytes;
use crate::copies::write_over;
use std::alloc::Global;
use std::marker::Model;

/// The bytes as they are, and as they were at first. These are copied before the first change, and no earlier.
#[derive(Drop)]
pub(crate) struct Medium {
    alloc: Global,
    /// The bytes at first, or None as long as they are the present ones.
    began: Option<Bytes>,
    /// The bytes as they are.
    present: Vec<u8>,
}

impl Model for Medium {
    ghost use Rattle.std.specs.Prelude.{unwrap_or};
    ghost use Rattle.pm3_disk.specs.Media.{Media};

    ghost Value = { Media };

    ghost view = { λ m. record { began = unwrap_or m.began m.present.items; present = m.present.items } };
}

impl Medium {
    /// Bytes that no call has changed.
    pub(crate) fn new(alloc: Global, content: Vec<u8>) -> Medium
        ensures { result ≡ record { began = content.items; present = content.items } }
    {
        Medium {
            alloc,
            began: None,
            present: content,
        }
    }

    /// The bytes as they are.
    pub(crate) fn bytes(&self) -> &[u8]
        ensures { result.now ≡ self.now.present }
    {
        self.present.as_slice()
    }

    /// The bytes as they were at first.
    pub(crate) fn began(&self) -> &[u8]
        ensures { result.now ≡ self.now.began }
    {
        match &self.began {
            Some(began) => began.as_slice(),
            None => self.present.as_slice(),
        }
    }

    /// Writes a part over what stands from offset `at` on, and past the end where it reaches there.
    pub(crate) fn write(&mut self, at: u64, part: &[u8]) -> Result<(), Memory>
        ensures written { OnOk result (self.new ≡ record self.old { present = overwrite at part.now self.old.present }) }
        ensures err { OnErr result (self.new ≡ self.old) }
    {
        keep(self.alloc, &mut self.began, &self.present)?;
        write_over(&mut self.present, at, part)
    }

    /// Leaves the first `len` bytes, or all where there are no more.
    pub(crate) fn cut(&mut self, len: u64) -> Result<(), Memory>
        ensures cut { OnOk result (self.new ≡ record self.old { present = take len self.old.present }) }
        ensures err { OnErr result (self.new ≡ self.old) }
    {
        keep(self.alloc, &mut self.began, &self.present)?;
        if len < self.present.len() as u64 {
            self.present.truncate(len as usize);
        }
        Ok(())
    }
}

// Keeps the bytes as they were at first, before one of them changes.
fn keep(alloc: Global, began: &mut Option<Bytes>, present: &[u8]) -> Result<(), Memory>
    ensures kept { OnOk result (began.new ≡ Some (unwrap_or began.old present.now)) }
    ensures err { OnErr result (began.new ≡ began.old) }
{
    if began.is_none() {
        *began = Some(Bytes::copy_of(alloc, present)?);
    }
    Ok(())
}
