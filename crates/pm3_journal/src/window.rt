//! A stretch of a device's bytes, read in one call.
ghost use Rattle.std.specs.Prelude.{◌≡◌, ◌+◌, ◌-◌, ◌<◌, ◌≤◌, List, ℕ, Option, true, false, length, min, take, drop, IfOk, OnOk};
ghost use Rattle.pm3_disk.specs.Content.{IfTold};
ghost use Rattle.pm3_disk.specs.Devices.{IsHonest, OnlyReads};
ghost use Rattle.pm3_types.specs.Bytes.{piece};
ghost use Rattle.pm3_journal.specs.Windows.{IsWindowOn};

use pm3_disk::{Disk, Failed, Memory};
use std::alloc::Global;
use std::marker::Model;

/// The last bytes that were read, 64 KiB at most. Pieces that lie in them are given with no further call. A contract sees
/// the bytes, and the offset of the first.
#[derive(Drop)]
pub(crate) struct Window {
    /// Room for what is read.
    block: Vec<u8>,
    /// The offset of its first byte on the device.
    start: u64,
    /// How many of its bytes were read.
    filled: usize,
}

impl Model for Window {
    ghost use Rattle.std.specs.Prelude.{◌≡◌, ◌≤◌, length, take};
    ghost use Rattle.pm3_journal.specs.Windows.{Stretch};

    ghost Value = { Stretch };

    ghost view = { λ w. record { start = w.start; bytes = take w.filled w.block.items } };

    ghost invariant = { λ w. (length w.block.items ≡ 65536) × (w.filled ≤ 65536) };
}

impl Window {
    /// Nothing is read yet.
    pub(crate) fn new(alloc: Global) -> Result<Window, Memory>
        ensures { IfOk result (λ window. (content : Option (List ℕ)) → IsWindowOn window content) }
    {
        let block = vec![in alloc; 0u8; 65536]?;
        Ok(Window {
            block,
            start: 0,
            filled: 0,
        })
    }

    /// Reads from this offset on.
    pub(crate) fn fill<D: Disk>(&mut self, disk: &mut D, at: u64) -> Result<(), Failed>
        ensures window { OnOk result (IsWindowOn self.new (D.content disk.new)) }
        ensures full { OnOk result (IfTold (D.content disk.old) (λ bytes. length self.new.bytes ≡ min 65536 (length bytes - at))) }
        ensures start { OnOk result (self.new.start ≡ at) }
        ensures reads { OnlyReads D.Disk disk.old disk.new }
        ensures cause { IsHonest D.Disk disk.old disk.new result }
    {
        let count = read_block(disk, at, &mut self.block)?;
        self.start = at;
        self.filled = count;
        Ok(())
    }

    /// What was read.
    fn bytes(&self) -> &[u8]
        ensures { result.now ≡ self.now.bytes }
    {
        &self.block[..self.filled]
    }

    /// The first bytes of what was read, so many where it has them.
    pub(crate) fn first(&self, most: usize) -> &[u8]
        ensures { result.now ≡ take most self.now.bytes }
    {
        let bytes = self.bytes();
        &bytes[..bytes.len().min(most)]
    }

    /// Copies a piece, if the window has all of it.
    fn give(&self, at: u64, out: &mut [u8]) -> bool
        ensures given { result ≡ true → (self.now.start ≤ at)
            × (at - self.now.start + length out.old ≤ length self.now.bytes)
            × (out.new ≡ take (length out.old) (drop (at - self.now.start) self.now.bytes)) }
        ensures missing { result ≡ false → self.now.start ≤ at → length self.now.bytes < at - self.now.start + length out.old }
    {
        let bytes = self.bytes();
        if at < self.start || at - self.start > bytes.len() as u64 {
            return false;
        }
        let (_, rest) = bytes.split_at((at - self.start) as usize);
        if rest.len() < out.len() {
            return false;
        }
        let (piece, _) = rest.split_at(out.len());
        out.copy_from_slice(piece);
        true
    }

    /// Reads a piece, which lies within the device.
    pub(crate) fn read<D: Disk>(
        &mut self,
        disk: &mut D,
        at: u64,
        out: &mut [u8],
    ) -> Result<(), Failed>
        requires window { IsWindowOn self.old (D.content disk.old) }
        requires within { IfTold (D.content disk.old) (λ bytes. at + length out.old ≤ length bytes) }
        requires small { length out.old ≤ 65536 }
        ensures piece { OnOk result (IfTold (D.content disk.old) (λ bytes. out.new ≡ piece at (length out.old) bytes)) }
        ensures window { OnOk result (IsWindowOn self.new (D.content disk.new)) }
        ensures reads { OnlyReads D.Disk disk.old disk.new }
        ensures cause { IsHonest D.Disk disk.old disk.new result }
    {
        if self.give(at, out) {
            return Ok(());
        }
        self.fill(disk, at)?;
        self.give(at, out);
        Ok(())
    }

    /// Reads a piece, which lies within the device, and leaves the window where it is.
    pub(crate) fn read_beside<D: Disk>(
        &self,
        disk: &mut D,
        at: u64,
        out: &mut [u8],
    ) -> Result<(), Failed>
        requires window { IsWindowOn self.now (D.content disk.old) }
        requires within { IfTold (D.content disk.old) (λ bytes. at + length out.old ≤ length bytes) }
        ensures piece { OnOk result (IfTold (D.content disk.old) (λ bytes. out.new ≡ piece at (length out.old) bytes)) }
        ensures reads { OnlyReads D.Disk disk.old disk.new }
        ensures cause { IsHonest D.Disk disk.old disk.new result }
    {
        if self.give(at, out) {
            return Ok(());
        }
        match disk.read_at(at, out) {
            Ok(_) => Ok(()),
            Err(failed) => Err(failed),
        }
    }
}

/// Reads into a block, and answers how many bytes.
fn read_block<D: Disk>(disk: &mut D, at: u64, block: &mut [u8]) -> Result<usize, Failed>
    requires { length block.old ≡ 65536 }
    ensures bound { IfOk result (λ count. count ≤ 65536) }
    ensures size { length block.new ≡ 65536 }
    ensures count { IfOk result (λ count. IfTold (D.content disk.old) (λ bytes. count ≡ min 65536 (length bytes - at))) }
    ensures bytes { IfOk result (λ count. IfTold (D.content disk.old) (λ bytes. take count block.new ≡ piece at count bytes)) }
    ensures reads { OnlyReads D.Disk disk.old disk.new }
    ensures cause { IsHonest D.Disk disk.old disk.new result }
{
    match disk.read_at(at, block) {
        Ok(count) => Ok(count),
        Err(failed) => Err(failed),
    }
}
