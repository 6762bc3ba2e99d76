//! The four traits of the outside.
ghost use Rattle.std.specs.Prelude.{◌≡◌, ◌+◌, ◌<◌, ◌≤◌, ℕ, List, [], ◌++◌, length, take, drop, Option, Some, option_map, IfOk, OnOk, OnErr};
ghost use Rattle.pm3_disk.specs.Content.{IfTold, IsRead, overwrite, Steps, TornCut, TornWrite, Unchanged};
ghost use Rattle.pm3_disk.specs.Faults.{HasCause, Rose};
ghost use Rattle.pm3_disk.specs.Moments.{After, IsSettled, Passes};

use thiserror::Error;

/// A device didn't do what it was asked. Its count of faults has risen.
#[derive(Clone, Copy, Debug, PartialEq, Eq, Error)]
#[error("a device failed")]
pub struct Failed;

/// Reads the bytes that a disk had when the reader was made.
pub trait Reader {
    /// The bytes, where the reader tells them.
    ghost content: { Self → Option (List ℕ) };

    /// How many of its calls have failed.
    ghost faults: { Self → ℕ };

    /// Reads as many bytes as there are from offset `at` on, at most `out.len()`, into the front of `out`, and
    /// answers how many.
    fn read_at(&mut self, at: u64, out: &mut [u8]) -> Result<usize, Failed>
        ensures bound { IfOk result (λ count. count ≤ length out.new) }
        ensures bytes { IfOk result (λ count. IfTold (content self.old) (λ bytes. IsRead bytes at count out.new)) }
        ensures same { content self.new ≡ content self.old }
        ensures cause { HasCause (faults self.old) (faults self.new) result };
}

/// A file of bytes. What was synced is there after a crash.
pub trait Disk {
    type Reader: Reader;

    /// The bytes, where the disk tells them.
    ghost content: { Self → Option (List ℕ) };

    /// How many of its calls have failed, the faults of readers that it took back counted too.
    ghost faults: { Self → ℕ };

    /// The present moment. It never falls, and the moments of a call are those after the one at its entry. A call has one at
    /// most, so that a caller's clause can say how many calls it makes.
    ghost moment: { Self → ℕ };

    /// What bytes a crash at a moment may leave.
    ghost may_leave: { Self → ℕ → List ℕ → Type 0 };

    /// How many bytes there are.
    fn len(&mut self) -> Result<u64, Failed>
        ensures len { IfOk result (λ len. IfTold (content self.old) (λ bytes. len ≡ length bytes)) }
        ensures same { content self.new ≡ content self.old }
        ensures crash { Passes (moment self.old) (moment self.new) (may_leave self.old) (may_leave self.new) (After (may_leave self.old (moment self.old)) Unchanged) }
        ensures single { moment self.new ≤ moment self.old + 1 }
        ensures cause { HasCause (faults self.old) (faults self.new) result };

    /// Reads as many bytes as there are from offset `at` on, at most `out.len()`, into the front of `out`, and
    /// answers how many.
    fn read_at(&mut self, at: u64, out: &mut [u8]) -> Result<usize, Failed>
        ensures bound { IfOk result (λ count. count ≤ length out.new) }
        ensures bytes { IfOk result (λ count. IfTold (content self.old) (λ bytes. IsRead bytes at count out.new)) }
        ensures same { content self.new ≡ content self.old }
        ensures crash { Passes (moment self.old) (moment self.new) (may_leave self.old) (may_leave self.new) (After (may_leave self.old (moment self.old)) Unchanged) }
        ensures single { moment self.new ≤ moment self.old + 1 }
        ensures cause { HasCause (faults self.old) (faults self.new) result };

    /// Writes bytes from offset `at` on, over what is there and past the end. Until the next sync that succeeds
    /// a crash may tear the write. `at` isn't past the end.
    fn write_at(&mut self, at: u64, bytes: &[u8]) -> Result<(), Failed>
        requires { IfTold (content self.old) (λ old. at ≤ length old) }
        ensures written { OnOk result (content self.new ≡ option_map (overwrite at bytes.now) (content self.old)) }
        ensures torn { OnErr result (Steps (TornWrite at (length bytes.now)) (content self.old) (content self.new)) }
        ensures crash { Passes (moment self.old) (moment self.new) (may_leave self.old) (may_leave self.new) (After (may_leave self.old (moment self.old)) (TornWrite at (length bytes.now))) }
        ensures single { moment self.new ≤ moment self.old + 1 }
        ensures cause { HasCause (faults self.old) (faults self.new) result };

    /// Leaves the first `len` bytes, or all where there are no more.
    fn cut(&mut self, len: u64) -> Result<(), Failed>
        ensures cut { OnOk result (content self.new ≡ option_map (take len) (content self.old)) }
        ensures torn { OnErr result (Steps (TornCut len) (content self.old) (content self.new)) }
        ensures crash { Passes (moment self.old) (moment self.new) (may_leave self.old) (may_leave self.new) (After (may_leave self.old (moment self.old)) (TornCut len)) }
        ensures single { moment self.new ≤ moment self.old + 1 }
        ensures cause { HasCause (faults self.old) (faults self.new) result };

    /// Makes what was written last: after it a crash leaves what a read gives.
    fn sync(&mut self) -> Result<(), Failed>
        ensures settled { OnOk result (IsSettled (content self.new) (may_leave self.new (moment self.new))) }
        ensures same { content self.new ≡ content self.old }
        ensures crash { Passes (moment self.old) (moment self.new) (may_leave self.old) (may_leave self.new) (After (may_leave self.old (moment self.old)) Unchanged) }
        ensures single { moment self.new ≤ moment self.old + 1 }
        ensures cause { HasCause (faults self.old) (faults self.new) result };

    /// A reader of the bytes as they are now.
    fn reader(&mut self) -> Result<Self::Reader, Failed>
        ensures reader { IfOk result (λ reader. Self.Reader.content reader ≡ content self.old) }
        ensures fresh { IfOk result (λ reader. Self.Reader.faults reader ≡ 0) }
        ensures same { content self.new ≡ content self.old }
        ensures crash { Passes (moment self.old) (moment self.new) (may_leave self.old) (may_leave self.new) (After (may_leave self.old (moment self.old)) Unchanged) }
        ensures single { moment self.new ≤ moment self.old + 1 }
        ensures cause { HasCause (faults self.old) (faults self.new) result };

    /// Takes a reader back, and counts its faults.
    fn absorb(&mut self, reader: Self::Reader)
        ensures same { content self.new ≡ content self.old }
        ensures crash { Passes (moment self.old) (moment self.new) (may_leave self.old) (may_leave self.new) (After (may_leave self.old (moment self.old)) Unchanged) }
        ensures single { moment self.new ≤ moment self.old + 1 }
        ensures later { faults self.old ≤ faults self.new }
        ensures calm { Self.Reader.faults reader ≡ 0 → faults self.new ≡ faults self.old }
        ensures rose { 0 < Self.Reader.faults reader → Rose (faults self.old) (faults self.new) };

    /// A crash may leave a disk as it reads.
    ghost leaves_what_it_reads: { (disk : Self) (bytes : List ℕ) → content disk ≡ Some bytes → may_leave disk (moment disk) bytes };
}

/// Bytes that are read once, in order.
pub trait Source {
    /// The bytes that are left, where the source tells them.
    ghost left: { Self → Option (List ℕ) };

    /// How many of its calls have failed.
    ghost faults: { Self → ℕ };

    /// Gives the first bytes that are left, and answers how many. It gives none to an `out` that isn't empty
    /// only at its end. Where it fails it has left what it had.
    fn read(&mut self, out: &mut [u8]) -> Result<usize, Failed>
        ensures bound { IfOk result (λ count. count ≤ length out.new) }
        ensures bytes { IfOk result (λ count. IfTold (left self.old) (λ bytes. (count ≤ length bytes) × (take count out.new ≡ take count bytes))) }
        ensures rest { IfOk result (λ count. left self.new ≡ option_map (drop count) (left self.old)) }
        ensures end { IfOk result (λ count. count ≡ 0 → 0 < length out.new → IfTold (left self.old) (λ bytes. bytes ≡ [])) }
        ensures same { OnErr result (left self.new ≡ left self.old) }
        ensures cause { HasCause (faults self.old) (faults self.new) result };
}

/// Takes bytes, in order.
pub trait Sink {
    /// The bytes that it has taken, where the sink tells them.
    ghost taken: { Self → Option (List ℕ) };

    /// How many of its calls have failed.
    ghost faults: { Self → ℕ };

    /// Takes the first bytes of a piece, and answers how many. To take none of a piece that isn't empty counts
    /// as a fault. Where it fails it has taken some first bytes, or none.
    fn write(&mut self, bytes: &[u8]) -> Result<usize, Failed>
        ensures bound { IfOk result (λ count. count ≤ length bytes.now) }
        ensures bytes { IfOk result (λ count. taken self.new ≡ option_map (λ old. old ++ take count bytes.now) (taken self.old)) }
        ensures none { IfOk result (λ count. count ≡ 0 → 0 < length bytes.now → Rose (faults self.old) (faults self.new)) }
        ensures part { OnErr result ((count : ℕ) × (count ≤ length bytes.now) × (taken self.new ≡ option_map (λ old. old ++ take count bytes.now) (taken self.old))) }
        ensures later { faults self.old ≤ faults self.new }
        ensures calm { IfOk result (λ count. (count ≡ 0 → length bytes.now ≡ 0) → faults self.new ≡ faults self.old) }
        ensures failed { OnErr result (Rose (faults self.old) (faults self.new)) };
}
