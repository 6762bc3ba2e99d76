//! Tails of bytes.
ghost use Rattle.std.specs.Prelude.{◌≡◌, ℕ, ◌+◌, ◌<◌, ◌≤◌, ◌^◌, true, false, if◌then◌else◌, Some, length, IfErr, OnOk, OnErr, MatchOption};
ghost use Rattle.pm3_core.specs.declared.naming.TheConstants.{BASE};
ghost use Rattle.pm3_types.specs.Fields.{has_bytes};
ghost use Rattle.pm3_types.specs.PageForm.{is_memory_reference};
ghost use Rattle.pm3_access.specs.declared.places.Place.TheVariants.{Byte};
ghost use Rattle.pm3_access.specs.Access.{AreSound, is_object_held, value_held};
ghost use Rattle.pm3_txn.specs.ByteRuns.{HasBytes, HasReadBytes, HasRun, HasStoredBytes, HasWrittenBytes, IsFirstMissing, IsRunRefusal, has_byte};
ghost use Rattle.pm3_txn.specs.Owners.{KnowsHere};
ghost use Rattle.pm3_txn.specs.States.{told_in, view_in};

use crate::faults::AccessFault;
use crate::heap::Heap;
use crate::transaction::Txn;
use pm3_access::{Held, Place};
use pm3_disk::Disk;
use pm3_types::{Tail, TypeMap};

impl<D: Disk> Heap<D> {
    /// The first byte of a run that the tail of an object that is held lacks. None exactly where the run is there; an empty one is.
    fn missing_byte(&self, held: &Held, at: u64, from: u32, count: usize) -> Option<u32>
        requires object { is_object_held BASE held.now at ≡ true }
        requires reference { is_memory_reference BASE self.now.1.pages at ≡ true }
        requires form { AreSound self.now.1.opening.catalog BASE self.now.1.pages held.now }
        ensures missing { MatchOption result (HasRun self.now.1 held.now at from count × (from + count ≤ 2 ^ 32)) (λ byte. IsFirstMissing self.now.1 held.now at from count byte) }
    {
        let len = self.byte_count(held, at);
        if count == 0 {
            return None;
        }
        if len <= from {
            return Some(from);
        }
        if count > (len - from) as usize {
            return Some(len);
        }
        None
    }

    /// How many bytes the tail of an object that is held has: none where it is no tail of bytes.
    fn byte_count(&self, held: &Held, at: u64) -> u32
        requires object { is_object_held BASE held.now at ≡ true }
        requires reference { is_memory_reference BASE self.now.1.pages at ≡ true }
        requires form { AreSound self.now.1.opening.catalog BASE self.now.1.pages held.now }
        ensures below { (k : ℕ) → k < result → has_byte self.now.1 held.now at k ≡ true }
        ensures past { (k : ℕ) → result ≤ k → has_byte self.now.1 held.now at k ≡ false }
    {
        let ty = self.type_at(held, at);
        let map = self.map_of(held, at, ty);
        let len = self.tail_at(held, at);
        bytes_of(map, len)
    }

    /// Reads a run of bytes of an object that is held.
    fn read_bytes(&self, held: &Held, at: u64, from: u32, out: &mut [u8])
        requires object { is_object_held BASE held.now at ≡ true }
        requires form { AreSound self.now.1.opening.catalog BASE self.now.1.pages held.now }
        requires run { HasRun self.now.1 held.now at from (length out.old) }
        requires low { from + length out.old ≤ 2 ^ 32 }
        ensures bytes { HasBytes self.now.1 held.now at from out.new }
        ensures same { length out.new ≡ length out.old }
    {
        for k in 0..out.len() {
            out[k] = self.read_byte(held, at, from + k as u32);
        }
    }

    /// Reads a byte of an object that is held.
    fn read_byte(&self, held: &Held, at: u64, byte: u32) -> u8
        requires object { is_object_held BASE held.now at ≡ true }
        requires form { AreSound self.now.1.opening.catalog BASE self.now.1.pages held.now }
        requires there { has_byte self.now.1 held.now at byte ≡ true }
        ensures { value_held self.now.1.opening.catalog BASE held.now at (Byte byte) ≡ Some result }
    {
        let Ok(value) = held.read(&self.catalog, at, Place::Byte(byte)) else {
            unreachable!()
        };
        value as u8
    }
}

/// The number of bytes of a tail of this length.
fn bytes_of(map: TypeMap, len: u32) -> u32
    ensures { result ≡ (if has_bytes map.tail then len else 0) }
{
    if map.tail == Tail::Bytes { len } else { 0 }
}

impl<D: Disk> Txn<'_, D> {
    /// Reads the bytes of the tail of the object to which place i of the row leads, from byte `from` on. NoSuchTail exactly where one
    /// of them isn't there, with the first such byte, so never for an empty run.
    pub fn bytes(&mut self, i: usize, from: u32, out: &mut [u8]) -> Result<(), AccessFault>
        requires low { i < 512 }
        ensures heap { self.new.heap ≡ self.old.heap }
        ensures read { OnOk result (HasReadBytes self.old self.new i from out.new) }
        ensures len { length out.new ≡ length out.old }
        ensures same { OnErr result (out.new ≡ out.old) }
        ensures refused { IfErr result (λ fault. IsRunRefusal D.Reader.faults self.old self.new i from (length out.old) fault) }
    {
        let at = match self.object(i) {
            Ok(at) => at,
            Err(fault) => return Err(fault),
        };
        let heap = self.heap;
        if let Some(missing) = heap.missing_byte(&self.held, at, from, out.len()) {
            let ty = heap.type_at(&self.held, at);
            return Err(AccessFault::NoSuchTail { ty, at: missing });
        }
        heap.read_bytes(&self.held, at, from, out);
        Ok(())
    }

    /// Writes bytes in the tail of that object, from byte `from` on. NoSuchTail exactly where one of them has no place, with the first
    /// such byte, and then nothing is written.
    pub fn set_bytes(&mut self, i: usize, from: u32, bytes: &[u8]) -> Result<(), AccessFault>
        requires low { i < 512 }
        ensures heap { self.new.heap ≡ self.old.heap }
        ensures written { OnOk result (HasWrittenBytes self.old self.new i from bytes.now) }
        ensures refused { IfErr result (λ fault. IsRunRefusal D.Reader.faults self.old self.new i from (length bytes.now) fault) }
    {
        let at = match self.object(i) {
            Ok(at) => at,
            Err(fault) => return Err(fault),
        };
        let heap = self.heap;
        if let Some(missing) = heap.missing_byte(&self.held, at, from, bytes.len()) {
            let ty = heap.type_at(&self.held, at);
            return Err(AccessFault::NoSuchTail { ty, at: missing });
        }
        store_bytes(self, at, from, bytes);
        Ok(())
    }
}

/// Writes bytes in the tail of an object whose page is held.
fn store_bytes<D: Disk>(txn: &mut Txn<'_, D>, at: u64, from: u32, bytes: &[u8])
    requires object { is_object_held BASE txn.old.held at ≡ true }
    requires known { KnowsHere (told_in txn.old) (view_in txn.old) txn.old.held at }
    requires run { HasRun (told_in txn.old) txn.old.held at from (length bytes.now) }
    requires low { from + length bytes.now ≤ 2 ^ 32 }
    ensures stored { HasStoredBytes txn.old txn.new at from bytes.now }
{
    for k in 0..bytes.len() {
        let byte = Place::Byte(from + k as u32);
        let Ok(()) = txn.store(at, byte, false, u64::from(bytes[k])) else {
            unreachable!()
        };
    }
}
