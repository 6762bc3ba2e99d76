//! What stands at the places of objects that are held, under the heap's catalog.
ghost use Rattle.std.specs.Prelude.{◌≡◌, ◌↔◌, ℕ, ◌^◌, ◌<◌, Bool, true, Some, IsTrue, IfOk, IfErr, IfSome, OnOk, OnErr};
ghost use Rattle.pm3_core.specs.declared.naming.TheConstants.{BASE};
ghost use Rattle.pm3_types.specs.Fields.{is_reference};
ghost use Rattle.pm3_types.specs.Layout.{tail_words};
ghost use Rattle.pm3_types.specs.PageForm.{is_memory_reference};
ghost use Rattle.pm3_access.specs.Access.{AreSound, HaveForm, is_object_held};
ghost use Rattle.pm3_access.specs.Acts.{IsMakeStep, map_held};
ghost use Rattle.pm3_access.specs.Making.{IsMade};
ghost use Rattle.pm3_access.specs.Spots.{IsValueFor, has_names};
ghost use Rattle.pm3_txn.specs.Making.{MayMake};
ghost use Rattle.pm3_txn.specs.ObjectValues.{HasNewValue, HasValue, Lacks, name_held, tail_held, type_held};

use crate::heap::Heap;
use pm3_access::{Held, NoPlace, Place};
use pm3_disk::Disk;
use pm3_types::{Tail, TypeMap, TypeNo};

impl<D: Disk> Heap<D> {
    /// The value at a place of an object that is held: a reference or a number, as it is asked for. Without such a place, the
    /// object's type.
    pub(crate) fn read(
        &self,
        held: &Held,
        at: u64,
        place: Place,
        is_ref: bool,
    ) -> Result<u64, TypeNo>
        requires object { is_object_held BASE held.now at ≡ true }
        requires reference { is_memory_reference BASE self.now.1.pages at ≡ true }
        requires form { AreSound self.now.1.opening.catalog BASE self.now.1.pages held.now }
        ensures value { IfOk result (λ value. HasValue self.now.1 held.now at place is_ref value) }
        ensures lacks { IfErr result (λ ty. Lacks self.now.1 held.now at place is_ref ty) }
    {
        let ty = self.type_at(held, at);
        let map = self.map_of(held, at, ty);
        if names_at(map, place) != is_ref {
            return Err(ty);
        }
        let Ok(value) = held.read(&self.catalog, at, place) else {
            return Err(ty);
        };
        Ok(value)
    }

    /// Writes the value at a place of an object that is held. Without such a place all is as it was.
    pub(crate) fn write(
        &self,
        held: &mut Held,
        at: u64,
        place: Place,
        is_ref: bool,
        value: u64,
    ) -> Result<(), TypeNo>
        requires object { is_object_held BASE held.old at ≡ true }
        requires reference { is_memory_reference BASE self.now.1.pages at ≡ true }
        requires form { AreSound self.now.1.opening.catalog BASE self.now.1.pages held.old }
        requires value { IsValueFor place value }
        ensures written { OnOk result (HasNewValue self.now.1 held.old held.new at place is_ref value) }
        ensures lacks { IfErr result (λ ty. Lacks self.now.1 held.old at place is_ref ty) }
        ensures same { OnErr result (held.new ≡ held.old) }
    {
        let ty = self.type_at(held, at);
        let map = self.map_of(held, at, ty);
        if names_at(map, place) != is_ref {
            return Err(ty);
        }
        let Ok(()) = held.write(&self.catalog, at, place, value) else {
            return Err(ty);
        };
        Ok(())
    }

    /// Places a new object on the current page of the space that is held. None exactly where it does not fit there.
    pub(crate) fn make(&self, held: &mut Held, ty: TypeNo, tail: u32, name: u64) -> Option<u64>
        requires may { MayMake self.now.1.opening.catalog ty tail }
        requires named { (0 < name) × (name < 2 ^ 62) }
        ensures made { IsMade BASE self.now.1.opening.catalog held.old ty tail name result held.new }
        ensures step { IfSome result (λ at. IsMakeStep self.now.1.opening.catalog BASE held.old ty tail name at held.new) }
        ensures form { (refers : ℕ → Bool) → refers 0 ≡ true → HaveForm self.now.1.opening.catalog refers held.old → HaveForm self.now.1.opening.catalog refers held.new }
    {
        held.make(&self.catalog, ty, tail, name)
    }

    /// The type of an object that is held.
    pub(crate) fn type_at(&self, held: &Held, at: u64) -> TypeNo
        requires object { is_object_held BASE held.now at ≡ true }
        requires reference { is_memory_reference BASE self.now.1.pages at ≡ true }
        requires form { AreSound self.now.1.opening.catalog BASE self.now.1.pages held.now }
        ensures { type_held held.now at ≡ Some result }
    {
        let Some(image) = held.image(self.page_of(at)) else {
            unreachable!()
        };
        image.type_of(at)
    }

    /// The number of references or bytes in its tail.
    pub(crate) fn tail_at(&self, held: &Held, at: u64) -> u32
        requires object { is_object_held BASE held.now at ≡ true }
        requires reference { is_memory_reference BASE self.now.1.pages at ≡ true }
        requires form { AreSound self.now.1.opening.catalog BASE self.now.1.pages held.now }
        ensures { tail_held held.now at ≡ Some result }
    {
        let Some(image) = held.image(self.page_of(at)) else {
            unreachable!()
        };
        image.tail_len(at)
    }

    /// Its name.
    pub(crate) fn name_at(&self, held: &Held, at: u64) -> u64
        requires object { is_object_held BASE held.now at ≡ true }
        requires reference { is_memory_reference BASE self.now.1.pages at ≡ true }
        requires form { AreSound self.now.1.opening.catalog BASE self.now.1.pages held.now }
        ensures { name_held held.now at ≡ Some result }
    {
        let Some(image) = held.image(self.page_of(at)) else {
            unreachable!()
        };
        image.name_of(at)
    }

    /// The map of its type.
    pub(crate) fn map_of(&self, held: &Held, at: u64, ty: TypeNo) -> TypeMap
        requires object { is_object_held BASE held.now at ≡ true }
        requires form { AreSound self.now.1.opening.catalog BASE self.now.1.pages held.now }
        requires number { type_held held.now at ≡ Some ty }
        ensures { map_held self.now.1.opening.catalog BASE held.now at ≡ Some result }
    {
        let _ = held;
        let Some(map) = self.catalog.get(ty) else {
            unreachable!()
        };
        map
    }
}

impl<D: Disk> Heap<D> {
    /// Whether objects of this type can be made with a tail of this length: the catalog has the type, its objects have a tail or the
    /// length is 0, and such an object fits on a page.
    pub fn may_make(&self, ty: TypeNo, tail: u32) -> bool
        ensures { IsTrue result ↔ MayMake self.now.1.opening.catalog ty tail }
    {
        let Some(map) = self.catalog.get(ty) else {
            return false;
        };
        if map.tail == Tail::Empty && tail != 0 {
            return false;
        }
        u64::from(map.count) + tail_words(map.tail, tail) <= 508
    }
}

/// The words of a tail of so many references or bytes.
fn tail_words(tail: Tail, len: u32) -> u64
    ensures { result ≡ tail_words tail len }
{
    match tail {
        Tail::Empty => 0,
        Tail::Refs => u64::from(len),
        Tail::Bytes => (u64::from(len) + 7) / 8,
    }
}

/// Whether addresses stand at the place in objects with this map.
fn names_at(map: TypeMap, place: Place) -> bool
    ensures { result ≡ has_names map place }
{
    match place {
        Place::Field(f) => is_reference_field(map, f),
        Place::Tail(_) => map.tail == Tail::Refs,
        Place::Byte(_) => false,
    }
}

/// Whether field f is a reference.
#[tactic(auto, unfolding(pm3_types::specs::Fields::is_reference))]
fn is_reference_field(map: TypeMap, f: u32) -> bool
    ensures { result ≡ is_reference map f }
{
    f < 32 && map.refs >> f & 1 == 1
}
