//! Records as the plain heap keeps them.
ghost use Rattle.std.specs.Prelude.{◌≡◌, ◌<◌, ◌≤◌, IfOk, IsTrue, length, replicate, true};
ghost use Rattle.pm3_types.specs.Record.{blank};
ghost use Rattle.pm3_types.specs.Fields.{is_reference};
ghost use Rattle.pm3_types.specs.Places.{is_place_of, value_at, with_value};

use pm3_types::{Place, Tail, TypeMap, TypeNo};
use std::alloc::{AllocError, Global};
use std::marker::Model;

/// A record as the plain heap keeps it.
#[derive(Debug, Drop)]
pub(crate) struct Kept {
    /// The type.
    ty: TypeNo,
    /// The words of the fields.
    fields: Vec<u64>,
    /// The names or bytes of the tail, a word for each.
    tail: Vec<u64>,
}

impl Model for Kept {
    ghost use Rattle.std.specs.Prelude.{◌≤◌, length};
    ghost use Rattle.pm3_types.specs.Record.{Record, coded_record};

    ghost Value = { Record };

    ghost coded = { coded_record };

    ghost view = { λ r. record { ty = r.ty; fields = r.fields.items; tail = r.tail.items } };
}

impl Kept {
    /// A record of zeros.
    pub(crate) fn blank(
        alloc: Global,
        map: TypeMap,
        ty: TypeNo,
        tail: u32,
    ) -> Result<Kept, AllocError>
        ensures { IfOk result (λ r. r ≡ blank map ty tail) }
    {
        Ok(Kept {
            ty,
            fields: zeros(alloc, u32::from(map.count))?,
            tail: zeros(alloc, tail)?,
        })
    }

    pub(crate) fn ty(&self) -> TypeNo
        ensures { result ≡ self.now.ty }
    {
        self.ty
    }

    /// Whether a record of a type with this map has the place.
    pub(crate) fn has(&self, map: TypeMap, place: Place) -> bool
        ensures { result ≡ is_place_of map self.now place }
    {
        match place {
            Place::Word(f) => (f as usize) < self.fields.len() && !is_reference(map, f),
            Place::Reference(f) => (f as usize) < self.fields.len() && is_reference(map, f),
            Place::TailRef(k) => map.tail == Tail::Refs && (k as usize) < self.tail.len(),
            Place::Byte(k) => map.tail == Tail::Bytes && (k as usize) < self.tail.len(),
        }
    }

    /// What stands in a place.
    pub(crate) fn value(&self, map: TypeMap, place: Place) -> u64
        requires { is_place_of map self.now place ≡ true }
        ensures { result ≡ value_at self.now place }
    {
        match place {
            Place::Word(f) | Place::Reference(f) => self.fields[f as usize],
            Place::TailRef(k) | Place::Byte(k) => self.tail[k as usize],
        }
    }

    /// Puts a value in a place.
    pub(crate) fn set(&mut self, map: TypeMap, place: Place, value: u64)
        requires { is_place_of map self.old place ≡ true }
        ensures { self.new ≡ with_value self.old place value }
    {
        match place {
            Place::Word(f) | Place::Reference(f) => self.fields[f as usize] = value,
            Place::TailRef(k) | Place::Byte(k) => self.tail[k as usize] = value,
        }
    }
}

/// Field f of records with this map is a reference.
#[tactic(auto, unfolding(pm3_types::specs::Fields::is_reference))]
fn is_reference(map: TypeMap, f: u32) -> bool
    ensures { result ≡ is_reference map f }
{
    f < 32 && map.refs >> f & 1 == 1
}

/// So many zeros.
fn zeros(alloc: Global, count: u32) -> Result<Vec<u64>, AllocError>
    ensures { IfOk result (λ zeros. zeros.items ≡ replicate count 0) }
{
    vec![in alloc; 0; count as usize]
}
