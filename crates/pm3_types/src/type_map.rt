//! Type maps: the places that the records of a type have.
ghost use Rattle.std.specs.Prelude.{◌≡◌, ◌^◌, ◌<◌, ◌≤◌, ◌↔◌, ◌⊎◌, ℕ, IsNone, IfSome, false};
ghost use Rattle.pm3_types.specs.Fields.{is_reference, tail_code};

use std::marker::Model;

/// The number of a type: its place in the catalog, from 0.
pub type TypeNo = u16;

/// The most fields that a type may have.
pub(crate) const MOST_FIELDS: u8 = 32;

/// What stands behind the fields of a record.
#[derive(Clone, Copy, Debug, PartialEq, Eq)]
pub enum Tail {
    /// Nothing.
    Empty,
    /// References.
    Refs,
    /// Bytes.
    Bytes,
}

impl Tail {
    /// The byte that stands for this tail in a file.
    pub(crate) fn code(self) -> u8
        ensures { result ≡ tail_code self }
    {
        match self {
            Tail::Empty => 0,
            Tail::Refs => 1,
            Tail::Bytes => 2,
        }
    }

    /// The tail for which a byte stands in a file.
    pub(crate) fn from_code(code: u8) -> Option<Tail>
        ensures none { IsNone result ↔ (2 < code) }
        ensures tail { IfSome result (λ tail. tail_code tail ≡ code) }
    {
        match code {
            0 => Some(Tail::Empty),
            1 => Some(Tail::Refs),
            2 => Some(Tail::Bytes),
            _ => None,
        }
    }
}

/// The places that each record of a type has.
#[derive(Clone, Copy, Debug, PartialEq, Eq)]
pub struct TypeMap {
    /// The number of fields, at most 32.
    pub count: u8,
    /// Bit f is set exactly where field f is a reference.
    pub refs: u32,
    /// What stands behind the fields.
    pub tail: Tail,
}

impl Model for TypeMap {
    ghost use Rattle.pm3_types.specs.Fields.{Fields, IsTypeMap};

    ghost Value = { Fields };

    ghost view = { λ m. record { count = m.count; refs = m.refs; tail = m.tail } };

    ghost invariant = { λ m. IsTypeMap m.count m.refs };

    ghost inverse = { λ m. record { count = m.count; refs = m.refs; tail = m.tail } };
}

impl Default for TypeMap {
    ghost use Rattle.pm3_types.specs.Fields.{no_places};

    ghost is_default = { λ map. map ≡ no_places };

    /// The map of a type without places.
    fn default() -> TypeMap {
        TypeMap {
            count: 0,
            refs: 0,
            tail: Tail::Empty,
        }
    }
}

impl TypeMap {
    /// The map with these parts, or None exactly where there are more than 32 fields or a bit at `count` or above is set.
    pub fn new(count: u8, refs: u32, tail: Tail) -> Option<TypeMap>
        ensures refused { IsNone result ↔ ((32 < count) ⊎ (2 ^ count ≤ refs)) }
        ensures made { IfSome result (λ m. (m.count ≡ count) × (m.refs ≡ refs) × (m.tail ≡ tail)) }
        ensures bounded { IfSome result (λ m. (f : ℕ) → m.count ≤ f → is_reference m f ≡ false) }
    {
        if count > MOST_FIELDS || u64::from(refs) >= 1u64 << count {
            return None;
        }
        Some(TypeMap { count, refs, tail })
    }
}
