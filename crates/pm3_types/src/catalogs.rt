//! Catalogs: the types of a store.
ghost use Rattle.std.specs.Prelude.{◌≡◌, ◌↔◌, ◌⊎◌, ◌≤◌, [], ◌∷◌, ◌++◌, length, IfOk, OnOk, IfErr, OnErr, IsErrOf, IsTrue, None, slice_get};
ghost use Rattle.pm3_types.specs.PageOne.{catalog_page};
ghost use Rattle.pm3_types.specs.CatalogForm.{departure, IsCauseOf};

use crate::page_one::{MOST_TYPES, decode, encode};
use crate::type_map::{TypeMap, TypeNo};
use arrayvec::ArrayVec;
use std::alloc::Global;
use std::marker::Model;
use thiserror::Error;

/// Why a catalog did not take a map.
#[derive(Clone, Copy, Debug, PartialEq, Eq, Error)]
pub enum AddFault {
    /// It has `limit` maps already, the most that it may have.
    #[error("the catalog has {limit} types already")]
    Full { limit: u32 },
    /// Want of memory, which a catalog in place never has.
    #[error("out of memory")]
    Memory,
}

/// Why the bytes of a page are no catalog.
#[derive(Clone, Copy, Debug, PartialEq, Eq, Error)]
pub enum CatalogFault {
    /// The field that begins at byte `offset` of the page is the first that departs from the form.
    #[error("the catalog is damaged at byte {offset} of its page")]
    Damaged { offset: u32 },
    /// Want of memory, which a catalog in place never has.
    #[error("out of memory")]
    Memory,
}

/// The types of a store, each under its number. They stand in place, so that a catalog takes no memory.
#[derive(Debug, Drop)]
pub struct Catalog {
    maps: ArrayVec<TypeMap, MOST_TYPES>,
}

impl Model for Catalog {
    ghost use Rattle.std.specs.Prelude.{List};
    ghost use Rattle.pm3_types.specs.Fields.{Fields};

    ghost Value = { List Fields };

    ghost view = { λ c. c.maps.items };
}

impl Catalog {
    /// A catalog without types. It takes nothing from `alloc`, now or later.
    pub fn new(_alloc: Global) -> Catalog
        ensures { result ≡ [] }
    {
        Catalog {
            maps: ArrayVec::new(),
        }
    }

    /// The number of types.
    pub fn len(&self) -> u32
        ensures count { result ≡ length self.now }
        ensures few { length self.now ≤ 256 }
    {
        self.maps.len() as u32
    }

    /// Whether there is no type.
    pub fn is_empty(&self) -> bool
        ensures { IsTrue result ↔ (self.now ≡ []) }
    {
        self.maps.is_empty()
    }

    /// The map of a type, or None exactly where there is no type of this number.
    pub fn get(&self, ty: TypeNo) -> Option<TypeMap>
        ensures { result ≡ slice_get self.now ty }
    {
        self.maps.get(usize::from(ty)).copied()
    }

    /// Adds a type and answers its number, the first that was free. After a refusal the catalog is as it was.
    pub fn add(&mut self, map: TypeMap) -> Result<TypeNo, AddFault>
        ensures number { IfOk result (λ ty. ty ≡ length self.old) }
        ensures added { OnOk result (self.new ≡ self.old ++ map ∷ []) }
        ensures full { IsErrOf result (AddFault.Full 256) ↔ (length self.old ≡ 256) }
        ensures fault { IfErr result (λ fault. fault ≡ AddFault.Full 256) }
        ensures refused { OnErr result (self.new ≡ self.old) }
    {
        let number = self.maps.len();
        if number == MOST_TYPES {
            return Err(AddFault::Full {
                limit: MOST_TYPES as u32,
            });
        }
        self.maps.push(map);
        Ok(number as TypeNo)
    }

    /// Reads the bytes of page 1. They are the bytes of the catalog that is given, so that to write it gives them back.
    pub fn decode(_alloc: Global, bytes: &[u8; 4096]) -> Result<Catalog, CatalogFault>
        ensures same { IfOk result (λ catalog. bytes.now ≡ catalog_page catalog) }
        ensures sound { OnOk result (departure bytes.now ≡ None) }
        ensures fault { IfErr result (λ fault. IsCauseOf (departure bytes.now) fault) }
    {
        Ok(Catalog {
            maps: decode(bytes)?,
        })
    }

    /// Writes the bytes of page 1.
    pub fn encode_into(&self, out: &mut [u8; 4096])
        ensures { out.new ≡ catalog_page self.now }
    {
        encode(&self.maps, out);
    }
}
