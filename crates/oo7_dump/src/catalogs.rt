//! What every catalog is.
//!
//! This is a fact of catalogs alone: each type of a catalog is one that `TypeMap` lets be made. A catalog keeps it by the type of
//! its items, but no clause of its calls says it of the whole list, and both the dump and the opening of the program's store
//! need it there. It belongs beside `Catalog`, and is public here only until a clause there says it.
ghost use Rattle.pm3_types.specs.PageLaws.{IsCatalog};

use pm3_types::{Catalog, TypeNo};

/// Every catalog has sound types, 256 at most. The call changes nothing and refuses nothing; it is made for its clause, and goes
/// over the types once to have each one's own fact.
pub fn types_are_sound(catalog: &Catalog)
    ensures { IsCatalog catalog.now }
{
    for ty in 0..catalog.len() {
        let Some(map) = catalog.get(ty as TypeNo) else {
            unreachable!()
        };
        let _tail = map.tail;
    }
}
