//! Types of records, the catalog that lists a store's types, and the definitions that all crates above cite.
//!
//! The layer above may rely on three things. A `TypeMap` has at most 32 fields and marks no reference past them, and
//! a `Catalog` is a list of at most 256 such maps, which grows at its end alone. The bytes of page 1 are a function of
//! that list (`catalog_page` of specs/): `Catalog::encode_into` writes exactly them, and `Catalog::decode` reads them
//! back, or names the first field that departs. The definitions by which the crates above speak of records, parts of
//! graphs, whole graphs and what is reached, of the words of pages and of what images show, stand in specs/, with
//! their laws in the functions of `laws`.
#![tactic(auto)]

// Bytes of files.
mod bytes;

// Type maps and the catalog.
mod catalogs;
mod page_one;
mod shortage;
mod type_map;

// The places of records, and laws of the definitions.
mod laws;
mod passes;
mod places;
#[cfg(test)]
mod tests;

pub use bytes::{has_zeros, is_zero, put, u32_at, u32_field, u64_at, u64_field};
pub use catalogs::{AddFault, Catalog, CatalogFault};
pub use laws::{
    dumps, numberings, pages, placing_law, reached_names, shown_law, starts_law, write_law,
};
pub use passes::{pass_law, standing_law};
pub use places::Place;
pub use shortage::Memory;
pub use type_map::{Tail, TypeMap, TypeNo};
