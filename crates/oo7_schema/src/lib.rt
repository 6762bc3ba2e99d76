//! The twelve classes of OO7 as a catalog, the sizes of designs, and what designs and jobs are.
//!
//! The layer above may rely on three things. The catalog that `catalog` makes is `schema` of specs/: the list of the twelve
//! classes, each with the number of its fields, the set of those that are references, and its tail, under the number that is
//! its place in the list; it takes no memory. `params` is the table of the five sizes. The definitions by which the crates above
//! speak of designs (`IsDesign`), of their readings and of what each job answers and leaves (`job`) stand in specs/, with their
//! laws in the functions of `laws`, and are tried on two designs in `small` and `worked`.
#![tactic(auto)]

ghost use Rattle.std.specs.Prelude.{◌≡◌, ◌^◌, ◌<◌, ◌≤◌, [], ◌∷◌, ◌++◌, length, IsOkAnd};
ghost use Rattle.oo7_schema.specs.Schema.{class, schema};

mod commands;
mod jobs;
mod laws;
mod parameters;
mod sizes;
mod small;
mod worked;

pub use commands::{worked_lines, worked_lists, worked_reports, worked_rooms};
pub use jobs::{Extent, Job, Query, Walk};
pub use laws::{
    builds, changed_parts, changes_stay, counts, designs_closed, entries, job_lines,
    jobs_by_reading, readings, small_design, within_room,
};
pub use parameters::params;
pub use pm3_types::Memory;
use pm3_types::{Catalog, Tail, TypeMap};
pub use sizes::{Params, Size};
pub use small::{
    small_dates, small_deletion, small_insertion, small_queries, small_swaps, small_traversals,
};
use std::alloc::Global;
pub use worked::{
    first_composite, reference_draw, tiny_changes, tiny_deletion, tiny_parts, tiny_queries,
    tiny_traversals,
};

/// The catalog of OO7, each class under its number.
pub fn catalog(alloc: Global) -> Result<Catalog, Memory>
    ensures { IsOkAnd result (λ catalog. catalog ≡ schema) }
{
    let mut classes = Catalog::new(alloc);
    add(&mut classes, 7, 0x60, Tail::Empty); // Module
    add(&mut classes, 3, 0x06, Tail::Empty); // Manual
    add(&mut classes, 5, 0x1c, Tail::Empty); // Complex
    add(&mut classes, 5, 0x1c, Tail::Empty); // Base
    add(&mut classes, 4, 0x0c, Tail::Refs); // Composite
    add(&mut classes, 4, 0x0c, Tail::Empty); // Document
    add(&mut classes, 6, 0x20, Tail::Refs); // Atomic
    add(&mut classes, 4, 0x0c, Tail::Empty); // Connection
    add(&mut classes, 1, 0x01, Tail::Bytes); // Chunk
    add(&mut classes, 32, 0xfffe_0002, Tail::Empty); // Leaf
    add(&mut classes, 32, 0xffff_0000, Tail::Empty); // Inner
    add(&mut classes, 3, 0x04, Tail::Empty); // Tree
    Ok(classes)
}

/// Adds one class behind the others.
fn add(classes: &mut Catalog, count: u8, refs: u32, tail: Tail)
    requires fields { count ≤ 32 }
    requires within { refs < 2 ^ count }
    requires room { length classes.old < 256 }
    ensures { classes.new ≡ classes.old ++ class count refs tail ∷ [] }
{
    let Ok(_) = classes.add(TypeMap { count, refs, tail }) else {
        unreachable!()
    };
}

#[cfg(test)]
mod tests {
    use super::*;
    use std::test::Fail;

    /// The eight bytes of page 1 that begin at a byte, taken from the description of the format.
    const TABLE: [(usize, [u8; 8]); 7] = [
        (0, [12, 0, 0, 0, 0, 0, 0, 0]),
        (8, [7, 0, 0, 0, 0x60, 0, 0, 0]),
        (56, [6, 1, 0, 0, 0x20, 0, 0, 0]),
        (72, [1, 2, 0, 0, 1, 0, 0, 0]),
        (80, [32, 0, 0, 0, 0x02, 0x00, 0xfe, 0xff]),
        (96, [3, 0, 0, 0, 4, 0, 0, 0]),
        (104, [0; 8]),
    ];

    #[test]
    fn the_small_sizes_differ_in_their_connections(rt: HostRuntime) -> Result<(), Fail> {
        let sizes = [Size::Small, Size::Small6, Size::Small9];
        for (size, connections) in sizes.into_iter().zip([3, 6, 9]) {
            assert_eq!(rt; params(size).connections, connections);
            assert_eq!(rt; params(size).composites, 500);
        }
        Ok(())
    }

    #[test]
    fn page_1_of_the_schema_is_as_the_format_says(rt: HostRuntime) -> Result<(), Fail> {
        let classes = catalog(rt.alloc())?;
        let mut page = [0; 4096];
        classes.encode_into(&mut page);
        for (at, bytes) in TABLE {
            assert_eq!(rt; &page[at..at + 8], bytes.as_slice(), "at {at}");
        }
        Ok(())
    }
}
