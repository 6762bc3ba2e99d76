//! Accesses to the places of objects, with the answers that were worked out by hand.
use super::*;
use crate::trial_steps::{Step, after, difference};
use crate::trial_types::{CHUNK, PART};
use crate::trials::Trial;
use pm3_page::{Addr, BASE};
use std::alloc::Global;
use std::test::Fail;

/// Page 3.
const PAGE_3: Addr = BASE + 4096 * 3;

/// A part with a tail of two references.
const FIRST: Addr = PAGE_3 + 16;

/// A chunk of eleven bytes.
const SECOND: Addr = PAGE_3 + 64;

/// A part without a tail.
const THIRD: Addr = PAGE_3 + 104;

/// A chunk of 3072 bytes.
const FOURTH: Addr = PAGE_3 + 136;

/// The first of the rows that answers otherwise, where the four objects were made one behind another.
fn difference_of_four(alloc: Global, rows: &[Step]) -> Result<Option<usize>, Fail> {
    let steps = [
        Step::Draws(3),
        Step::Makes(PART, 2, 1, Some(FIRST)),
        Step::Makes(CHUNK, 11, 2, Some(SECOND)),
        Step::Makes(PART, 0, 3, Some(THIRD)),
        Step::Makes(CHUNK, 3072, 4, Some(FOURTH)),
    ];
    difference(after(Trial::over_new(alloc, 0)?, &steps)?, rows)
}

#[test]
fn fields_keep_what_was_written_to_them(rt: HostRuntime) -> Result<(), Fail> {
    let rows = [
        Step::Reads(FIRST, Place::Field(0), Some(0)),
        Step::Writes(FIRST, Place::Field(0), PAGE_3 + 72),
        Step::Reads(FIRST, Place::Field(0), Some(PAGE_3 + 72)),
        Step::Reads(FIRST, Place::Field(1), Some(0)),
        Step::Writes(FIRST, Place::Field(1), SECOND),
        Step::Reads(FIRST, Place::Field(1), Some(SECOND)),
        Step::Writes(SECOND, Place::Field(0), THIRD),
        Step::Reads(SECOND, Place::Field(0), Some(THIRD)),
        Step::Writes(FIRST, Place::Field(1), 0),
        Step::Reads(FIRST, Place::Field(1), Some(0)),
        Step::Reads(FIRST, Place::Field(2), None),
        Step::Refuses(THIRD, Place::Field(2), FIRST),
        Step::Reads(SECOND, Place::Field(1), None),
        Step::Reads(FIRST, Place::Field(0), Some(PAGE_3 + 72)),
    ];
    assert_eq!(rt; difference_of_four(rt.alloc(), &rows)?, None);
    Ok(())
}

#[test]
fn tails_keep_what_was_written_to_them(rt: HostRuntime) -> Result<(), Fail> {
    let rows = [
        Step::Writes(FIRST, Place::Tail(0), THIRD),
        Step::Reads(FIRST, Place::Tail(1), Some(0)),
        Step::Reads(FIRST, Place::Tail(0), Some(THIRD)),
        Step::Reads(FIRST, Place::Tail(2), None),
        Step::Refuses(THIRD, Place::Tail(0), FIRST),
        Step::Reads(SECOND, Place::Tail(0), None),
        Step::Writes(SECOND, Place::Byte(0), 255),
        Step::Writes(SECOND, Place::Byte(7), 7),
        Step::Writes(SECOND, Place::Byte(10), 9),
        Step::Reads(SECOND, Place::Byte(0), Some(255)),
        Step::Reads(SECOND, Place::Byte(1), Some(0)),
        Step::Reads(SECOND, Place::Byte(7), Some(7)),
        Step::Reads(SECOND, Place::Byte(10), Some(9)),
        Step::Reads(SECOND, Place::Byte(11), None),
        Step::Refuses(SECOND, Place::Byte(11), 1),
        Step::Reads(FIRST, Place::Byte(0), None),
        Step::Reads(FOURTH, Place::Byte(3071), Some(0)),
        Step::Reads(FOURTH, Place::Byte(3072), None),
    ];
    assert_eq!(rt; difference_of_four(rt.alloc(), &rows)?, None);
    Ok(())
}
