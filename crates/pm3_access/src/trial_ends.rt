//! What is given back at the end of a trial.
use super::*;
use crate::trial_steps::{Step, difference};
use crate::trials::Trial;
use pm3_page::{Addr, BASE, Image, PageNo, Pages};
use std::alloc::Global;
use std::test::Fail;

/// The object of page 4.
pub(crate) const OBJECT: Addr = BASE + 4096 * 4 + 16;

/// Whether the object of page 4 is there, and has this first field.
#[tactic(auto, unfolding(pm3_types::specs::Layout::word_in))]
fn has_field(image: Option<&Image>, value: u64) -> bool {
    match image {
        Some(image) if image.is_object(OBJECT) => image.field(OBJECT, 0) == value,
        _ => false,
    }
}

/// Whether page 4 is there, and its object has this first field, or there is no page at all.
pub(crate) fn shows(pages: &Pages, field: Option<u64>) -> bool {
    match field {
        Some(value) => has_field(pages.get(4), value),
        None => pages.is_empty(),
    }
}

/// The space, where the pages that weren't written and those that were show these fields.
pub(crate) fn space_of(
    undone: Undone,
    unwritten: Option<u64>,
    written: Option<u64>,
) -> Result<Space, Fail> {
    let is_so = shows(&undone.pages, unwritten) && shows(&undone.written, written);
    let Undone { space, .. } = undone;
    given(space, is_so)
}

fn given(space: Option<Space>, is_so: bool) -> Result<Space, Fail> {
    match space {
        Some(space) => {
            if is_so {
                Ok(space)
            } else {
                Err(Fail::from("the pages that are given back are others"))
            }
        }
        None => Err(Fail::from("the space is lost")),
    }
}

/// Whether the space has each of the pages, or none.
fn has_pages(space: &Space, pages: &[PageNo], has: bool) -> bool {
    for i in 0..pages.len() {
        if space.has(pages[i]) != has {
            return false;
        }
    }
    true
}

/// The first of the steps that answers otherwise, where a space is held again. If the space does not have each of the pages, or, as it is
/// said, none, that is the step behind the last.
pub(crate) fn difference_again(
    alloc: Global,
    space: Space,
    pages: &[PageNo],
    has: bool,
    steps: &[Step],
) -> Result<Option<usize>, Fail> {
    let is_so = has_pages(&space, pages, has);
    let answer = difference(Trial::again(alloc, space)?, steps)?;
    if is_so {
        Ok(answer)
    } else {
        Ok(Some(steps.len()))
    }
}
