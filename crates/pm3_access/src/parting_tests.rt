//! A holding that is parted for a commit, and joined, undone or finished.
use super::*;
use crate::parted_trials::only;
use crate::trial_ends::{OBJECT, difference_again, space_of};
use crate::trial_steps::{FilePage, Step, after};
use crate::trial_types::CHUNK;
use crate::trials::Trial;
use pm3_page::{Addr, BASE, PageNo};
use std::alloc::Global;
use std::test::Fail;

/// The first object of page 3.
const FIRST: Addr = BASE + 4096 * 3 + 16;

/// A space with an object on page 3, and page 4 held alone, as it stands in a file: one object of two fields and no tail.
fn two_pages(alloc: Global) -> Result<Trial, Fail> {
    let steps = [
        Step::Draws(3),
        Step::Admits(FilePage::Object),
        Step::Makes(CHUNK, 0, 1, Some(FIRST)),
    ];
    after(Trial::over_new(alloc, 0)?, &steps)
}

/// The same, parted and joined again.
fn joined_again(alloc: Global) -> Result<Trial, Fail> {
    let steps = [
        Step::Has(4, true),
        Step::Reads(OBJECT, Place::Field(0), Some(0)),
        Step::Makes(CHUNK, 0, 2, Some(FIRST + 24)),
    ];
    after(two_pages(alloc)?.part()?.joined(None)?, &steps)
}

/// The same, where the object of page 4 was made to refer to that of page 3 before.
fn written_and_joined_again(alloc: Global) -> Result<Trial, Fail> {
    let writes = [Step::Writes(OBJECT, Place::Field(0), FIRST)];
    let steps = [
        Step::Has(4, true),
        Step::Reads(OBJECT, Place::Field(0), Some(FIRST)),
        Step::Makes(CHUNK, 0, 2, Some(FIRST + 24)),
    ];
    let trial = after(two_pages(alloc)?, &writes)?;
    after(trial.part()?.joined(Some(FIRST))?, &steps)
}

/// The first of the steps that answers otherwise, where this page of the space is free, and no other one, and there is no current page.
fn difference_of_free(
    alloc: Global,
    space: Space,
    has: bool,
    page: PageNo,
) -> Result<Option<usize>, Fail> {
    let steps = [
        Step::Makes(CHUNK, 0, 1, None),
        Step::TakesFree(Some(page)),
        Step::TakesFree(None),
    ];
    difference_again(alloc, space, &[3], has, &steps)
}

/// What is given back by an undo is as it was taken, and the page that was drawn is free.
fn difference_of_undone(alloc: Global, trial: Trial) -> Result<Option<usize>, Fail> {
    let space = space_of(trial.part()?.undo(), Some(0), None)?;
    difference_of_free(alloc, space, false, 3)
}

/// What is given back after a commit shows these fields among the pages that weren't written and those that were, and page 7 is free.
fn difference_of_finished(
    alloc: Global,
    trial: Trial,
    unwritten: Option<u64>,
    written: Option<u64>,
) -> Result<Option<usize>, Fail> {
    let freed = only(alloc, 7)?;
    let space = space_of(trial.part()?.finish(&freed)?, unwritten, written)?;
    difference_of_free(alloc, space, true, 7)
}

#[test]
fn pages_that_were_drawn_are_free_after_a_parted_holding_is_undone(
    rt: HostRuntime,
) -> Result<(), Fail> {
    let trial = joined_again(rt.alloc())?;
    assert_eq!(rt; difference_of_undone(rt.alloc(), trial)?, None);
    Ok(())
}

#[test]
fn a_page_that_was_written_is_as_it_was_found_after_undo(rt: HostRuntime) -> Result<(), Fail> {
    let trial = written_and_joined_again(rt.alloc())?;
    assert_eq!(rt; difference_of_undone(rt.alloc(), trial)?, None);
    Ok(())
}

#[test]
fn a_commit_leaves_the_pages_as_they_are_now(rt: HostRuntime) -> Result<(), Fail> {
    let trial = joined_again(rt.alloc())?;
    assert_eq!(rt;
        difference_of_finished(rt.alloc(), trial, Some(0), None)?,
        None
    );
    Ok(())
}

#[test]
fn a_page_that_was_written_is_as_it_is_now_after_a_commit(rt: HostRuntime) -> Result<(), Fail> {
    let trial = written_and_joined_again(rt.alloc())?;
    assert_eq!(rt;
        difference_of_finished(rt.alloc(), trial, None, Some(FIRST))?,
        None
    );
    Ok(())
}
