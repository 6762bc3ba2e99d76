//! Calls that succeed with ample memory, and addresses and answers that were worked out by hand.
use super::*;
use crate::trial_ends::{difference_again, shows, space_of};
use crate::trial_steps::{FilePage, Step, after, difference};
use crate::trial_types::CHUNK;
use crate::trials::Trial;
use pm3_page::{Addr, BASE};
use std::test::Fail;

/// The first word behind the head of page 3.
const OBJECT: Addr = BASE + 4096 * 3 + 16;

#[test]
fn objects_are_placed_on_the_page_that_was_drawn(rt: HostRuntime) -> Result<(), Fail> {
    let steps = [
        Step::Makes(CHUNK, 0, 1, None),
        Step::Makes(CHUNK, 3072, 2, None),
        Step::Makes(CHUNK, 3072, 3, None),
        Step::Draws(3),
        Step::Makes(CHUNK, 0, 1, Some(OBJECT)),
        Step::Makes(CHUNK, 3072, 2, Some(OBJECT + 24)),
        Step::Makes(CHUNK, 3072, 3, None),
    ];
    assert_eq!(rt; difference(Trial::over_new(rt.alloc(), 0)?, &steps)?, None);
    Ok(())
}

#[test]
fn pages_that_were_drawn_are_free_after_undo(rt: HostRuntime) -> Result<(), Fail> {
    let draws = [Step::Draws(5), Step::Draws(3)];
    let undone = after(Trial::over_new(rt.alloc(), 0)?, &draws)?.undo();
    let space = space_of(undone, None, None)?;
    let steps = [
        Step::TakesFree(Some(3)),
        Step::TakesFree(Some(5)),
        Step::TakesFree(None),
    ];
    assert_eq!(rt;
        difference_again(rt.alloc(), space, &[3, 5], false, &steps)?,
        None
    );
    Ok(())
}

#[test]
fn a_page_is_given_back_as_it_was_taken(rt: HostRuntime) -> Result<(), Fail> {
    let steps = [
        Step::Admits(FilePage::Object),
        Step::Has(4, true),
        Step::Has(3, false),
        Step::HasSpace(false),
    ];
    let undone = after(Trial::empty(rt.alloc())?, &steps)?.undo();
    assert!(rt; shows(&undone.pages, Some(0)));
    assert!(rt; shows(&undone.written, None));
    assert!(rt; undone.space.is_none());
    Ok(())
}

#[test]
fn free_pages_are_taken_in_rising_order(rt: HostRuntime) -> Result<(), Fail> {
    let steps = [
        Step::HasSpace(true),
        Step::AddsFree(9),
        Step::AddsFree(4),
        Step::TakesFree(Some(4)),
        Step::TakesFree(Some(9)),
        Step::TakesFree(None),
    ];
    assert_eq!(rt; difference(Trial::over_new(rt.alloc(), 7)?, &steps)?, None);
    Ok(())
}

#[test]
fn a_root_is_read_as_it_was_written(rt: HostRuntime) -> Result<(), Fail> {
    let steps = [
        Step::Admits(FilePage::Roots),
        Step::ReadsRoot(3, 0),
        Step::WritesRoot(3, OBJECT),
        Step::ReadsRoot(3, OBJECT),
        Step::ReadsRoot(4, 0),
    ];
    assert_eq!(rt; difference(Trial::empty(rt.alloc())?, &steps)?, None);
    Ok(())
}
