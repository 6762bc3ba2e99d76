//! Steps of a holding under trial, as data: a test is a list of steps, each with what it has to answer.
use super::*;
use crate::trials::Trial;
use pm3_page::{Addr, PageNo};
use pm3_types::TypeNo;
use std::test::Fail;

/// A page as it stands in a file.
#[derive(Clone, Copy)]
pub(crate) enum FilePage {
    /// Page 2 of a new store: all slots are nil.
    Roots,
    /// Page 4 with one object of two fields and no tail, under the name 1.
    Object,
}

/// A call on what is held, with what it has to answer.
#[derive(Clone, Copy)]
pub(crate) enum Step {
    /// A page of a file is held alone.
    Admits(FilePage),
    /// A blank page is drawn.
    Draws(PageNo),
    /// A page is added to the free ones.
    AddsFree(PageNo),
    /// The least free page is taken out, which is this one or none.
    TakesFree(Option<PageNo>),
    /// An object of this type, with a tail of this length and this name, lies there or nowhere.
    Makes(TypeNo, u32, u64, Option<Addr>),
    /// A place of an object has this value, or there is no such place.
    Reads(Addr, Place, Option<u64>),
    /// A value is written to a place of an object.
    Writes(Addr, Place, u64),
    /// The same, where there is no such place.
    Refuses(Addr, Place, u64),
    /// A root slot has this address.
    ReadsRoot(u32, Addr),
    /// An address is written to a root slot.
    WritesRoot(u32, Addr),
    /// Whether the page is held alone.
    Has(PageNo, bool),
    /// Whether a space is held.
    HasSpace(bool),
}

/// Whether the call answers as it has to.
fn agrees(trial: &mut Trial, step: Step) -> Result<bool, Fail> {
    match step {
        Step::Admits(page) => {
            admit(trial, page)?;
            Ok(true)
        }
        Step::Draws(page) => {
            trial.grow(page)?;
            Ok(true)
        }
        Step::AddsFree(page) => {
            trial.add_free(page)?;
            Ok(true)
        }
        Step::TakesFree(page) => Ok(trial.least_free()? == page),
        Step::Makes(ty, tail, name, at) => Ok(trial.make(ty, tail, name)? == at),
        Step::Reads(at, place, value) => Ok(trial.read(at, place)? == value),
        Step::Writes(at, place, value) => trial.write(at, place, value),
        Step::Refuses(at, place, value) => Ok(!trial.write(at, place, value)?),
        Step::ReadsRoot(slot, at) => Ok(trial.root(slot)? == at),
        Step::WritesRoot(slot, at) => {
            trial.set_root(slot, at)?;
            Ok(true)
        }
        Step::Has(page, answer) => Ok(trial.has(page) == answer),
        Step::HasSpace(answer) => Ok(trial.has_space() == answer),
    }
}

/// The first of the steps that answers otherwise.
fn first_difference(trial: &mut Trial, steps: &[Step]) -> Result<Option<usize>, Fail> {
    for i in 0..steps.len() {
        if !agrees(trial, steps[i])? {
            return Ok(Some(i));
        }
    }
    Ok(None)
}

/// The same, and what is held is let go.
pub(crate) fn difference(mut trial: Trial, steps: &[Step]) -> Result<Option<usize>, Fail> {
    first_difference(&mut trial, steps)
}

/// What is held after all steps have answered as they have to.
pub(crate) fn after(mut trial: Trial, steps: &[Step]) -> Result<Trial, Fail> {
    match first_difference(&mut trial, steps) {
        Ok(None) => Ok(trial),
        Ok(Some(_)) => Err(Fail::from("a step answers otherwise")),
        Err(fail) => Err(fail),
    }
}

/// Holds a page of a file alone.
fn admit(trial: &mut Trial, page: FilePage) -> Result<(), Fail> {
    match page {
        FilePage::Roots => trial.admit(2, &page_bytes(2, 18, 0)),
        FilePage::Object => trial.admit(4, &page_bytes(4, 6, 1)),
    }
}

/// The bytes of a page of a file that has so many words in use, and this name in the head of its first object.
fn page_bytes(page: u8, used: u8, name: u8) -> [u8; 4096] {
    let mut bytes = [0u8; 4096];
    bytes[0] = page;
    bytes[4] = used;
    bytes[24] = name;
    bytes
}
