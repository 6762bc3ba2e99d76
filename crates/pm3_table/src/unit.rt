//! The units of a table, and how a try on one is refused.
use std::fmt;
use thiserror::Error;

/// A page, a space of volatile pages, or the turn to commit.
#[derive(Debug, PartialEq, Eq, Clone, Copy, Drop)]
pub enum Unit {
    Page(u32),
    Space(u32),
    Turn,
}

impl fmt::Display for Unit {
    fn fmt<W: fmt::Write>(&self, f: &mut fmt::Formatter<W>) -> fmt::Result {
        match self {
            Unit::Page(page) => write!(f, "page {page}"),
            Unit::Space(space) => write!(f, "space {space}"),
            Unit::Turn => f.write_str("the turn"),
        }
    }
}

/// A unit was refused: its word shows another holder, or the word of a page shows a mark.
#[derive(Debug, PartialEq, Eq, Clone, Copy, Drop, Error)]
#[error("{unit} is held by another mutator, or marked: its word is {word}")]
pub struct Busy {
    pub unit: Unit,
    pub word: u64,
}

/// What can be used up.
#[derive(Debug, PartialEq, Eq, Clone, Copy, Drop)]
pub enum Limit {
    Pages,
    Names,
    Rows,
    Journal,
}

impl fmt::Display for Limit {
    fn fmt<W: fmt::Write>(&self, f: &mut fmt::Formatter<W>) -> fmt::Result {
        f.write_str(match self {
            Limit::Pages => "pages",
            Limit::Names => "names",
            Limit::Rows => "rows",
            Limit::Journal => "bytes of the journal",
        })
    }
}

/// It is used up: the limit was reached.
#[derive(Debug, PartialEq, Eq, Clone, Copy, Drop, Error)]
#[error("all {limit} {what} are used up")]
pub struct Full {
    pub what: Limit,
    pub limit: u64,
}
