//! The five sizes of a design.

/// A size of a design. A module names it by its place in this list, from 0.
#[derive(Clone, Copy, Debug, PartialEq, Eq)]
pub enum Size {
    /// Three levels and ten composite parts.
    Tiny,
    /// Seven levels and 500 composite parts of twenty atomic parts each.
    Small,
    /// As `Small`, with six connections of each atomic part.
    Small6,
    /// As `Small`, with nine connections of each atomic part.
    Small9,
    /// As `Small`, with 200 atomic parts in each composite part and longer texts.
    Medium,
}

/// What a size says.
#[derive(Clone, Copy, Debug, PartialEq, Eq)]
pub struct Params {
    /// The levels of assemblies, that of the base assemblies among them.
    pub levels: u32,
    /// The composite parts.
    pub composites: u32,
    /// The atomic parts of each composite part.
    pub atomics: u32,
    /// The connections of each atomic part.
    pub connections: u32,
    /// The bytes of each document.
    pub document: u32,
    /// The bytes of the manual.
    pub manual: u32,
}
