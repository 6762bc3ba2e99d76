//! The jobs on a design, as a job list names them.

/// What T2 and T3 change at each visit of a composite part.
#[derive(Clone, Copy, Debug, PartialEq, Eq)]
pub enum Extent {
    /// The root part.
    A,
    /// Each part that the visit meets.
    B,
    /// Each part that the visit meets, four times.
    C,
}

/// A traversal.
#[derive(Clone, Copy, Debug, PartialEq, Eq)]
pub enum Walk {
    /// Counts the parts of all visits.
    T1,
    /// Swaps x and y of parts.
    T2(Extent),
    /// Turns the dates of parts.
    T3(Extent),
    /// Counts the visits.
    T6,
    /// Counts a byte of the manual.
    T8,
    /// Compares the first and the last byte of the manual.
    T9,
}

/// A query; a number is the seed of its draws.
#[derive(Clone, Copy, Debug, PartialEq, Eq)]
pub enum Query {
    /// Sums x over atomic parts with drawn ids.
    Q1(u64),
    /// Counts the atomic parts of ten years.
    Q2,
    /// Counts the atomic parts of a hundred years.
    Q3,
    /// Counts the base assemblies that use the composite parts of drawn documents.
    Q4(u64),
    /// Counts the base assemblies that use a younger composite part.
    Q5,
    /// Counts the atomic parts.
    Q7,
}

/// A job; a number is the seed of its draws.
#[derive(Clone, Copy, Debug, PartialEq, Eq)]
pub enum Job {
    /// A traversal.
    Traverse(Walk),
    /// A query.
    Ask(Query),
    /// Makes up to five composite parts.
    Insert(u64),
    /// Takes out up to five composite parts.
    Delete(u64),
}
