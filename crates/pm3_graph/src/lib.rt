//! Operations on graphs, and a plain heap that does them.
//!
//! The layer above may rely on three things. What an operation does to a graph, what it answers, and when there is no such
//! step, is `outcome` of specs/, a function with one case for each operation, and `Plain::apply` does exactly that on a graph
//! that it keeps in an ordered map. After a refusal the graph is as it was. A step on a part of a graph is a step, with the same
//! answer, on the whole graph, and so is a run of operations: `frame` and `frame_of_runs` are these laws.
#![tactic(auto)]

// Operations, and laws of the steps that they are.
mod laws;
mod operations;

// The plain heap.
mod kept;
mod plain;
mod records;
#[cfg(test)]
mod tests;

pub use laws::{frame, frame_of_runs, kept_by_steps, written_places};
pub use operations::{Op, PlainFault};
pub use plain::Plain;
