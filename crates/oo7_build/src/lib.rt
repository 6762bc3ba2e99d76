//! Making designs: the random choices of a build and of the jobs that make parts.
//!
//! The layer above may rely on two things. A `Draws` is a generator of `rand_pcg`, and contracts see it as that: `Draws::new`
//! begins it as `begun` of oo7_schema's `Draws` says. `Draws::below` gives exactly the number that `below` says and leaves
//! exactly the generator behind it, so a list of draws is `drawn` of their bounds.
#![tactic(auto)]

mod draws;

pub use draws::Draws;
