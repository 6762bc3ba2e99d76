//! What each size of a design says.
ghost use Rattle.std.specs.Prelude.{◌≡◌};
ghost use Rattle.oo7_schema.specs.Sizes.{params_of, large as large_params};

use crate::sizes::{Params, Size};

/// What a size says of a design.
pub fn params(size: Size) -> Params
    ensures { result ≡ params_of size }
{
    match size {
        Size::Tiny => Params {
            levels: 3,
            composites: 10,
            atomics: 4,
            connections: 3,
            document: 200,
            manual: 1_000,
        },
        Size::Small => large(20, 3, 2_000, 100_000),
        Size::Small6 => large(20, 6, 2_000, 100_000),
        Size::Small9 => large(20, 9, 2_000, 100_000),
        Size::Medium => large(200, 3, 20_000, 1_000_000),
    }
}

/// A size of seven levels and 500 composite parts.
fn large(atomics: u32, connections: u32, document: u32, manual: u32) -> Params
    ensures { result ≡ large_params atomics connections document manual }
{
    Params {
        levels: 7,
        composites: 500,
        atomics,
        connections,
        document,
        manual,
    }
}
