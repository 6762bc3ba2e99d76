//! Random choices.
ghost use Rattle.std.specs.Prelude.{◌≡◌, ◌<◌};
ghost use Rattle.oo7_schema.specs.Draws.{begun, below};

use rand_core::utils::NextWord;
use rand_pcg::Lcg64Xsh32;
use std::marker::Model;

/// A source of numbers that a choice and a stream determine: PCG32 (O'Neill, "PCG: a family of simple fast space-efficient
/// statistically good algorithms for random number generation").
#[derive(Drop)]
pub struct Draws {
    generator: Lcg64Xsh32,
}

impl Model for Draws {
    ghost use Rattle.rand_pcg.specs.Lcg.{Lcg};

    ghost Value = { Lcg };

    ghost view = { λ d. d.generator };
}

impl Draws {
    /// The draws of a choice in a stream.
    pub fn new(choice: u64, stream: u64) -> Draws
        ensures { result ≡ begun choice stream }
    {
        Draws {
            generator: Lcg64Xsh32::new(choice, stream),
        }
    }

    /// The next number, below `n`.
    pub fn below(&mut self, n: u32) -> u32
        requires { 0 < n }
        ensures value { result ≡ (below n self.old).0 }
        ensures next { self.new ≡ (below n self.old).1 }
    {
        self.generator.next_word() % n
    }
}

#[cfg(test)]
mod tests {
    use super::*;
    use std::test::Fail;

    #[test]
    fn the_first_numbers_are_those_of_the_reference_generator(rt: HostRuntime) -> Result<(), Fail> {
        let mut draws = Draws::new(42, 54);
        assert_eq!(rt; draws.below(1_000_000), 0xa15c_02b7 % 1_000_000);
        assert_eq!(rt; draws.below(10), 0x7b47_f409 % 10);
        Ok(())
    }
}
