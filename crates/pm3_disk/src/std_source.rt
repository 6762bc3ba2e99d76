//! Standard input as a source.
ghost use Rattle.std.specs.Prelude.{None};

use crate::Memory;
use crate::outside::{Failed, Source};
use crate::system::Handle;
use crate::transfer::{counted, read_some};

/// Standard input, read in pieces as large as its caller asks for. It tells no content.
#[derive(Drop)]
pub struct StdSource<R: Input + Clone + Drop> {
    rt: R,
    faults: u64,
}

impl<R: Input + Clone + Drop> StdSource<R> {
    /// Reads by a copy of this handle.
    pub fn new(rt: &R) -> Result<StdSource<R>, Memory> {
        Ok(StdSource {
            rt: rt.clone()?,
            faults: 0,
        })
    }
}

impl<R: Input + Clone + Drop> Source for StdSource<R> {
    ghost left = { λ _. None };

    ghost faults = { λ s. s.faults };

    fn read(&mut self, out: &mut [u8]) -> Result<usize, Failed> {
        let mut input = Handle {
            inner: self.rt.reader(),
        };
        let answer = read_some(&mut input, out);
        counted(&mut self.faults, answer)
    }
}
