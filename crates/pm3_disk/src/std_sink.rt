//! Standard output as a sink.
ghost use Rattle.std.specs.Prelude.{None};

use crate::Memory;
use crate::outside::{Failed, Sink};
use crate::system::Handle;
use crate::transfer::{counted, write_some};
use std::io;

/// Standard output. It tells no content.
#[derive(Drop)]
pub struct StdSink<R: Print + Clone + Drop> {
    rt: R,
    faults: u64,
}

impl<R: Print + Clone + Drop> StdSink<R> {
    /// Writes by a copy of this handle.
    pub fn new(rt: &R) -> Result<StdSink<R>, Memory> {
        Ok(StdSink {
            rt: rt.clone()?,
            faults: 0,
        })
    }
}

impl<R: Print + Clone + Drop> Sink for StdSink<R> {
    ghost taken = { λ _. None };

    ghost faults = { λ s. s.faults };

    fn write(&mut self, bytes: &[u8]) -> Result<usize, Failed> {
        let mut out = Handle {
            inner: io::writer(&self.rt),
        };
        let answer = write_some(&mut out, bytes);
        counted(&mut self.faults, answer)
    }
}
