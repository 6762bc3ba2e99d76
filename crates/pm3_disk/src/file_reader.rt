//! A reader of a file.
ghost use Rattle.std.specs.Prelude.{◌≡◌, None};

use crate::outside::{Failed, Reader};
use crate::system::Handle;
use crate::transfer::{counted, read_from};
use std::rt::Files;

/// Reads a file through a handle of its own. It tells no content.
#[derive(Drop)]
pub struct FileReader<R: Files> {
    file: Handle<R::File>,
    faults: u64,
}

impl<R: Files> FileReader<R> {
    pub(crate) fn new(file: Handle<R::File>) -> FileReader<R>
        ensures { result.faults ≡ 0 }
    {
        FileReader { file, faults: 0 }
    }

    pub(crate) fn faults(&self) -> u64
        ensures { result ≡ self.now.faults }
    {
        self.faults
    }
}

impl<R: Files> Reader for FileReader<R> {
    ghost content = { λ _. None };

    ghost faults = { λ r. r.faults };

    fn read_at(&mut self, at: u64, out: &mut [u8]) -> Result<usize, Failed> {
        let answer = read_from(&mut self.file, at, out);
        counted(&mut self.faults, answer)
    }
}
