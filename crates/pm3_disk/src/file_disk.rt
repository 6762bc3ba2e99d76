//! A disk that is a file.
ghost use Rattle.std.specs.Prelude.{None};

use crate::Memory;
use crate::file_reader::FileReader;
use crate::link::Link;
use crate::outside::{Disk, Failed};
use crate::system::Host;
use crate::transfer::counted;
use std::alloc::Global;
use std::rt::Files;

/// A disk that is a file of the system. It tells no content: what the system does with the bytes is trusted.
#[derive(Drop)]
pub struct FileDisk<R: Files + Clone + Drop> {
    link: Link<Host<R>>,
    faults: u64,
}

impl<R: Files + Clone + Drop> FileDisk<R> {
    ghost use Rattle.std.specs.Prelude.{◌≡◌, IfOk};
    ghost use Rattle.pm3_disk.specs.Paths.{path_of};

    /// The file at a path. It is opened, or made, at the first call, and a failure to open is a fault of that
    /// call.
    pub fn at(rt: &R, alloc: Global, path: &str) -> Result<FileDisk<R>, Memory>
        ensures { IfOk result (λ disk. path_of disk ≡ path.now) }
    {
        Ok(FileDisk {
            link: Link::at(alloc, Host { rt: rt.clone()? }, path)?,
            faults: 0,
        })
    }
}

impl<R: Files + Clone + Drop> Disk for FileDisk<R> {
    type Reader = FileReader<R>;

    ghost content = { λ _. None };

    ghost faults = { λ d. d.faults };

    ghost moment = { λ _. 0 };

    ghost may_leave = { λ _ _ _. ⊥ };

    fn len(&mut self) -> Result<u64, Failed> {
        let answer = self.link.len();
        counted(&mut self.faults, answer)
    }

    fn read_at(&mut self, at: u64, out: &mut [u8]) -> Result<usize, Failed> {
        let answer = self.link.read_at(at, out);
        counted(&mut self.faults, answer)
    }

    fn write_at(&mut self, at: u64, bytes: &[u8]) -> Result<(), Failed> {
        let answer = self.link.write_at(at, bytes);
        counted(&mut self.faults, answer)
    }

    fn cut(&mut self, len: u64) -> Result<(), Failed> {
        let answer = self.link.cut(len);
        counted(&mut self.faults, answer)
    }

    fn sync(&mut self) -> Result<(), Failed> {
        let answer = self.link.sync();
        counted(&mut self.faults, answer)
    }

    fn reader(&mut self) -> Result<FileReader<R>, Failed> {
        let answer = self.link.second();
        match counted(&mut self.faults, answer) {
            Ok(file) => Ok(FileReader::new(file)),
            Err(failed) => Err(failed),
        }
    }

    fn absorb(&mut self, reader: FileReader<R>) {
        self.faults = self.faults.saturating_add(reader.faults());
    }

    ghost leaves_what_it_reads = { λ disk bytes told. Prim.cc told };
}
