//! The calls on files and streams of the system, one each, so that tests can stand in for the system.
ghost use Rattle.std.specs.Prelude.{◌≡◌, ◌≤◌, ℕ, length, take, Option, None, IfOk, OnOk, OnErr};
ghost use Rattle.pm3_disk.specs.Systems.{Moves, Puts, Spot};

use std::fs::{File, OpenFile, OpenOptions};
use std::io;
use std::io::{Read, Seek, SeekFrom, Write};
use std::rt::Files;

/// What gives bytes.
pub(crate) trait Giver {
    /// Reads some bytes into the front of `out`, and answers how many: none at the end.
    fn read(&mut self, out: &mut [u8]) -> io::Result<usize>
        ensures { IfOk result (λ count. count ≤ length out.new) };
}

/// What takes bytes.
pub(crate) trait Taker {
    /// Its bytes, and the position at which it takes more, where it tells them.
    ghost seen: { Self → Option Spot };

    /// Writes some first bytes, and answers how many. Where it fails it has taken none.
    fn write(&mut self, bytes: &[u8]) -> io::Result<usize>
        ensures bound { IfOk result (λ count. count ≤ length bytes.now) }
        ensures put { IfOk result (λ count. Puts (take count bytes.now) (seen self.old) (seen self.new)) }
        ensures refused { OnErr result (seen self.new ≡ seen self.old) };
}

/// An open file, which gives and takes bytes at a position.
pub(crate) trait SystemFile: Giver + Taker {
    /// Begins the next transfer at an offset.
    fn seek(&mut self, at: u64) -> io::Result<()>
        ensures { OnOk result (Moves at (Self.Taker.seen self.old) (Self.Taker.seen self.new)) };

    /// How many bytes there are.
    fn size(&mut self) -> io::Result<u64>;

    /// Leaves the first `len` bytes, or adds zeros.
    fn resize(&mut self, len: u64) -> io::Result<()>;

    /// Waits until its bytes and its length are on the disk.
    fn sync(&mut self) -> io::Result<()>;
}

/// What opens files.
pub(crate) trait System {
    type File: SystemFile + Drop;

    /// Opens the file at a path to read and to write, and makes it where it isn't there.
    fn open(&mut self, path: &str) -> io::Result<Self::File>;

    /// Opens the file or the folder at a path to read.
    fn open_to_read(&mut self, path: &str) -> io::Result<Self::File>;
}

/// The system that the program runs on.
#[derive(Drop)]
pub(crate) struct Host<R: Files + Drop> {
    pub(crate) rt: R,
}

impl<R: Files + Drop> System for Host<R> {
    type File = Handle<R::File>;

    fn open(&mut self, path: &str) -> io::Result<Handle<R::File>> {
        let inner = OpenOptions::new()
            .read(true)
            .write(true)
            .create(true)
            .open(&self.rt, path)?;
        Ok(Handle { inner })
    }

    fn open_to_read(&mut self, path: &str) -> io::Result<Handle<R::File>> {
        let inner = File::open(&self.rt, path)?;
        Ok(Handle { inner })
    }
}

/// A file or a stream of that system. It tells nothing.
#[derive(Drop)]
pub(crate) struct Handle<T> {
    pub(crate) inner: T,
}

impl<T: Read> Giver for Handle<T> {
    fn read(&mut self, out: &mut [u8]) -> io::Result<usize> {
        self.inner.read(out)
    }
}

impl<T: Write> Taker for Handle<T> {
    ghost seen = { λ _. None };

    fn write(&mut self, bytes: &[u8]) -> io::Result<usize> {
        self.inner.write(bytes)
    }
}

impl<T: Read + Write + Seek + OpenFile> SystemFile for Handle<T> {
    fn seek(&mut self, at: u64) -> io::Result<()> {
        self.inner.seek(SeekFrom::Start(at))?;
        Ok(())
    }

    fn size(&mut self) -> io::Result<u64> {
        Ok(self.inner.metadata()?.len())
    }

    fn resize(&mut self, len: u64) -> io::Result<()> {
        self.inner.set_len(len)
    }

    fn sync(&mut self) -> io::Result<()> {
        self.inner.sync_all()
    }
}
