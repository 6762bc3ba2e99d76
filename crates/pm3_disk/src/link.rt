//! A path, and the file that it leads to.
ghost use Rattle.std.specs.Prelude.{◌≡◌, ◌≤◌, length, string_bytes, IfOk};

use crate::Memory;
use crate::system::{System, SystemFile};
use crate::transfer::{read_from, write_to};
use std::alloc::Global;
use std::io;
use std::path::Path;

/// A file of a system that is opened, or made, at the first call.
#[derive(Drop)]
pub(crate) struct Link<S: System + Drop> {
    pub(crate) system: S,
    /// Where the file is.
    pub(crate) path: String,
    /// The open file, from the first call on that could open it.
    pub(crate) file: Option<S::File>,
    /// Whether the file's entry in its folder was synced.
    is_in_folder: bool,
}

impl<S: System + Drop> Link<S> {
    /// A file at a path, which is not opened yet.
    pub(crate) fn at(alloc: Global, system: S, path: &str) -> Result<Link<S>, Memory>
        ensures { IfOk result (λ link. string_bytes link.path ≡ path.now) }
    {
        Ok(Link {
            system,
            path: String::from_str(alloc, path)?,
            file: None,
            is_in_folder: false,
        })
    }

    /// The open file. Where it cannot be opened each call tries again, and fails.
    fn open(&mut self) -> io::Result<&mut S::File> {
        if self.file.is_none() {
            let file = self.system.open(self.path.as_str())?;
            self.file = Some(file);
        }
        match &mut self.file {
            Some(file) => Ok(file),
            None => Err(io::Error::from(io::ErrorKind::NotFound)),
        }
    }

    /// How many bytes the file has.
    pub(crate) fn len(&mut self) -> io::Result<u64> {
        self.open()?.size()
    }

    /// Reads at an offset, in as many pieces as the system gives.
    pub(crate) fn read_at(&mut self, at: u64, out: &mut [u8]) -> io::Result<usize>
        ensures { IfOk result (λ count. count ≤ length out.new) }
    {
        read_from(self.open()?, at, out)
    }

    /// Writes at an offset, in as many pieces as the system takes.
    pub(crate) fn write_at(&mut self, at: u64, bytes: &[u8]) -> io::Result<()> {
        write_to(self.open()?, at, bytes)
    }

    /// Shortens a longer file, and leaves a shorter one as it is.
    pub(crate) fn cut(&mut self, len: u64) -> io::Result<()> {
        let file = self.open()?;
        if file.size()? > len {
            file.resize(len)?;
        }
        Ok(())
    }

    /// Waits until the file's bytes and length are on the disk, and the first time also its entry in its folder: else
    /// a crash could leave the disk without the file's name.
    pub(crate) fn sync(&mut self) -> io::Result<()> {
        self.open()?.sync()?;
        if !self.is_in_folder {
            let folder = folder_of(self.path.as_str());
            self.system.open_to_read(folder.as_str())?.sync()?;
            self.is_in_folder = true;
        }
        Ok(())
    }

    /// A second handle of the file, for reading.
    pub(crate) fn second(&mut self) -> io::Result<S::File> {
        self.open()?;
        self.system.open_to_read(self.path.as_str())
    }
}

// The folder in which a path's last name stands.
fn folder_of(path: &str) -> Path<'_> {
    match Path::new(path).parent() {
        Some(folder) if !folder.as_str().is_empty() => folder,
        _ => Path::new("."),
    }
}
