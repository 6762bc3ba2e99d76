//! Files of a system that records what it is asked for.
ghost use Rattle.std.specs.Prelude.{None};

use crate::link::Link;
use crate::system::{Giver, System, SystemFile, Taker};
use crate::transfer::{read_from, write_to};
use std::alloc::Global;
use std::cell::Cell;
use std::io;
use std::io::ErrorKind;
use std::process::Abort;
use std::test::Fail;

/// What a path leads to.
#[derive(Clone, Copy, Debug, PartialEq, Eq)]
enum Kind {
    File,
    Folder,
}

/// A call that the system was asked for.
#[derive(Clone, Copy, Debug, PartialEq, Eq)]
enum Asked {
    Open,
    OpenToRead(Kind),
    Seek(u64),
    Read(usize),
    Write(usize),
    Size,
    Resize(u64),
    Sync(Kind),
}

/// The first calls, in order.
#[derive(Clone, Copy)]
struct Log {
    calls: [Option<Asked>; 6],
    count: usize,
}

const EMPTY: Log = Log {
    calls: [None; 6],
    count: 0,
};

fn note(log: &Cell<Log>, asked: Asked) {
    let mut noted = log.get();
    if noted.count < 6 {
        noted.calls[noted.count] = Some(asked);
        noted.count += 1;
    }
    log.set(noted);
}

/// A system with one folder, `data`, and one file of ten bytes in it.
#[derive(Drop)]
struct Recorder<'a> {
    log: &'a Cell<Log>,
}

impl<'a> System for Recorder<'a> {
    type File = Recorded<'a>;

    fn open(&mut self, path: &str) -> io::Result<Recorded<'a>> {
        if path != "data/file" {
            return Err(io::Error::from(ErrorKind::NotFound));
        }
        note(self.log, Asked::Open);
        Ok(Recorded {
            log: self.log,
            kind: Kind::File,
        })
    }

    fn open_to_read(&mut self, path: &str) -> io::Result<Recorded<'a>> {
        let kind = match path {
            "data/file" => Kind::File,
            "data" => Kind::Folder,
            _ => return Err(io::Error::from(ErrorKind::NotFound)),
        };
        note(self.log, Asked::OpenToRead(kind));
        Ok(Recorded {
            log: self.log,
            kind,
        })
    }
}

/// An open file or folder of that system.
#[derive(Drop)]
struct Recorded<'a> {
    log: &'a Cell<Log>,
    kind: Kind,
}

impl Giver for Recorded<'_> {
    fn read(&mut self, out: &mut [u8]) -> io::Result<usize> {
        note(self.log, Asked::Read(out.len()));
        Ok(out.len())
    }
}

impl Taker for Recorded<'_> {
    ghost seen = { λ _. None };

    fn write(&mut self, bytes: &[u8]) -> io::Result<usize> {
        note(self.log, Asked::Write(bytes.len()));
        Ok(bytes.len())
    }
}

impl SystemFile for Recorded<'_> {
    fn seek(&mut self, at: u64) -> io::Result<()> {
        note(self.log, Asked::Seek(at));
        Ok(())
    }

    fn size(&mut self) -> io::Result<u64> {
        note(self.log, Asked::Size);
        Ok(10)
    }

    fn resize(&mut self, len: u64) -> io::Result<()> {
        note(self.log, Asked::Resize(len));
        Ok(())
    }

    fn sync(&mut self) -> io::Result<()> {
        note(self.log, Asked::Sync(self.kind));
        Ok(())
    }
}

fn link(alloc: Global, log: &Cell<Log>) -> Result<Link<Recorder<'_>>, Fail> {
    match Link::at(alloc, Recorder { log }, "data/file") {
        Ok(link) => Ok(link),
        Err(_) => Err("no memory".into()),
    }
}

fn expect(rt: &impl Abort, log: &Cell<Log>, calls: &[Asked]) {
    let noted = log.get();
    assert_eq!(rt; noted.count, calls.len());
    for (was, is) in noted.calls.iter().zip(calls) {
        assert_eq!(rt; *was, Some(*is));
    }
}

#[test]
fn a_sync_is_one_of_the_file_and_at_first_of_its_folder(rt: HostRuntime) -> Result<(), Fail> {
    let log = Cell::new(EMPTY);
    let mut link = link(rt.alloc(), &log)?;
    link.sync()?;
    link.sync()?;
    let folder = Asked::OpenToRead(Kind::Folder);
    let (file_synced, folder_synced) = (Asked::Sync(Kind::File), Asked::Sync(Kind::Folder));
    expect(
        &rt,
        &log,
        &[Asked::Open, file_synced, folder, folder_synced, file_synced],
    );
    Ok(())
}

#[test]
fn a_write_is_at_its_offset_and_of_its_length(rt: HostRuntime) -> Result<(), Fail> {
    let log = Cell::new(EMPTY);
    link(rt.alloc(), &log)?.write_at(5, b"abc")?;
    expect(&rt, &log, &[Asked::Open, Asked::Seek(5), Asked::Write(3)]);
    Ok(())
}

#[test]
fn a_read_is_at_its_offset_and_of_its_length(rt: HostRuntime) -> Result<(), Fail> {
    let log = Cell::new(EMPTY);
    let count = link(rt.alloc(), &log)?.read_at(7, &mut [0; 4])?;
    assert_eq!(rt; count, 4);
    expect(&rt, &log, &[Asked::Open, Asked::Seek(7), Asked::Read(4)]);
    Ok(())
}

#[test]
fn only_a_longer_file_is_cut(rt: HostRuntime) -> Result<(), Fail> {
    let log = Cell::new(EMPTY);
    let mut link = link(rt.alloc(), &log)?;
    link.cut(9)?;
    link.cut(10)?;
    assert_eq!(rt; link.len()?, 10);
    expect(
        &rt,
        &log,
        &[
            Asked::Open,
            Asked::Size,
            Asked::Resize(9),
            Asked::Size,
            Asked::Size,
        ],
    );
    Ok(())
}

#[test]
fn a_second_handle_reads_the_same_file(rt: HostRuntime) -> Result<(), Fail> {
    let log = Cell::new(EMPTY);
    let _second = link(rt.alloc(), &log)?.second()?;
    expect(&rt, &log, &[Asked::Open, Asked::OpenToRead(Kind::File)]);
    Ok(())
}

// A file of three bytes that gives and takes one at a time, and is interrupted so often before each.
#[derive(Drop)]
struct Slow {
    bytes: [u8; 3],
    at: usize,
    interrupts: u32,
    left: u32,
}

impl Slow {
    fn wait(&mut self) -> io::Result<()> {
        if self.left == 0 {
            self.left = self.interrupts;
            return Ok(());
        }
        self.left -= 1;
        Err(io::Error::from(ErrorKind::Interrupted))
    }
}

impl Giver for Slow {
    fn read(&mut self, out: &mut [u8]) -> io::Result<usize> {
        self.wait()?;
        if self.at >= 3 || out.is_empty() {
            return Ok(0);
        }
        out[0] = self.bytes[self.at];
        self.at += 1;
        Ok(1)
    }
}

impl Taker for Slow {
    ghost seen = { λ _. None };

    fn write(&mut self, bytes: &[u8]) -> io::Result<usize> {
        self.wait()?;
        if self.at >= 3 || bytes.is_empty() {
            return Ok(0);
        }
        self.bytes[self.at] = bytes[0];
        self.at += 1;
        Ok(1)
    }
}

impl SystemFile for Slow {
    fn seek(&mut self, at: u64) -> io::Result<()> {
        self.at = at as usize;
        Ok(())
    }

    fn size(&mut self) -> io::Result<u64> {
        Ok(3)
    }

    fn resize(&mut self, _len: u64) -> io::Result<()> {
        Err(io::Error::from(ErrorKind::Unsupported))
    }

    fn sync(&mut self) -> io::Result<()> {
        Ok(())
    }
}

fn make_slow(interrupts: u32) -> Slow {
    Slow {
        bytes: *b"abc",
        at: 0,
        interrupts,
        left: interrupts,
    }
}

#[test]
fn a_transfer_goes_on_where_it_was_cut_short(rt: HostRuntime) -> Result<(), Fail> {
    let mut file = make_slow(2);
    let mut out = [0; 4];
    assert_eq!(rt; read_from(&mut file, 1, &mut out)?, 2);
    assert_eq!(rt; out, *b"bc\0\0");
    write_to(&mut file, 0, b"XY")?;
    assert_eq!(rt; file.bytes, *b"XYc");
    assert!(rt; write_to(&mut file, 2, b"ZZ").is_err());
    let mut stuck = make_slow(u32::MAX);
    assert!(rt; read_from(&mut stuck, 0, &mut out).is_err());
    Ok(())
}
