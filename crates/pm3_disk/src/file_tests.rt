//! Files and streams of the system.
use crate::{Disk, Failed, FileDisk, Reader, Sink, Source, StdSink, StdSource};
use std::fmt::Display;
use std::io::ErrorKind;
use std::rt::Files;
use std::test::Fail;
use std::{fs, io};

fn is_send<T: Send>(_value: &T) {}

fn has<D: Disk>(disk: &mut D, at: u64, want: &str) -> bool {
    let mut out = [0; 4];
    match disk.read_at(at, &mut out) {
        Ok(count) => &out[..count] == want.as_bytes(),
        Err(Failed) => false,
    }
}

fn reads<R: Reader>(reader: &mut R, at: u64, want: &str) -> bool {
    let mut out = [0; 4];
    match reader.read_at(at, &mut out) {
        Ok(count) => &out[..count] == want.as_bytes(),
        Err(Failed) => false,
    }
}

fn has_len<D: Disk>(disk: &mut D, len: u64) -> bool {
    disk.len() == Ok(len)
}

fn cuts<D: Disk>(disk: &mut D, len: u64) -> bool {
    disk.cut(len).is_ok()
}

fn writes<R: Files + Clone + Drop>(disk: &mut FileDisk<R>, at: u64, bytes: &str) -> bool {
    disk.write_at(at, bytes.as_bytes()).is_ok()
}

fn syncs<D: Disk>(disk: &mut D) -> bool {
    disk.sync().is_ok()
}

#[test]
fn a_file_keeps_what_is_written(rt: HostRuntime) -> Result<(), Fail> {
    let path = "pm3_disk_kept.bytes";
    let _ = fs::remove_file(&rt, path);
    let Ok(mut disk) = FileDisk::at(&rt, rt.alloc(), path) else {
        return Err("no memory".into());
    };
    is_send(&disk);
    assert!(rt; has_len(&mut disk, 0));
    assert!(rt; writes(&mut disk, 0, "abcdef") && writes(&mut disk, 4, "WXYZ"));
    assert!(rt; syncs(&mut disk) && has_len(&mut disk, 8));
    let (Ok(mut first), Ok(mut second)) = (disk.reader(), disk.reader()) else {
        return Err("no reader".into());
    };
    is_send(&first);
    assert!(rt; reads(&mut first, 2, "cdWX"));
    assert!(rt; reads(&mut second, 6, "YZ"));
    assert!(rt; reads(&mut first, 8, ""));
    disk.absorb(first);
    disk.absorb(second);
    assert!(rt; cuts(&mut disk, 20) && has_len(&mut disk, 8));
    assert!(rt; cuts(&mut disk, 3) && has(&mut disk, 1, "bc"));
    fs::remove_file(&rt, path)?;
    Ok(())
}

#[test]
fn a_missing_folder_is_a_fault_of_each_call(rt: HostRuntime) -> Result<(), Fail> {
    let Ok(mut disk) = FileDisk::at(&rt, rt.alloc(), "pm3_disk_no_such_folder/file") else {
        return Err("no memory".into());
    };
    assert!(rt; !has_len(&mut disk, 0));
    assert!(rt; !has(&mut disk, 0, ""));
    assert!(rt; !writes(&mut disk, 0, "a"));
    assert!(rt; !cuts(&mut disk, 0));
    assert!(rt; !syncs(&mut disk));
    assert!(rt; disk.reader().is_err());
    Ok(())
}

#[test]
fn the_standard_streams_answer(rt: HostRuntime) -> Result<(), Fail> {
    let (Ok(mut source), Ok(mut sink)) = (StdSource::new(&rt), StdSink::new(&rt)) else {
        return Err("no memory".into());
    };
    assert_eq!(rt; source.read(&mut []), Ok(0));
    assert_eq!(rt; sink.write(b"standard output\n"), Ok(16));
    Ok(())
}

/// A runtime that prints at most three bytes at a time, and keeps none.
#[derive(Clone, Copy, Drop)]
struct ThreeAtATime;

impl Print for ThreeAtATime {
    fn print<D: Display + Drop>(&self, _value: D) -> io::Result<()> {
        Err(io::Error::from(ErrorKind::Unsupported))
    }

    fn println<D: Display + Drop>(&self, _value: D) -> io::Result<()> {
        Err(io::Error::from(ErrorKind::Unsupported))
    }

    fn write_all(&self, _bytes: &[u8]) -> io::Result<()> {
        Err(io::Error::from(ErrorKind::Unsupported))
    }

    fn write_some(&self, bytes: &[u8]) -> io::Result<usize> {
        if bytes.len() == 13 {
            return Err(io::Error::from(ErrorKind::Unsupported));
        }
        Ok(bytes.len().min(3))
    }
}

#[test]
fn standard_output_is_asked_to_take_each_piece(rt: HostRuntime) -> Result<(), Fail> {
    let Ok(mut sink) = StdSink::new(&ThreeAtATime) else {
        return Err("no memory".into());
    };
    assert_eq!(rt; sink.write(b"five!"), Ok(3));
    assert_eq!(rt; sink.write(b"thirteen.byte"), Err(Failed));
    Ok(())
}
