//! Devices in memory: which calls fail, and what a crash leaves.
use crate::{
    Disk, Failed, Memory, MemoryDisk, MemoryReader, MemorySink, MemorySource, Reader, Sink, Source,
    write_through,
};
use std::alloc::{AllocError, Global};
use std::process::Abort;
use std::test::Fail;

fn disk_of(alloc: Global, content: &[u8], fails: &[u32]) -> Result<MemoryDisk, AllocError> {
    let content = Vec::from_slice(alloc, content)?;
    Ok(MemoryDisk::new(alloc, content, Vec::from_slice(alloc, fails)?))
}

// The next calls of a disk are tried one by one, so that each is looked at by itself.
fn write(rt: &impl Abort, disk: &mut MemoryDisk, at: u64, bytes: &[u8]) -> bool {
    assert!(rt; at <= disk.bytes().len() as u64);
    disk.write_at(at, bytes).is_ok()
}

fn write_last(rt: &impl Abort, disk: &mut MemoryDisk, at: u64, bytes: &[u8]) -> bool {
    assert!(rt; at <= disk.bytes().len() as u64);
    write_through(disk, at, bytes).is_ok()
}

fn leaves(rt: &impl Abort, disk: &MemoryDisk, call: u32, choice: u64, left: &str) -> bool {
    assert!(rt; call < disk.calls());
    match disk.crash(call, choice) {
        Ok(crashed) => crashed.bytes() == left.as_bytes() && crashed.calls() == 0,
        Err(Memory) => false,
    }
}

fn call_kind(rt: &impl Abort, disk: &mut MemoryDisk, kind: u32) -> bool {
    match kind {
        0 => disk.len().is_ok(),
        1 => disk.read_at(4, &mut [0; 4]).is_ok(),
        2 => write(rt, disk, 4, b"WXYZ"),
        3 => disk.cut(7).is_ok(),
        4 => disk.sync().is_ok(),
        _ => disk.reader().is_ok(),
    }
}

#[test]
fn the_listed_call_fails_and_no_other(rt: HostRuntime) -> Result<(), Fail> {
    for (fails, bytes) in [
        (0, "abcdWXY"),
        (1, "abcdWXY"),
        (2, "abcdWX"),
        (3, "abcdWXYZ"),
        (4, "abcdWXY"),
        (5, "abcdWXY"),
        (6, "abcdWXY"),
    ] {
        let mut disk = disk_of(rt.alloc(), b"abcdef", &[fails])?;
        for number in 0..6u32 {
            assert_eq!(rt;
                call_kind(&rt, &mut disk, number),
                number != fails,
                "call {number} of {fails}"
            );
        }
        assert_eq!(rt; disk.bytes(), bytes.as_bytes(), "bytes at {fails}");
        assert_eq!(rt; disk.calls(), 6);
        assert_eq!(rt; disk.wanted(), 0);
    }
    Ok(())
}

#[test]
fn a_crash_leaves_the_chosen_image(rt: HostRuntime) -> Result<(), Fail> {
    let mut disk = disk_of(rt.alloc(), b"ab", &[])?;
    assert!(rt; write_last(&rt, &mut disk, 2, b"cd"));
    assert!(rt; write(&rt, &mut disk, 2, b"WXYZ"));
    assert!(rt; write(&rt, &mut disk, 6, b"!?"));
    for (call, choice, left) in [
        (0, 0b01, "ab"),
        (1, 0b01, "abcd"),
        (2, 0b00, "abWXYZ"),
        (2, 0b01, "abcd"),
        (2, 0b10, "abWX"),
        (2, 0b11, "ab\u{1}\u{1}\u{1}\u{1}"),
        (3, 0b0000, "abWXYZ!?"),
        (3, 0b1000, "abWXYZ!"),
        (3, 0b0001, "abcd"),
        (3, 0b0110, "abWX"),
    ] {
        assert!(rt;
            leaves(&rt, &disk, call, choice, left),
            "crash in {call} at {choice}"
        );
    }
    Ok(())
}

fn reads(reader: &mut MemoryReader, at: u64, want: &[u8]) -> bool {
    let mut out = [0; 3];
    match reader.read_at(at, &mut out) {
        Ok(count) => &out[..count] == want,
        Err(Failed) => false,
    }
}

#[test]
fn a_reader_is_numbered_on_from_its_disk(rt: HostRuntime) -> Result<(), Fail> {
    let mut disk = disk_of(rt.alloc(), b"abcdef", &[2])?;
    let Ok(mut reader) = disk.reader() else {
        return Err("no reader".into());
    };
    assert!(rt; disk.cut(1).is_ok());
    for (at, want, is_there) in [(2, "cde", true), (0, "abc", false), (5, "f", true)] {
        assert_eq!(rt;
            reads(&mut reader, at, want.as_bytes()),
            is_there,
            "at {at}"
        );
    }
    disk.absorb(reader);
    assert_eq!(rt; disk.bytes(), b"a".as_slice());
    assert_eq!(rt; disk.calls(), 2);
    Ok(())
}

fn gives(source: &mut MemorySource, want: &[u8]) -> bool {
    let mut out = [0; 3];
    match source.read(&mut out) {
        Ok(count) => &out[..count] == want,
        Err(Failed) => false,
    }
}

#[test]
fn a_source_that_failed_goes_on_where_it_was(rt: HostRuntime) -> Result<(), Fail> {
    let bytes = Vec::from_slice(rt.alloc(), b"abcde")?;
    let mut source = MemorySource::new(bytes, Vec::from_slice(rt.alloc(), &[1])?);
    for (want, is_given) in [("abc", true), ("de", false), ("de", true), ("", true)] {
        assert_eq!(rt; gives(&mut source, want.as_bytes()), is_given, "{want}");
    }
    assert_eq!(rt; source.calls(), 4);
    Ok(())
}

fn takes(sink: &mut MemorySink, piece: &[u8]) -> bool {
    sink.write(piece) == Ok(piece.len())
}

#[test]
fn a_sink_that_failed_has_taken_half(rt: HostRuntime) -> Result<(), Fail> {
    let mut sink = MemorySink::new(rt.alloc(), Vec::from_slice(rt.alloc(), &[1])?);
    for (piece, is_taken) in [("abc", true), ("defgh", false), ("!", true)] {
        assert_eq!(rt; takes(&mut sink, piece.as_bytes()), is_taken, "{piece}");
    }
    assert_eq!(rt; sink.bytes(), b"abcde!".as_slice());
    assert_eq!(rt; sink.calls(), 3);
    assert_eq!(rt; sink.wanted(), 0);
    Ok(())
}
