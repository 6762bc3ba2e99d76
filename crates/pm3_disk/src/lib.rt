//! The outside of the heap: disks, readers of them, sources and sinks.
//!
//! A layer above may rely on three things. A call fails only where its device's count of faults rose in that
//! call. Where a device tells its content, each call's effect on it is said exactly. And at each moment of a
//! disk it is said what a crash may leave, and each call says how that comes from what could be left before.
#![tactic(auto)]

// The four traits, and a write that a crash can't undo.
mod outside;
mod through;

// Devices in memory, which tell their content, and fail at the calls of a list.
mod memory_disk;
mod memory_reader;
mod memory_sink;
mod memory_source;

// What these are made of: numbers of calls, a record of calls, and bytes written in place.
mod bytes;
mod call;
mod copies;
mod crash;
mod fate;
mod history;
mod medium;
mod schedule;

// Files and streams of the system, which tell no content.
mod file_disk;
mod file_reader;
#[cfg(test)]
mod file_tests;
mod link;
#[cfg(test)]
mod memory_tests;
mod std_sink;
mod std_source;
mod system;
#[cfg(test)]
mod system_tests;
mod transfer;
mod want;

pub use file_disk::FileDisk;
pub use file_reader::FileReader;
pub use memory_disk::MemoryDisk;
pub use memory_reader::MemoryReader;
pub use memory_sink::MemorySink;
pub use memory_source::MemorySource;
pub use outside::{Disk, Failed, Reader, Sink, Source};
pub use std_sink::StdSink;
pub use std_source::StdSource;
pub use through::write_through;
pub use want::Memory;
