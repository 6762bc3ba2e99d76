//! Calls of the program on devices in memory, as the tests make them.
use crate::gate::OpenGate;
use crate::top::oo7;
use pm3_disk::{MemoryDisk, MemorySink, MemorySource};
use std::alloc::Global;
use std::test::Fail;
use std::thread::Threads;

/// The bytes of the two files of a store.
#[derive(Drop)]
pub(crate) struct Stored {
    pub(crate) pages: Vec<u8>,
    pub(crate) journal: Vec<u8>,
}

impl Stored {
    /// Devices with these bytes, on which no call fails.
    pub(crate) fn setting(&self) -> Setting<'_> {
        Setting {
            pages: self.pages.as_slice(),
            journal: self.journal.as_slice(),
            ..SOUND
        }
    }
}

/// What a call is made on: the bytes of the two files, and the number of the call that fails on each device.
#[derive(Clone, Copy)]
pub(crate) struct Setting<'a> {
    pub(crate) pages: &'a [u8],
    pub(crate) journal: &'a [u8],
    pub(crate) pages_fails: Option<u32>,
    pub(crate) journal_fails: Option<u32>,
    pub(crate) sink_fails: Option<u32>,
}

/// Devices on which no call fails, and two empty files.
pub(crate) const SOUND: Setting<'static> = Setting {
    pages: &[],
    journal: &[],
    pages_fails: None,
    journal_fails: None,
    sink_fails: None,
};

impl<'a> Setting<'a> {
    /// The same, but a call on the page file fails.
    pub(crate) fn failing_pages(self, call: u32) -> Setting<'a> {
        Setting {
            pages_fails: Some(call),
            ..self
        }
    }

    /// The same, but a call on the journal fails.
    pub(crate) fn failing_journal(self, call: u32) -> Setting<'a> {
        Setting {
            journal_fails: Some(call),
            ..self
        }
    }

    /// The same, but a call on the sink fails.
    pub(crate) fn failing_sink(self, call: u32) -> Setting<'a> {
        Setting {
            sink_fails: Some(call),
            ..self
        }
    }
}

/// How a call ended: the status, what was printed, how many calls were made on each device, and the two files.
#[derive(Drop)]
pub(crate) struct Ending {
    pub(crate) status: u8,
    pub(crate) text: Vec<u8>,
    pub(crate) page_calls: u32,
    pub(crate) journal_calls: u32,
    pub(crate) store: Stored,
}

impl Ending {
    /// Fails unless the call ended with this status and printed this.
    pub(crate) fn is(&self, status: u8, printed: &str) -> Result<(), Fail> {
        holds(self.status == status)?;
        holds(self.text.as_slice() == printed.as_bytes())
    }

    /// Fails unless the two files have these bytes.
    pub(crate) fn left(&self, store: &Stored) -> Result<(), Fail> {
        holds(self.store.pages == store.pages)?;
        holds(self.store.journal == store.journal)
    }
}

/// Fails unless what is wanted holds.
pub(crate) fn holds(is_so: bool) -> Result<(), Fail> {
    if is_so {
        Ok(())
    } else {
        Err(Fail::new("not as it is wanted"))
    }
}

/// The words of a line, one space between two of them.
pub(crate) fn words_of(alloc: Global, line: &str) -> Result<Vec<String>, Fail> {
    let mut words = Vec::new(alloc);
    if !line.is_empty() {
        for word in line.split(' ') {
            words.push(String::from_str(alloc, word)?)?;
        }
    }
    Ok(words)
}

/// A list of the number, if there is one.
fn listed(alloc: Global, call: Option<u32>) -> Result<Vec<u32>, Fail> {
    let mut calls = Vec::new(alloc);
    if let Some(call) = call {
        calls.push(call)?;
    }
    Ok(calls)
}

/// A disk with these bytes, on which the call of this number fails.
fn disk_of(alloc: Global, bytes: &[u8], fails: Option<u32>) -> Result<MemoryDisk, Fail> {
    Ok(MemoryDisk::new(alloc, bytes.to_vec(alloc)?, listed(alloc, fails)?))
}

/// What a call leaves on its devices.
#[derive(Drop)]
pub(crate) struct Ran {
    pub(crate) status: u8,
    pub(crate) pages: MemoryDisk,
    pub(crate) journal: MemoryDisk,
    pub(crate) sink: MemorySink,
}

/// Makes a call with the words of a line.
pub(crate) fn run<R: Threads + Sync + AllocGlobal>(
    rt: &R,
    line: &str,
    setting: Setting<'_>,
) -> Result<Ran, Fail> {
    let alloc = rt.alloc();
    let words = words_of(alloc, line)?;
    let pages = disk_of(alloc, setting.pages, setting.pages_fails)?;
    let journal = disk_of(alloc, setting.journal, setting.journal_fails)?;
    let sink = MemorySink::new(alloc, listed(alloc, setting.sink_fails)?);
    Ok(call(rt, &words, pages, journal, sink))
}

/// Makes a call with these words, on these devices.
fn call<R: Threads + Sync + AllocGlobal>(
    rt: &R,
    words: &[String],
    pages: MemoryDisk,
    journal: MemoryDisk,
    mut sink: MemorySink,
) -> Ran {
    let alloc = rt.alloc();
    let mut source = MemorySource::new(Vec::new(alloc), Vec::new(alloc));
    let done = oo7(
        rt,
        alloc,
        words,
        pages,
        journal,
        &mut source,
        &mut sink,
        &OpenGate,
    );
    Ran {
        status: done.status,
        pages: done.pages,
        journal: done.journal,
        sink,
    }
}

/// Makes a call with the words of a line, and tells how it ended.
pub(crate) fn ended<R: Threads + Sync + AllocGlobal>(
    rt: &R,
    line: &str,
    setting: Setting<'_>,
) -> Result<Ending, Fail> {
    let ran = run(rt, line, setting)?;
    end_of(rt.alloc(), &ran)
}

/// How a call ended.
fn end_of(alloc: Global, ran: &Ran) -> Result<Ending, Fail> {
    Ok(Ending {
        status: ran.status,
        text: Vec::from_slice(alloc, ran.sink.bytes())?,
        page_calls: ran.pages.calls(),
        journal_calls: ran.journal.calls(),
        store: Stored {
            pages: Vec::from_slice(alloc, ran.pages.bytes())?,
            journal: Vec::from_slice(alloc, ran.journal.bytes())?,
        },
    })
}
