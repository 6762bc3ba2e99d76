//! A journal that is open: its states, and what it tells of itself.
ghost use Rattle.std.specs.Prelude.{◌≡◌, ◌≤◌, ◌<◌};
ghost use Rattle.pm3_journal.specs.Journals.{Keeps};

use crate::earlier::Earlier;
use crate::entries::Entries;
use crate::entry::Entry;
use crate::file_pages::FilePages;
use pm3_disk::Disk;
use std::marker::Model;

mod append;
mod closing;
mod crossing;
mod images;
pub(crate) mod recover;

/// A journal over its device.
///
/// | state | comes by | a crash then leaves | the next append |
/// |---|---|---|---|
/// | at rest, its gate closed | `append`, `close_first_gate`, `recover` | its records | writes behind the gate |
/// | at rest, its gate missing or open | `recover` of a file that ends there or has an open gate there | its records | closes the gate first |
/// | stopped | an `append` that answers `JournalFault` | its records, with that append's behind them or not | is refused: `Stopped` |
/// | torn, and stopped | a `close_first_gate` that answers `JournalFault` | what it left before, or no record | is refused: `Stopped` |
/// | emptied | `close_first_gate` | no record | as at rest, or `Stopped` where it was |
///
/// At each moment since it was recovered or emptied a crash leaves some first ones of its records (and of the record whose
/// append failed), and no others. A journal that stopped stays so, as nobody knows what the next sync would make last.
#[derive(Drop)]
pub struct Journal<D: Disk> {
    /// The device of the journal's file.
    disk: D,
    /// How many pages the store has.
    pages: u32,
    /// What is kept of the records.
    entries: Entries,
    /// Where the list of records ends: the offset of the next record's gate.
    end: u64,
    /// The sequence number that is due. Numbers rise by one, so that what an older list left behind the list's end isn't
    /// taken for a part of it.
    next: u64,
    /// Whether the gate at `end` is there and closed.
    is_closed: bool,
    /// The number that was due when a call failed.
    stopped: Option<u64>,
    /// Whether a closing of the first gate failed, which may be open or closed since.
    is_torn: bool,
    /// The bytes of the record that is appended.
    buffer: Vec<u8>,
    /// Room for the page numbers of the next record.
    numbers: Vec<u32>,
    /// How many pages the next record may have without taking memory.
    room: Option<u32>,
    /// The device as it was at the moment from which on the records are kept, for clauses alone.
    since: Earlier<D>,
    /// The append that failed and stopped the journal, for clauses alone.
    failed: Option<FailedAppend>,
    /// The last images in the records that were recovered, until they are taken.
    images: FilePages,
    /// By page number, the offsets of these images.
    offsets: Vec<Option<u64>>,
}

/// An append that failed: the number that was due, and the entry.
#[derive(Drop)]
struct FailedAppend {
    seq: u64,
    entry: Earlier<Entry>,
}

impl<D: Disk> Model for Journal<D> {
    ghost use Rattle.std.specs.Prelude.{◌≡◌, ◌≤◌, length, option_map, vec_capacity};
    ghost use Rattle.pm3_journal.specs.Codes.{state_code};
    ghost use Rattle.pm3_journal.specs.JournalState.{JournalState};

    ghost Value = { JournalState D };

    ghost coded = { state_code D.code };

    ghost use Rattle.pm3_journal.specs.Entered.{record_of};
    ghost use Rattle.pm3_journal.specs.Journals.{HasSpace, Keeps};
    ghost use Rattle.pm3_journal.specs.Offsets.{AreLow};

    ghost view = { λ j. record {
      disk = j.disk;
      pages = j.pages;
      summaries = j.entries.summaries;
      end = j.end;
      next = j.next;
      is_closed = j.is_closed;
      stopped = j.stopped;
      is_torn = j.is_torn;
      failed = option_map (λ f. record_of f.seq f.entry.value) j.failed;
      since = D.moment j.since.value;
      room = j.room;
      images = j.images.items;
      offsets = j.offsets.items;
    } };

    ghost invariant = { λ j. Keeps D.Disk (view j)
        × HasSpace j.room (vec_capacity j.buffer) (vec_capacity j.numbers) (length j.entries.summaries) j.entries.slots
        × AreLow j.offsets.items × (j.entries.pages ≡ j.pages) };
}

impl<D: Disk> Journal<D> {
    /// The page count of the store.
    pub fn pages(&self) -> u32
        ensures { result ≡ self.now.pages }
    {
        self.pages
    }

    /// The sequence number that is due.
    pub fn next(&self) -> u64
        ensures { result ≡ self.now.next }
    {
        self.next
    }

    /// The number that `Stopped` would carry. What a journal keeps, stopped or not, is said here.
    pub fn stopped(&self) -> Option<u64>
        ensures stopped { result ≡ self.now.stopped }
        ensures keeps { Keeps D.Disk self.now }
    {
        self.stopped
    }

    /// The summaries of the records.
    pub fn entries(&self) -> &Entries
        ensures summaries { result.now.summaries ≡ self.now.summaries }
        ensures pages { result.now.pages ≡ self.now.pages }
    {
        &self.entries
    }

    /// The device.
    pub fn into_disk(self) -> D
        ensures { result ≡ self.disk }
    {
        let Journal {
            disk,
            pages: _,
            entries: _,
            end: _,
            next: _,
            is_closed: _,
            stopped: _,
            is_torn: _,
            buffer: _,
            numbers: _,
            room: _,
            since: _,
            failed: _,
            images: _,
            offsets: _,
        } = self;
        disk
    }
}
