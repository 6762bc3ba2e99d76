//! The call that the program makes.
ghost use Rattle.std.specs.Prelude.{◌≡◌, ◌↔◌, None, Some};
ghost use Rattle.oo7.specs.Answer.{Answers, called, Completes, Makes, Reads, Spares, Stops};
ghost use Rattle.oo7.specs.Words.{command_of, texts};

use crate::gate::Gate;
use crate::performing::{Performed, perform};
use crate::report::report;
use crate::words::Command;
use pm3_disk::{Disk, Sink, Source};
use std::alloc::Global;
use std::thread::Threads;

/// How a call ended: the status for the shell, and the two files.
#[derive(Drop)]
pub struct Done<D> {
    pub status: u8,
    pub pages: D,
    pub journal: D,
}

/// Does what the words after the program's name ask for, on a page file and a journal. It prints to the sink,
/// and reads from the source. The runtime and the gate are for commands with workers, which aren't there yet.
pub fn oo7<R: Threads + Sync, D: Disk + Send, S: Source, K: Sink, G: Gate>(
    _rt: &R,
    alloc: Global,
    words: &[String],
    pages: D,
    journal: D,
    source: &mut S,
    sink: &mut K,
    _gate: &G,
) -> Done<D>
where
    D::Reader: Send,
    ensures answer { Answers D.Disk K.Sink (called (texts words.now) pages journal result) sink.old sink.new }
    ensures usage { (result.status ≡ 2) ↔ (command_of (texts words.now) ≡ None) }
    ensures later { (result.status ≡ 14) ↔ (command_of (texts words.now) ≡ Some Command.NotYet) }
    ensures unread { source.new ≡ source.old }
    ensures completes { Completes D.Disk (called (texts words.now) pages journal result) }
    ensures spares { Spares D.Disk (called (texts words.now) pages journal result) }
    ensures makes { Makes D.Disk (called (texts words.now) pages journal result) }
    ensures reads { Reads D.Disk (called (texts words.now) pages journal result) }
    ensures stops { Stops D.Disk (called (texts words.now) pages journal result) }
{
    let Performed {
        outcome,
        pages,
        journal,
    } = perform(alloc, words, pages, journal);
    let status = report(sink, &outcome).status;
    Done {
        status,
        pages,
        journal,
    }
}
