//! What the program works on: its arguments, the two files of a store, and two streams.
ghost use Rattle.std.specs.Prelude.{◌≡◌, ◌↔◌, drop, None, Some};
ghost use Rattle.std.specs.Process.{exit_status};
ghost use Rattle.oo7.specs.Answer.{Answers, call_of};
ghost use Rattle.pm3_store.specs.Creation.{Files, files};
ghost use Rattle.oo7.specs.Words.{command_of, texts};

use crate::gate::Gate;
use crate::top::oo7;
use crate::words::Command;
use pm3_disk::{Disk, Sink, Source};
use std::alloc::Global;
use std::process::ExitCode;
use std::thread::Threads;

/// The arguments, of which the first is the program's name, the page file and the journal, and the streams.
#[derive(Drop)]
pub struct Outside<D, S, K> {
    pub arguments: Vec<String>,
    pub pages: D,
    pub journal: D,
    pub source: S,
    pub sink: K,
}

impl<D: Disk + Send + Drop, S: Source + Drop, K: Sink + Drop> Outside<D, S, K>
where
    D::Reader: Send,
{
    /// Does what the words behind the program's name ask for, and gives the status that the program ends with.
    pub fn end<R: Threads + Sync, G: Gate>(self, rt: &R, alloc: Global, gate: &G) -> ExitCode
        ensures usage { (exit_status result ≡ 2) ↔ (command_of (texts (drop 1 self.arguments.items)) ≡ None) }
        ensures later { (exit_status result ≡ 14) ↔ (command_of (texts (drop 1 self.arguments.items)) ≡ Some Command.NotYet) }
        ensures answer { (after : Files D) × (sink : K)
            × Answers D.Disk K.Sink (call_of (texts (drop 1 self.arguments.items)) (files self.pages self.journal) after (exit_status result)) self.sink sink }
    {
        let Outside {
            arguments,
            pages,
            journal,
            mut source,
            mut sink,
        } = self;
        let done = oo7(
            rt,
            alloc,
            behind_first(&arguments),
            pages,
            journal,
            &mut source,
            &mut sink,
            gate,
        );
        ExitCode::from(done.status)
    }
}

/// All but the first.
fn behind_first(arguments: &[String]) -> &[String]
    ensures { result.now ≡ drop 1 arguments.now }
{
    match arguments {
        [_first, rest @ ..] => rest,
        [] => arguments,
    }
}
