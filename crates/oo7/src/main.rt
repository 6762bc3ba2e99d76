//! The program `oo7`: a design database in a persistent heap.
//!
//! `main` makes the devices in the current folder and calls `top::oo7`, whose contract is the program's promise:
//! which words are a command, what is printed, with which status it ends, and what the two files then hold.
#![tactic(auto)]

ghost use Rattle.std.specs.Prelude.{◌≡◌, codes, IfOk};
ghost use Rattle.std.specs.Vec.Iter.{into_iter_items};
ghost use Rattle.pm3_disk.specs.Paths.{path_of};

// From the words to the answer.
#[cfg(test)]
mod append_tests;
#[cfg(test)]
mod checkpoint_tests;
#[cfg(test)]
mod dump_tests;
mod gate;
mod outside;
mod performing;
mod refusal;
mod report;
#[cfg(test)]
mod samples;
#[cfg(test)]
mod tests;
mod top;
#[cfg(test)]
mod trials;
mod words;

// Commands on a store.
mod checkpointing;
mod dumping;
mod opening;

use crate::gate::OpenGate;
use crate::outside::Outside;
use crate::refusal::Refusal;
use pm3_disk::{FileDisk, Memory, StdSink, StdSource};
use std::alloc::Global;
use std::env::Args;
use std::process::ExitCode;
use std::{env, io};

fn main(rt: HostRuntime) -> ExitCode {
    match open_outside(&rt) {
        Ok(outside) => outside.end(&rt, rt.alloc(), &OpenGate),
        Err(Memory) => ExitCode::from(Refusal::Memory.status()),
    }
}

/// The arguments, the two files of the current folder, and the standard streams.
fn open_outside(
    rt: &HostRuntime,
) -> Result<Outside<FileDisk<HostRuntime>, StdSource<HostRuntime>, StdSink<HostRuntime>>, Memory>
    ensures pages { IfOk result (λ outside. path_of outside.pages ≡ codes "oo7.pages") }
    ensures journal { IfOk result (λ outside. path_of outside.journal ≡ codes "oo7.journal") }
{
    Ok(Outside {
        arguments: arguments_of(rt)?,
        pages: FileDisk::at(rt, rt.alloc(), "oo7.pages")?,
        journal: FileDisk::at(rt, rt.alloc(), "oo7.journal")?,
        source: StdSource::new(rt)?,
        sink: StdSink::new(rt)?,
    })
}

/// The arguments, the program's name first. Where one of them is no text there are none: no command has such a word.
fn arguments_of(rt: &HostRuntime) -> Result<Vec<String>, Memory> {
    match env::args(rt) {
        Ok(arguments) => all_of(rt.alloc(), arguments),
        Err(error) if error.kind() == io::ErrorKind::OutOfMemory => Err(Memory),
        Err(_) => Ok(Vec::new(rt.alloc())),
    }
}

/// All arguments.
fn all_of(alloc: Global, arguments: Args) -> Result<Vec<String>, Memory>
    ensures { IfOk result (λ all. all.items ≡ into_iter_items arguments) }
{
    Ok(arguments.collect(alloc)?)
}
