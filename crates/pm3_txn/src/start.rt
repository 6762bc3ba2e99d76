//! A heap is started.
ghost use Rattle.std.specs.Prelude.{◌≡◌, IfOk, IfErr};
ghost use Rattle.pm3_journal.specs.Opened.{IsOpenStore};
ghost use Rattle.pm3_txn.specs.Starts.{IsStarted, first_mutator};
ghost use Rattle.pm3_txn.specs.Underway.{Belongs};

use crate::crew::blank_row;
use crate::draining::disks_of;
use crate::frontiers::frontier_of;
use crate::heap::Heap;
use crate::homes::filled;
use crate::mutator::Mutator;
use crate::values::{Turn, Value};
use pm3_disk::Disk;
use pm3_journal::{Earlier, Opened};
use pm3_table::{Homes, Marks4, Shared};
use std::alloc::Global;
use std::fmt;

/// There was no memory to start a heap. The two devices and the reader come back.
#[derive(Drop)]
pub struct StartFault<D: Disk> {
    pub pages: D,
    pub journal: D,
    pub reader: D::Reader,
}

impl<D: Disk> fmt::Display for StartFault<D> {
    fn fmt<W: fmt::Write>(&self, f: &mut fmt::Formatter<W>) -> fmt::Result {
        write!(f, "there is no memory to start a heap")
    }
}

impl<D: Disk> Heap<D> {
    /// Starts a heap over an open store, with its first mutator, which has this reader. No call is made on the two devices.
    pub fn start(
        alloc: Global,
        opened: Opened<D>,
        reader: D::Reader,
    ) -> Result<(Heap<D>, Mutator<D>), StartFault<D>>
        requires open { IsOpenStore D.Disk opened }
        requires reads { D.Reader.content reader ≡ D.content opened.pages }
        ensures started { IfOk result (λ made. IsStarted D.Disk opened made.0.1) }
        ensures first { IfOk result (λ made. made.1 ≡ first_mutator made.0.0 (D.faults opened.journal.disk) reader) }
        ensures belongs { IfOk result (λ made. Belongs D.Reader.content made.0 made.1) }
        ensures back { IfErr result (λ fault. (fault.pages ≡ opened.pages) × (fault.journal ≡ opened.journal.disk) × (fault.reader ≡ reader)) }
    {
        let Ok((refs, wrote)) = blank_row(alloc) else {
            return Err(taken_apart(opened, reader));
        };
        let made = Homes::new(alloc, opened.marks.pages);
        let Ok(homes) = made else {
            return Err(taken_apart(opened, reader));
        };
        let _keeps = opened.journal.stopped();
        let whole = Earlier::of(&opened);
        let frontier = frontier_of(&opened);
        let Opened {
            pages: file,
            journal,
            catalog,
            images,
            marks,
        } = opened;
        let turn = Turn {
            journal,
            next_name: marks.next_name,
            high_page: marks.high_page,
            file,
            opened: whole,
        };
        let homes = filled(alloc, homes, marks.pages, images, turn);
        let marks = Marks4 {
            pages: marks.pages,
            frontier,
            next_name: marks.next_name,
            rows: 1,
        };
        match Shared::start(alloc, marks, homes) {
            Ok((shared, pass)) => {
                let heap = Heap {
                    shared,
                    catalog,
                    frontier,
                };
                let first = Mutator {
                    pass,
                    space: 0,
                    reader,
                    refs,
                    wrote,
                    next_name: 0,
                    alloc,
                };
                Ok((heap, first))
            }
            Err((_, homes)) => {
                let (pages, journal) = disks_of(homes);
                Err(StartFault {
                    pages,
                    journal,
                    reader,
                })
            }
        }
    }
}

fn taken_apart<D: Disk>(opened: Opened<D>, reader: D::Reader) -> StartFault<D>
    ensures { (result.pages ≡ opened.pages) × (result.journal ≡ opened.journal.disk) × (result.reader ≡ reader) }
{
    let Opened {
        pages,
        journal,
        catalog: _,
        images: _,
        marks: _,
    } = opened;
    StartFault {
        pages,
        journal: journal.into_disk(),
        reader,
    }
}
