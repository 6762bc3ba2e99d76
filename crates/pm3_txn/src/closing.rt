//! A heap is closed by its last mutator.
ghost use Rattle.std.specs.Prelude.{◌≡◌, ℕ, false, IfOk, IfErr};
ghost use Rattle.pm3_journal.specs.Opened.{IsOpenStore};
ghost use Rattle.pm3_table.specs.Holds.{holds_of};
ghost use Rattle.pm3_table.specs.Passes.{IsOf};
ghost use Rattle.pm3_txn.specs.Closing.{HasSeenAll, IsHeapCloseFault, IsLastStore, IsTableFault, MayGoOn};
ghost use Rattle.pm3_txn.specs.Underway.{Belongs, HoldsNothing};

use crate::close_fault::{HeapCloseFault, TableFault};
use crate::gathering::{disks_in, store_of};
use crate::heap::Heap;
use crate::mutator::Mutator;
use crate::values::Value;
use pm3_disk::Disk;
use pm3_journal::Opened;
use pm3_page::page_form_law;
use pm3_table::{CloseFault, Pass};
use std::alloc::Global;

impl<D: Disk> Heap<D> {
    /// Closes a heap by its last mutator, which holds nothing, and gives the store as it then stands, with the mutator's reader. No
    /// call is made on the two devices. It is refused exactly where the number of mutators made is not that of those joined back
    /// into this one, itself among them.
    pub fn close(self, last: Mutator<D>) -> Result<(Opened<D>, D::Reader), HeapCloseFault<D>>
        requires of { Belongs D.Reader.content self last }
        requires bare { HoldsNothing last }
        ensures store { IfOk result (λ done. IsLastStore D.Disk self.1 last.pass.1 done.0) }
        ensures open { IfOk result (λ done. IsOpenStore D.Disk done.0) }
        ensures all { IfOk result (λ done. HasSeenAll self.1 last.pass.1) }
        ensures reader { IfOk result (λ done. done.1 ≡ last.reader) }
        ensures fault { IfErr result (IsHeapCloseFault D.Disk self last) }
        ensures kept { IfErr result (MayGoOn D.Reader.content) }
    {
        let Mutator {
            pass,
            space,
            reader,
            refs,
            wrote,
            next_name,
            alloc,
        } = last;
        match self.close_table(alloc, pass) {
            Ok(store) => Ok((store, reader)),
            Err(
                TableFault::NotAll {
                    made,
                    joined,
                    heap,
                    pass,
                },
            ) => {
                let last = Mutator {
                    pass,
                    space,
                    reader,
                    refs,
                    wrote,
                    next_name,
                    alloc,
                };
                Err(HeapCloseFault::NotAll {
                    made,
                    joined,
                    heap,
                    last,
                })
            }
            Err(TableFault::Memory { pages, journal }) => Err(HeapCloseFault::Memory {
                pages,
                journal,
                reader,
            }),
        }
    }

    /// Closes the table of a heap for the pass of its last mutator.
    fn close_table(self, alloc: Global, pass: Pass<Value<D>>) -> Result<Opened<D>, TableFault<D>>
        requires of { IsOf pass self }
        requires bare { (u : ℕ) → holds_of pass.1.holds u ≡ false }
        ensures store { IfOk result (IsLastStore D.Disk self.1 pass.1) }
        ensures open { IfOk result (IsOpenStore D.Disk) }
        ensures all { IfOk result (λ store. HasSeenAll self.1 pass.1) }
        ensures fault { IfErr result (IsTableFault D.Disk self pass) }
    {
        page_form_law();
        let Heap {
            shared,
            catalog,
            frontier,
        } = self;
        let pages = shared.page_count();
        match shared.close(alloc, pass) {
            Ok(homes) => match store_of(alloc, pages, catalog, homes) {
                Ok(store) => Ok(store),
                Err((pages, journal)) => Err(TableFault::Memory { pages, journal }),
            },
            Err(
                CloseFault::NotAll {
                    made,
                    joined,
                    shared,
                    pass,
                },
            ) => {
                let heap = Heap {
                    shared,
                    catalog,
                    frontier,
                };
                Err(TableFault::NotAll {
                    made,
                    joined,
                    heap,
                    pass,
                })
            }
            Err(CloseFault::Memory { homes }) => {
                let (pages, journal) = disks_in(homes);
                Err(TableFault::Memory { pages, journal })
            }
        }
    }
}
