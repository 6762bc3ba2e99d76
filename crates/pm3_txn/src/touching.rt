//! Pages that a transaction touches.
ghost use Rattle.std.specs.Prelude.{◌≡◌, true, None, OnOk, IfErr};
ghost use Rattle.pm3_access.specs.Holding.{image_in};
ghost use Rattle.pm3_txn.specs.Knowing.{KnowsHome};
ghost use Rattle.pm3_txn.specs.Loads.{IsPersistent};
ghost use Rattle.pm3_txn.specs.Refusals.{IsTouchRefusal};
ghost use Rattle.pm3_txn.specs.States.{told_in, view_in};
ghost use Rattle.pm3_txn.specs.Touching.{HasTouched, nothing_more};

use crate::faults::AccessFault;
use crate::transaction::Txn;
use crate::values::Value;
use pm3_disk::Disk;

impl<D: Disk> Txn<'_, D> {
    /// Holds a page: one of which no image is held is persistent, and is taken with its last image.
    pub(crate) fn touch(&mut self, page: u32) -> Result<(), AccessFault>
        requires page { image_in self.old.held page ≡ None → IsPersistent (told_in self.old) (view_in self.old).seen page }
        requires home { image_in self.old.held page ≡ None → KnowsHome (told_in self.old) (view_in self.old) page }
        ensures heap { self.new.heap ≡ self.old.heap }
        ensures touched { OnOk result (HasTouched self.old self.new page nothing_more) }
        ensures refused { IfErr result (λ fault. IsTouchRefusal D.Reader.faults self.old self.new page fault) }
    {
        if self.held.image(page).is_some() {
            return Ok(());
        }
        self.take_page(page)
    }

    /// Takes a page that the transaction does not hold. Where its image can't be had, the page is given back.
    fn take_page(&mut self, page: u32) -> Result<(), AccessFault>
        requires page { IsPersistent (told_in self.old) (view_in self.old).seen page }
        requires home { KnowsHome (told_in self.old) (view_in self.old) page }
        requires absent { image_in self.old.held page ≡ None }
        ensures heap { self.new.heap ≡ self.old.heap }
        ensures touched { OnOk result (HasTouched self.old self.new page nothing_more) }
        ensures refused { IfErr result (λ fault. IsTouchRefusal D.Reader.faults self.old self.new page fault) }
    {
        let heap = self.heap;
        heap.page_count();
        pm3_graph::frame_of_runs();
        let slot = match self.mutator.take(heap, page) {
            Ok(slot) => slot,
            Err(busy) => {
                return Err(AccessFault::Busy {
                    unit: busy.unit,
                    word: busy.word,
                });
            }
        };
        let image = match self.mutator.image_of(heap, page, slot) {
            Ok(image) => image,
            Err(fault) => {
                self.mutator.give(heap, page, None);
                return Err(AccessFault::of_load(fault));
            }
        };
        let Err((_, image)) = self.held.admit(image) else {
            return Ok(());
        };
        self.mutator.give(heap, page, Some(Value::Page(image)));
        Err(AccessFault::Memory)
    }
}
