//! The space of a transaction's mutator: it is held, and gets names and pages.
ghost use Rattle.std.specs.Prelude.{◌≡◌, ◌⊎◌, ℕ, ◌^◌, ◌<◌, true, is_some, IfOk, IfErr, OnOk};
ghost use Rattle.pm3_table.specs.declared.unit.Limit.TheVariants.{Names, Pages};
ghost use Rattle.pm3_table.specs.Holds.{holds_of};
ghost use Rattle.pm3_table.specs.Ops.{drew_name, drew_page, saw_full, settled_in};
ghost use Rattle.pm3_table.specs.Settles.{unmark_log};
ghost use Rattle.pm3_table.specs.Telling.{IsNewName, IsNewPage};
ghost use Rattle.pm3_table.specs.Words.{space_unit};
ghost use Rattle.pm3_txn.specs.declared.faults.AccessFault.TheVariants.{Memory};
ghost use Rattle.pm3_txn.specs.Making.{HasTakenSpace, IsSpaceRefusal};
ghost use Rattle.pm3_txn.specs.Spaces.{HasDrawnName, HasDrawnPage, HasMadeRoom, HasTriedToOpen, IsNameRefusal, IsOutOfPages, IsPageShortage, IsShortOfMemory};
ghost use Rattle.pm3_txn.specs.Takes.{with_name, with_view};
ghost use Rattle.pm3_txn.specs.Underway.{IsMutatorOf};

use crate::faults::AccessFault;
use crate::heap::Heap;
use crate::mutator::Mutator;
use crate::transaction::Txn;
use pm3_disk::Disk;
use pm3_locks::{PageState, settle};
use pm3_page::Image;
use pm3_table::Full;

impl<D: Disk> Mutator<D> {
    /// Draws a name that no one else has drawn, and notes it: whatever becomes of the call that wants it, it is used up.
    fn draw_name(&mut self, heap: &Heap<D>) -> Result<u64, Full>
        requires of { IsMutatorOf D.Reader.content heap.now self.old }
        ensures drawn { IfOk result (λ name. (name < 2 ^ 62) × IsNewName heap.now.1 self.old.pass.1 name × (self.new ≡ with_name self.old (drew_name self.old.pass.1 name) name)) }
        ensures full { IfErr result (λ full. (full ≡ record { what = Names; limit = 2 ^ 62 }) × (self.new ≡ with_view self.old (saw_full 1 self.old.pass.1))) }
        ensures kept { IsMutatorOf D.Reader.content heap.now self.new }
    {
        match pm3_locks::draw_name(&heap.shared, &mut self.pass) {
            Ok(name) => {
                self.next_name = self.next_name.max(name + 1);
                Ok(name)
            }
            Err(full) => Err(full),
        }
    }

    /// Draws a page that no one else has drawn, and settles it in the mutator's space, which it holds.
    fn draw_page(&mut self, heap: &Heap<D>) -> Result<u32, Full>
        requires of { IsMutatorOf D.Reader.content heap.now self.old }
        requires space { holds_of self.old.pass.1.holds (space_unit heap.now.1.pages self.old.space) ≡ true }
        ensures drawn { IfOk result (λ page. (page < heap.now.1.pages) × IsNewPage heap.now.1 self.old.pass.1 page × (self.new ≡ with_view self.old (settled_in (drew_page self.old.pass.1 page) page (space_unit heap.now.1.pages self.old.space) self.old.pass.1.log))) }
        ensures full { IfErr result (λ full. (full ≡ record { what = Pages; limit = heap.now.1.pages }) × (self.new ≡ with_view self.old (saw_full 0 self.old.pass.1))) }
        ensures kept { IsMutatorOf D.Reader.content heap.now self.new }
    {
        match self.draw_own_page(heap) {
            Ok(page) => Ok(page),
            Err(full) => Err(full),
        }
    }

    /// The same beside marks of other pages.
    pub(crate) fn draw_own_page(&mut self, heap: &Heap<D>) -> Result<u32, Full>
        requires of { self.old.pass.0 ≡ heap.now.0 }
        requires space { (self.old.space < 32) × (holds_of self.old.pass.1.holds (space_unit heap.now.1.pages self.old.space) ≡ true) }
        ensures drawn { IfOk result (λ page. (page < heap.now.1.pages) × IsNewPage heap.now.1 self.old.pass.1 page × (self.new ≡ with_view self.old (settled_in (drew_page self.old.pass.1 page) page (space_unit heap.now.1.pages self.old.space) (unmark_log self.old.pass.1.log page)))) }
        ensures full { IfErr result (λ full. (full ≡ record { what = Pages; limit = heap.now.1.pages }) × (self.new ≡ with_view self.old (saw_full 0 self.old.pass.1))) }
    {
        match pm3_locks::draw_page(&heap.shared, &mut self.pass) {
            Ok(page) => {
                settle(
                    &heap.shared,
                    &mut self.pass,
                    page,
                    PageState::Volatile(self.space),
                );
                Ok(page)
            }
            Err(full) => Err(full),
        }
    }
}

impl<D: Disk> Txn<'_, D> {
    /// Holds the mutator's space: it is taken, with its last images, where the transaction does not hold it yet. Where there is no
    /// memory for it, it is given back.
    pub(crate) fn hold_space(&mut self) -> Result<(), AccessFault>
        ensures heap { self.new.heap ≡ self.old.heap }
        ensures taken { OnOk result (HasTakenSpace self.old self.new) }
        ensures refused { IfErr result (IsSpaceRefusal self.old self.new) }
    {
        if self.held.has_space() {
            return Ok(());
        }
        let heap = self.heap;
        heap.page_count();
        pm3_graph::frame_of_runs();
        let space = match self.mutator.take_space(heap) {
            Ok(space) => space,
            Err(busy) => return Err(AccessFault::of_busy(busy)),
        };
        let Err((_, space)) = self.held.admit_space(space) else {
            return Ok(());
        };
        self.mutator.give_space(heap, space);
        Err(AccessFault::Memory)
    }

    /// Draws a name for an object of the space. Full exactly where the name counter is at its limit.
    pub(crate) fn draw_name(&mut self) -> Result<u64, AccessFault>
        requires space { is_some self.old.held.space ≡ true }
        ensures heap { self.new.heap ≡ self.old.heap }
        ensures drawn { IfOk result (λ name. HasDrawnName self.old self.new name) }
        ensures full { IfErr result (λ fault. IsNameRefusal self.old self.new fault) }
    {
        let heap = self.heap;
        heap.page_count();
        let name = match self.mutator.draw_name(heap) {
            Ok(name) => name,
            Err(full) => return Err(AccessFault::of_full(full)),
        };
        Ok(name)
    }

    /// Draws a page, which is a free one of the space then. Full exactly where the page counter is at its limit.
    pub(crate) fn draw_page(&mut self) -> Result<(), AccessFault>
        requires space { is_some self.old.held.space ≡ true }
        ensures heap { self.new.heap ≡ self.old.heap }
        ensures drawn { OnOk result (HasDrawnPage self.old self.new) }
        ensures refused { IfErr result (λ fault. IsPageShortage self.old self.new fault ⊎ ((fault ≡ Memory) × (self.new ≡ self.old))) }
    {
        let heap = self.heap;
        heap.page_count();
        let Ok(()) = self.held.reserve_free(1) else {
            return Err(AccessFault::Memory);
        };
        let page = match self.mutator.draw_page(heap) {
            Ok(page) => page,
            Err(full) => return Err(AccessFault::of_full(full)),
        };
        self.held.add_free(page);
        Ok(())
    }

    /// Makes the least free page of the space the one that objects are placed on, as a blank page. False exactly where there is no free
    /// page. Without memory all is as it was.
    pub(crate) fn open_page(&mut self) -> Result<bool, AccessFault>
        requires space { is_some self.old.held.space ≡ true }
        ensures heap { self.new.heap ≡ self.old.heap }
        ensures opened { IfOk result (λ opened. HasTriedToOpen self.old self.new opened) }
        ensures refused { IfErr result (λ fault. (fault ≡ Memory) × (self.new ≡ self.old)) }
    {
        let heap = self.heap;
        heap.page_count();
        let Some(page) = self.held.least_free() else {
            return Ok(false);
        };
        let Ok(image) = Image::blank(self.mutator.allocator(), page) else {
            self.held.add_free(page);
            return Err(AccessFault::Memory);
        };
        let Err(_) = self.held.grow(image) else {
            return Ok(true);
        };
        self.held.add_free(page);
        Err(AccessFault::Memory)
    }

    /// Makes room on a page of the space: the least free one, or one that is drawn.
    pub(crate) fn make_room(&mut self) -> Result<(), AccessFault>
        requires space { is_some self.old.held.space ≡ true }
        ensures heap { self.new.heap ≡ self.old.heap }
        ensures made { OnOk result (HasMadeRoom self.old self.new) }
        ensures refused { IfErr result (λ fault. ((size : ℕ) → IsOutOfPages self.old self.new size fault) ⊎ IsShortOfMemory self.old self.new fault) }
    {
        match self.open_page() {
            Ok(true) => return Ok(()),
            Ok(false) => {}
            Err(fault) => return Err(fault),
        }
        if let Err(fault) = self.draw_page() {
            return Err(fault);
        }
        match self.open_page() {
            Ok(true) => Ok(()),
            Ok(false) => unreachable!(),
            Err(fault) => Err(fault),
        }
    }
}
