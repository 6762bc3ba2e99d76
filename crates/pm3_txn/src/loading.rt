//! The image of a page that a mutator has taken.
ghost use Rattle.std.specs.Prelude.{◌≡◌, ◌≤◌, ◌<◌, None, IfOk, OnErr, IsErrOf};
ghost use Rattle.pm3_core.specs.declared.naming.TheConstants.{BASE};
ghost use Rattle.pm3_disk.specs.Content.{IfTold};
ghost use Rattle.pm3_disk.specs.Faults.{Rose};
ghost use Rattle.pm3_pagefile.specs.Loading.{IsLoaded, read_of};
ghost use Rattle.pm3_pagefile.specs.PageBytes.{page_at};
ghost use Rattle.pm3_types.specs.PageForm.{IsSound};
ghost use Rattle.pm3_table.specs.Telling.{Good};
ghost use Rattle.pm3_txn.specs.Loads.{HasOnlyRead, IsPersistent};
ghost use Rattle.pm3_txn.specs.Slots.{stands_for};
ghost use Rattle.pm3_txn.specs.Underway.{IsMutatorOf};
ghost use Rattle.pm3_txn.specs.Values.{IsPageOf};

use crate::heap::Heap;
use crate::mutator::Mutator;
use crate::values::Value;
use pm3_disk::Disk;
use pm3_page::{Image, page_form_law};
use pm3_pagefile::{LoadFault, load};

impl<D: Disk> Mutator<D> {
    /// Reads the image of a page below the frontier.
    fn loaded(&mut self, heap: &Heap<D>, page: u32) -> Result<Image, LoadFault>
        requires reads { D.Reader.content self.old.reader ≡ heap.now.1.opening.file }
        requires page { (2 ≤ page) × (page < heap.now.1.frontier) }
        requires frontier { heap.now.1.frontier ≤ heap.now.1.pages }
        ensures read { IfTold heap.now.1.opening.file (λ bytes. IsLoaded page (read_of heap.now.1.opening.catalog BASE heap.now.1.frontier page (page_at page bytes)) result) }
        ensures page { IfOk result (λ image. image.page ≡ page) }
        ensures sound { IfOk result (λ image. IsSound heap.now.1.opening.catalog BASE heap.now.1.frontier image) }
        ensures rest { HasOnlyRead D.Reader.content D.Reader.faults self.old self.new }
        ensures cause { IsErrOf result LoadFault.PageFault → Rose (D.Reader.faults self.old.reader) (D.Reader.faults self.new.reader) }
        ensures calm { ¬ IsErrOf result LoadFault.PageFault → D.Reader.faults self.new.reader ≡ D.Reader.faults self.old.reader }
    {
        load(
            self.alloc,
            &mut self.reader,
            heap.frontier,
            &heap.catalog,
            page,
        )
    }

    /// The image of a page that was taken with this value, or, where it has none, from the page file.
    pub(crate) fn image_of(
        &mut self,
        heap: &Heap<D>,
        page: u32,
        slot: Option<Value<D>>,
    ) -> Result<Image, LoadFault>
        requires of { IsMutatorOf D.Reader.content heap.now self.old }
        requires frontier { heap.now.1.frontier ≤ heap.now.1.pages }
        requires small { heap.now.1.pages < 16385 }
        requires page { IsPersistent heap.now.1 self.old.pass.1.seen page }
        requires good { Good (stands_for D.Disk) heap.now.1 self.old.pass.1.lost self.old.pass.1.seen page slot }
        ensures image { IfOk result (λ image. IsPageOf heap.now.1 self.old.pass.1.seen page image) }
        ensures none { OnErr result (slot ≡ None) }
        ensures read { OnErr result (IfTold heap.now.1.opening.file (λ bytes. IsLoaded page (read_of heap.now.1.opening.catalog BASE heap.now.1.frontier page (page_at page bytes)) result)) }
        ensures rest { HasOnlyRead D.Reader.content D.Reader.faults self.old self.new }
        ensures cause { IsErrOf result LoadFault.PageFault → Rose (D.Reader.faults self.old.reader) (D.Reader.faults self.new.reader) }
        ensures calm { ¬ IsErrOf result LoadFault.PageFault → D.Reader.faults self.new.reader ≡ D.Reader.faults self.old.reader }
    {
        page_form_law();
        match slot {
            Some(Value::Page(image)) => Ok(image),
            Some(_) => unreachable!(),
            None => self.loaded(heap, page),
        }
    }
}
