//! A store that is open.
ghost use Rattle.std.specs.Prelude.{◌≡◌, ◌<◌, IfOk};
ghost use Rattle.pm3_disk.specs.Devices.{HasFailed, HasNotFailed, IsHonest, OnlyReads};
ghost use Rattle.pm3_journal.specs.Opened.{IsOpenStore};

use crate::faults::PageFault;
use crate::journal::Journal;
use pm3_disk::Disk;
use pm3_page::{Marks, Pages};
use pm3_types::Catalog;

/// A store that is open. The calls that are given one rely on `IsOpenStore` of specs/, and keep it.
#[derive(Drop)]
pub struct Opened<D: Disk> {
    /// The page file.
    pub pages: D,
    /// The journal, whose records are ahead of the page file.
    pub journal: Journal<D>,
    /// The types of the store.
    pub catalog: Catalog,
    /// The last image of each page in the journal's records, and images of other pages that were loaded.
    pub images: Pages,
    /// The page count, and what the next commit begins with.
    pub marks: Marks,
}

impl<D: Disk> Opened<D> {
    /// A reader of the page file as it is now.
    pub fn reader(&mut self) -> Result<D::Reader, PageFault>
        ensures reader { IfOk result (λ reader. D.Reader.content reader ≡ D.content self.old.pages) }
        ensures fresh { IfOk result (λ reader. D.Reader.faults reader ≡ 0) }
        ensures rest { self.new ≡ record self.old { pages = self.new.pages } }
        ensures kept { IsOpenStore D.Disk self.old → IsOpenStore D.Disk self.new }
        ensures reads { OnlyReads D.Disk self.old.pages self.new.pages }
        ensures cause { IsHonest D.Disk self.old.pages self.new.pages result }
    {
        let Ok(reader) = self.pages.reader() else {
            return Err(PageFault);
        };
        Ok(reader)
    }

    /// Takes a reader back, and counts its faults.
    pub fn absorb(&mut self, reader: D::Reader)
        ensures rest { self.new ≡ record self.old { pages = self.new.pages } }
        ensures kept { IsOpenStore D.Disk self.old → IsOpenStore D.Disk self.new }
        ensures reads { OnlyReads D.Disk self.old.pages self.new.pages }
        ensures honest { D.Reader.faults reader ≡ 0 → HasNotFailed D.Disk self.old.pages self.new.pages }
        ensures rose { 0 < D.Reader.faults reader → HasFailed D.Disk self.old.pages self.new.pages }
    {
        self.pages.absorb(reader);
    }
}
