//! The images of the records that were recovered.
ghost use Rattle.std.specs.Prelude.{◌≡◌, ◌+◌, ◌*◌, ◌<◌, [], None, get_or, option_map};

use crate::file_pages::FilePages;
use crate::journal::Journal;
use pm3_disk::Disk;
use std::mem;

impl<D: Disk> Journal<D> {
    /// The last image of each page in the records that were recovered. The first call gives them, and later ones give none.
    pub fn take_images(&mut self) -> FilePages
        ensures taken { result.items ≡ self.old.images }
        ensures none { self.new ≡ record self.old { images = [] } }
    {
        let alloc = *self.numbers.allocator();
        mem::replace(&mut self.images, FilePages::new(alloc))
    }

    /// The offset of the byte that last gave a word of a page in the records that were recovered, None exactly where none
    /// of them has the page. No later call changes it.
    pub fn place_of(&self, page: u32, word: u32) -> Option<u64>
        requires { word < 512 }
        ensures { result ≡ option_map (λ place. place + 8 * word) (get_or self.now.offsets page None) }
    {
        match self.offsets.get(page as usize) {
            Some(Some(place)) => Some(*place + 8 * u64::from(word)),
            _ => None,
        }
    }
}
