//! The pages of an entry, in file form.
ghost use Rattle.std.specs.Prelude.{◌≡◌, ◌+◌, ◌<◌, ◌≤◌, [], ◌∷◌, ◌++◌, length, slice_index_or, OnOk};
ghost use Rattle.std.specs.Option.{option_copied};
ghost use Rattle.pm3_journal.specs.Pages.{AreBelow, image_of, IsRising};

use pm3_disk::Memory;
use std::alloc::Global;
use std::marker::Model;

/// A page's number and its bytes.
#[derive(Drop)]
struct FilePage {
    page: u32,
    bytes: [u8; 4096],
}

impl Model for FilePage {
    ghost use Rattle.std.specs.Prelude.{ℕ, List};

    ghost Value = { ℕ × List ℕ };

    ghost view = { λ p. (p.page, p.bytes) };
}

/// Pages in file form, of rising numbers. A contract sees their numbers with their bytes, and for how many further ones
/// there is room.
#[derive(Drop)]
pub struct FilePages {
    pages: Vec<FilePage>,
}

impl Model for FilePages {
    ghost use Rattle.std.specs.Prelude.{◌-◌, vec_len, vec_capacity};
    ghost use Rattle.pm3_journal.specs.Pages.{PageList};

    ghost Value = { PageList };

    ghost use Rattle.pm3_journal.specs.Pages.{IsRising};

    ghost view = { λ p. record { items = p.pages.items; room = vec_capacity p.pages - vec_len p.pages } };

    ghost invariant = { λ p. IsRising p.pages.items };
}

impl FilePages {
    /// No pages.
    pub fn new(alloc: Global) -> FilePages
        ensures { result.items ≡ [] }
    {
        FilePages {
            pages: Vec::new(alloc),
        }
    }

    /// How many pages there are.
    pub fn len(&self) -> usize
        ensures len { result ≡ length self.now.items }
        ensures rising { IsRising self.now.items }
    {
        self.pages.len()
    }

    /// Makes room for so many further pages.
    pub fn reserve(&mut self, more: u32) -> Result<(), Memory>
        ensures room { OnOk result (more ≤ self.new.room) }
        ensures no_less { self.old.room ≤ self.new.room }
        ensures same { self.new.items ≡ self.old.items }
    {
        self.pages.reserve(more as usize)?;
        Ok(())
    }

    /// Adds a page at the end, for which there is room. Its number is above the others.
    pub fn push(&mut self, page: u32, bytes: &[u8; 4096])
        requires room { 0 < self.old.room }
        requires above { AreBelow page self.old.items }
        ensures pushed { self.new.items ≡ self.old.items ++ (page, bytes.now) ∷ [] }
        ensures room { self.old.room ≤ self.new.room + 1 }
    {
        let pushed = self.pages.push(FilePage {
            page,
            bytes: *bytes,
        });
        let Ok(()) = pushed else { unreachable!() };
    }

    /// The bytes of a page, None exactly where the page isn't there.
    pub fn get(&self, page: u32) -> Option<&[u8; 4096]>
        ensures { option_copied result ≡ image_of page self.now.items }
    {
        let mut low = 0;
        let mut high = self.len();
        while low < high {
            let middle = low + (high - low) / 2;
            let number = self.number(middle);
            if number == page {
                return Some(self.image(middle));
            }
            if number < page {
                low = middle + 1;
            } else {
                high = middle;
            }
        }
        None
    }

    /// The number of the page at an index.
    pub fn number(&self, index: usize) -> u32
        requires { index < length self.now.items }
        ensures { result ≡ (slice_index_or self.now.items index (0, [])).0 }
    {
        self.pages[index].page
    }

    /// Its bytes.
    pub fn image(&self, index: usize) -> &[u8; 4096]
        requires { index < length self.now.items }
        ensures bytes { result.now ≡ (slice_index_or self.now.items index (0, [])).1 }
        ensures size { length result.now ≡ 4096 }
    {
        &self.pages[index].bytes
    }
}
