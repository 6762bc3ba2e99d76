//! The image of a page: its words, and where objects begin.
ghost use Rattle.std.specs.Prelude.{◌≡◌, ◌≢◌, ◌↔◌, ◌+◌, ◌^◌, ◌<◌, ◌≤◌, false, true, IfOk, IsNone, length, replicate, slice_get, slice_index, IsTrue};
ghost use Rattle.pm3_types.specs.Layout.{blank_sheet, begins_at, head_at, is_forwarded, type_in, tail_in, word_in, with_word_at, IsNextObject, address, forwarding, forwarded_to, end_of, size_by, head_of, has_tail, placed_on, zeroed};
ghost use Rattle.pm3_page.specs.Overwriting.{copied_on, overwritten, words_at};

use crate::addresses::{
    Addr, PageNo, ROOTS_PAGE, address_of, is_word_of, word_within, words_before,
};
use crate::heads::{
    end_part, first_word, forward_head, forward_part, object_head, object_size, tail_part,
    type_part,
};
use crate::start_bits::StartBits;
use pm3_core::BASE;
use pm3_types::{Catalog, Memory, TypeNo};
use std::alloc::Global;
use std::marker::Model;

/// The number of words of a page.
pub(crate) const PAGE_WORDS: usize = 512;

/// The image of a page: its 512 words, with references as addresses, and the places where objects begin.
#[derive(Debug, Drop)]
pub struct Image {
    /// The number of the page.
    pub(crate) page: PageNo,
    /// Of each word, whether an object begins there.
    pub(crate) starts: StartBits,
    /// The 512 words.
    pub(crate) words: Vec<u64>,
}

impl Model for Image {
    ghost use Rattle.pm3_types.specs.Layout.{PageImage, IsImage};

    ghost Value = { PageImage };

    ghost view = { λ i. record { page = i.page; sheet = record { words = i.words.items; starts = i.starts } } };

    ghost invariant = { λ i. IsImage (record { page = i.page; sheet = record { words = i.words.items; starts = i.starts } }) };
}

impl Image {
    /// The image of a page without objects.
    pub fn blank(alloc: Global, page: PageNo) -> Result<Image, Memory>
        requires low { 3 ≤ page }
        requires high { page < 16384 }
        ensures { IfOk result (λ image. image ≡ record { page = page; sheet = blank_sheet }) }
    {
        let Ok(words) = vec![in alloc; 0u64; PAGE_WORDS] else {
            return Err(Memory);
        };
        Ok(Image {
            page,
            starts: StartBits::new(),
            words,
        })
    }

    /// An equal image.
    pub fn copy(&self) -> Result<Image, Memory>
        ensures { IfOk result (λ image. image ≡ self.now) }
    {
        let Ok(words) = Vec::from_slice(*self.words.allocator(), &self.words) else {
            return Err(Memory);
        };
        Ok(Image {
            page: self.page,
            starts: self.starts.copy(),
            words,
        })
    }

    /// Whether it is an image of the same page, with the same words and the same objects.
    pub fn is_same(&self, other: &Image) -> bool
        ensures { IsTrue result ↔ (self.now ≡ other.now) }
    {
        self.page == other.page && self.words == other.words && self.starts.is_same(&other.starts)
    }

    /// The number of the page.
    pub fn page(&self) -> PageNo
        ensures page { result ≡ self.now.page }
        ensures bounds { (2 ≤ result) × (result < 16384) }
    {
        self.page
    }

    /// Whether an object begins at this address.
    pub fn is_object(&self, at: Addr) -> bool
        ensures { result ≡ begins_at BASE self.now at }
    {
        is_word_of(self.page, at) && self.starts.has(word_within(at))
    }

    /// The address of the first object, or None exactly where there is no object.
    pub fn first(&self) -> Option<Addr>
        ensures { IsNextObject BASE self.now 0 result }
    {
        self.next(0)
    }

    /// The address of the first object behind this address, or None exactly where there is none.
    pub fn next(&self, at: Addr) -> Option<Addr>
        ensures { IsNextObject BASE self.now at result }
    {
        match self.starts.next(words_before(self.page, at)) {
            Some(word) => Some(address_of(self.page, word)),
            None => None,
        }
    }

    /// The word at a place of the object at `at`: its fields from 0 on, then the words of its tail.
    pub fn field(&self, at: Addr, place: u32) -> u64
        requires object { begins_at BASE self.now at ≡ true }
        requires within { word_in BASE at + 2 + place < 512 }
        ensures { result ≡ slice_index self.now.sheet.words (word_in BASE at + 2 + place) }
    {
        self.words[word_within(at) + 2 + place as usize]
    }

    /// Writes the word at a place of the object at `at`.
    pub fn set_field(&mut self, at: Addr, place: u32, value: u64)
        requires object { begins_at BASE self.old at ≡ true }
        requires within { word_in BASE at + 2 + place < 512 }
        ensures { self.new ≡ with_word_at self.old (word_in BASE at + 2 + place) value }
    {
        self.words[word_within(at) + 2 + place as usize] = value;
    }

    /// The type of the object at `at`.
    pub fn type_of(&self, at: Addr) -> TypeNo
        requires object { begins_at BASE self.now at ≡ true }
        requires unmoved { is_forwarded (head_at BASE self.now at) ≡ false }
        ensures { result ≡ type_in (head_at BASE self.now at) }
    {
        type_part(self.words[word_within(at)])
    }

    /// The number of references or bytes in the tail of the object at `at`.
    pub fn tail_len(&self, at: Addr) -> u32
        requires object { begins_at BASE self.now at ≡ true }
        requires unmoved { is_forwarded (head_at BASE self.now at) ≡ false }
        ensures { result ≡ tail_in (head_at BASE self.now at) }
    {
        tail_part(self.words[word_within(at)])
    }

    /// The name of the object at `at`.
    pub fn name_of(&self, at: Addr) -> u64
        requires object { begins_at BASE self.now at ≡ true }
        requires within { word_in BASE at + 1 < 512 }
        ensures { result ≡ slice_index self.now.sheet.words (word_in BASE at + 1) }
    {
        self.words[word_within(at) + 1]
    }

    /// Leaves the new address of the object at `at` in its head. Its name stays.
    pub fn forward(&mut self, at: Addr, to: Addr)
        requires object { begins_at BASE self.old at ≡ true }
        requires unmoved { is_forwarded (head_at BASE self.old at) ≡ false }
        requires low { to < 2 ^ 63 }
        ensures { self.new ≡ with_word_at self.old (word_in BASE at) (forwarding to) }
    {
        self.words[word_within(at)] = forward_head(to);
    }

    /// The new address of the object at `at`, or None exactly where it was not forwarded.
    pub fn forwarded(&self, at: Addr) -> Option<Addr>
        requires { begins_at BASE self.now at ≡ true }
        ensures to { result ≡ forwarded_to (head_at BASE self.now at) }
        ensures unmoved { IsNone result ↔ (is_forwarded (head_at BASE self.now at) ≡ false) }
    {
        forward_part(self.words[word_within(at)])
    }

    /// Whether an object of so many words fits behind the last one. None fits on page 2.
    pub fn fits(&self, words: u32) -> bool
        ensures { IsTrue result ↔ ((self.now.page ≢ 2) × (end_of self.now.sheet + words ≤ 512)) }
    {
        self.page != ROOTS_PAGE && end_part(self.words[0]) + u64::from(words) <= 512
    }

    /// Makes an object behind the last one, with 0 in all its places, and answers its address.
    pub fn place(&mut self, catalog: &Catalog, ty: TypeNo, tail: u32, name: u64) -> Addr
        requires there { ty < length catalog.now }
        requires named { (0 < name) × (name < 2 ^ 62) }
        requires empty { has_tail (slice_get catalog.now ty) ≡ false → tail ≡ 0 }
        requires fits { (self.old.page ≢ 2) × (end_of self.old.sheet + size_by (slice_get catalog.now ty) tail ≤ 512) }
        ensures at { result ≡ address BASE self.old.page (end_of self.old.sheet) }
        ensures placed { self.new ≡ placed_on self.old (size_by (slice_get catalog.now ty) tail) (head_of ty tail) name }
    {
        let Some(map) = catalog.get(ty) else {
            unreachable!()
        };
        let end = end_part(self.words[0]) as usize;
        let behind = end + object_size(map, tail) as usize;
        clear(&mut self.words, end, behind);
        self.words[0] = first_word(self.page, behind as u32);
        self.words[end] = object_head(ty, tail);
        self.words[end + 1] = name;
        self.starts.add(end);
        address_of(self.page, end)
    }

    /// Makes a copy of an object of so many words, that at `at` of another image, behind the last one, and answers its address.
    pub fn place_copy(&mut self, source: &Image, at: Addr, size: u32) -> Addr
        requires object { begins_at BASE source.now at ≡ true }
        requires some { 2 ≤ size }
        requires whole { word_in BASE at + size ≤ 512 }
        requires fits { (self.old.page ≢ 2) × (end_of self.old.sheet + size ≤ 512) }
        ensures at { result ≡ address BASE self.old.page (end_of self.old.sheet) }
        ensures placed { self.new ≡ copied_on self.old size (words_at source.now.sheet (word_in BASE at) size) }
    {
        let from = word_within(at);
        let size = size as usize;
        let end = end_part(self.words[0]) as usize;
        write_words(&mut self.words, end, &source.words[from..from + size]);
        self.words[0] = first_word(self.page, (end + size) as u32);
        self.starts.add(end);
        address_of(self.page, end)
    }

    /// The address in a root slot, or 0 for nil.
    pub fn root(&self, slot: u32) -> u64
        requires roots { self.now.page ≡ 2 }
        requires slot { slot < 16 }
        ensures { result ≡ slice_index self.now.sheet.words (2 + slot) }
    {
        self.words[2 + slot as usize]
    }

    /// Writes an address, or 0 for nil, into a root slot.
    pub fn set_root(&mut self, slot: u32, at: u64)
        requires roots { self.old.page ≡ 2 }
        requires slot { slot < 16 }
        ensures { self.new ≡ with_word_at self.old (2 + slot) at }
    {
        self.words[2 + slot as usize] = at;
    }
}

/// Writes these words over those from a place on.
fn write_words(words: &mut [u64], from: usize, new: &[u64])
    requires within { from + length new.now ≤ length words.old }
    ensures written { words.new ≡ overwritten words.old from new.now }
    ensures same { length words.new ≡ length words.old }
{
    words[from..from + new.len()].copy_from_slice(new);
}

/// Writes 0 into the words from one up to another.
fn clear(words: &mut [u64], from: usize, to: usize)
    requires order { from ≤ to }
    requires within { to ≤ length words.old }
    ensures cleared { words.new ≡ zeroed words.old from to }
    ensures same { length words.new ≡ length words.old }
{
    words[from..to].fill(0);
}
