//! Images from and to the bytes of pages in a file.
ghost use Rattle.std.specs.Prelude.{◌≡◌, ◌<◌, ◌≤◌, ℕ, false, length, replicate, IfOk, IfErr, MatchResult, Ok, Err};
ghost use Rattle.pm3_types.specs.Layout.{Sheet};
ghost use Rattle.pm3_types.specs.PageForm.{IsSound};
ghost use Rattle.pm3_page.specs.PageBytes.{page_read, file_words, file_bytes, bytes_of, words_in};
ghost use Rattle.pm3_page.specs.Faults.{IsFaultOf};

use crate::addresses::PageNo;
use crate::conversion::convert_page;
use crate::images::{Image, PAGE_WORDS};
use crate::references::Way;
use crate::start_bits::StartBits;
use byteorder::{ByteOrder, LittleEndian};
use pm3_core::BASE;
use pm3_types::Catalog;
use std::alloc::Global;
use thiserror::Error;

/// Why a page of a file gives no image.
#[derive(Clone, Copy, Debug, PartialEq, Eq, Error)]
pub enum ImageFault {
    /// The page departs from its form, first at this word.
    #[error("page {page} is damaged at its word {word}")]
    Damaged { page: PageNo, word: u32 },
    /// Want of memory.
    #[error("out of memory")]
    Memory,
}

impl Image {
    /// The image of a page of a store of `pages` pages, from the page's bytes in the file.
    pub fn from_file(
        alloc: Global,
        page: PageNo,
        pages: u32,
        catalog: &Catalog,
        bytes: &[u8; 4096],
    ) -> Result<Image, ImageFault>
        requires page { (2 ≤ page) × (page < pages) }
        requires pages { pages ≤ 16384 }
        ensures page { IfOk result (λ image. image.page ≡ page) }
        ensures read { IfOk result (λ image. page_read catalog.now BASE pages page bytes.now ≡ Ok image.sheet) }
        ensures fault { IfErr result (IsFaultOf page (page_read catalog.now BASE pages page bytes.now)) }
        ensures sound { IfOk result (λ image. IsSound catalog.now BASE pages image) }
        ensures same { IfOk result (λ image. file_bytes catalog.now BASE image ≡ bytes.now) }
    {
        let Ok(mut words) = vec![in alloc; 0u64; PAGE_WORDS] else {
            return Err(ImageFault::Memory);
        };
        let mut starts = StartBits::new();
        match read(catalog, page, pages, bytes, &mut words, &mut starts) {
            Ok(()) => Ok(Image {
                page,
                starts,
                words,
            }),
            Err(word) => Err(ImageFault::Damaged { page, word }),
        }
    }

    /// Writes the bytes of the page in a file.
    pub fn to_file(&self, catalog: &Catalog, out: &mut [u8; 4096])
        requires { IsSound catalog.now BASE 16384 self.now }
        ensures bytes { out.new ≡ file_bytes catalog.now BASE self.now }
        ensures read { (pages : ℕ) → pages ≤ 16384 → IsSound catalog.now BASE pages self.now
            → page_read catalog.now BASE pages self.now.page out.new ≡ Ok self.now.sheet }
    {
        let mut words = [0u64; PAGE_WORDS];
        self.write(catalog, &mut words);
        into_bytes(&words, out);
    }

    /// Writes the words of the page in a file.
    fn write(&self, catalog: &Catalog, words: &mut [u64])
        requires sound { IsSound catalog.now BASE 16384 self.now }
        requires words { length words.old ≡ 512 }
        ensures { words.new ≡ file_words catalog.now BASE self.now }
    {
        words.copy_from_slice(&self.words);
        let mut starts = StartBits::new();
        match convert_page(catalog, Way::ToFile, self.page, words, &mut starts) {
            Ok(()) => (),
            Err(_) => unreachable!(),
        }
    }
}

/// Writes the bytes of the words of a page.
fn into_bytes(words: &[u64], out: &mut [u8])
    requires words { length words.now ≡ 512 }
    requires out { length out.old ≡ 4096 }
    ensures bytes { out.new ≡ bytes_of words.now }
    ensures back { words_in 512 out.new ≡ words.now }
{
    LittleEndian::write_u64_into(words, out);
}

/// Reads the words of a page from its bytes.
fn read(
    catalog: &Catalog,
    page: PageNo,
    pages: u32,
    bytes: &[u8; 4096],
    words: &mut [u64],
    starts: &mut StartBits,
) -> Result<(), u32>
    requires words { length words.old ≡ 512 }
    requires starts { starts.old ≡ replicate 512 false }
    ensures { let read = page_read catalog.now BASE pages page bytes.now in
        MatchResult result (λ _. read ≡ Ok (record { words = words.new; starts = starts.new })) (λ i. read ≡ Err i) }
{
    into_words(bytes, words);
    convert_page(catalog, Way::FromFile { pages }, page, words, starts)
}

/// The words that stand in the bytes of a page.
fn into_words(bytes: &[u8], words: &mut [u64])
    requires words { length words.old ≡ 512 }
    requires bytes { length bytes.now ≡ 4096 }
    ensures { words.new ≡ words_in 512 bytes.now }
{
    LittleEndian::read_u64_into(bytes, words);
}
