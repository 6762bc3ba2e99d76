//! References between a file and memory.
ghost use Rattle.std.specs.Prelude.{◌≡◌, ◌<◌, ◌&&◌, nat_le, nat_lt, true};
ghost use Rattle.pm3_types.specs.Layout.{is_address, page_in, word_in};
ghost use Rattle.pm3_types.specs.PageForm.{is_file_reference, is_memory_reference, memory_reference, file_reference};
ghost use Rattle.pm3_page.specs.References.{refer_by};

use crate::addresses::{Addr, MOST_PAGES, is_word, page_within, word_within};
use pm3_core::{BASE, PAGE_BYTES};

/// From which form words go to the other.
#[derive(Clone, Copy, Debug)]
pub(crate) enum Way {
    /// From a file of so many pages into memory.
    FromFile { pages: u32 },
    /// From memory into a file.
    ToFile,
}

impl Way {
    /// The reference in the other form, or None exactly where it is none.
    pub(crate) fn refer(self, word: u64) -> Option<u64>
        ensures { result ≡ refer_by BASE self word }
    {
        match self {
            Way::FromFile { pages } => {
                if is_in_file(pages, word) {
                    Some(into_memory(word))
                } else {
                    None
                }
            }
            Way::ToFile => {
                if is_in_memory(word) {
                    Some(into_file(word))
                } else {
                    None
                }
            }
        }
    }
}

/// Whether it is a reference in a file of so many pages.
#[tactic(auto, unfolding(pm3_types::specs::PageForm::is_file_reference))]
fn is_in_file(pages: u32, word: u64) -> bool
    ensures { result ≡ is_file_reference pages word }
{
    let page = word / 4_294_967_296;
    let offset = word % 4_294_967_296;
    word == 0
        || ((page >= 3 && page < u64::from(pages))
            && ((offset >= 16 && offset <= 4088) && word % 8 == 0))
}

/// The address that a reference in a file stands for.
#[tactic(auto, unfolding(pm3_types::specs::PageForm::memory_reference))]
fn into_memory(word: u64) -> Addr
    ensures { result ≡ memory_reference BASE word }
{
    if word == 0 {
        return 0;
    }
    BASE + PAGE_BYTES * (word / 4_294_967_296) + word % 4_294_967_296
}

/// Whether it is a reference in memory.
#[tactic(auto, unfolding(pm3_types::specs::PageForm::is_memory_reference))]
fn is_in_memory(word: u64) -> bool
    ensures { result ≡ is_memory_reference BASE 16384 word }
{
    if word == 0 {
        return true;
    }
    is_word(word) && is_object_place(word)
}

/// Whether the address is of a word behind the first two on a page from 3 on.
fn is_object_place(at: Addr) -> bool
    requires { is_address BASE at ≡ true }
    ensures { result ≡ ((nat_le 3 (page_in BASE at) && nat_lt (page_in BASE at) 16384) && nat_le 2 (word_in BASE at)) }
{
    let page = page_within(at);
    (page >= 3 && page < u64::from(MOST_PAGES)) && word_within(at) >= 2
}

/// The reference in a file that stands for an address.
#[tactic(auto, unfolding(pm3_types::specs::PageForm::file_reference, pm3_types::specs::PageForm::is_memory_reference))]
fn into_file(word: Addr) -> u64
    requires { is_memory_reference BASE 16384 word ≡ true }
    ensures { result ≡ file_reference BASE word }
{
    if word == 0 {
        return 0;
    }
    4_294_967_296 * page_within(word) + 8 * word_within(word) as u64
}
