//! The addresses of the words of pages.
ghost use Rattle.std.specs.Prelude.{◌≡◌, ◌+◌, ◌-◌, ◌*◌, ◌/◌, ◌^◌, ◌<◌, ◌≤◌, ◌==◌, ◌&&◌, true, min};
ghost use Rattle.pm3_types.specs.Layout.{address, is_address, page_in, word_in};

use pm3_core::{BASE, PAGE_BYTES};

/// The number of a page.
pub type PageNo = u32;

/// An address: `BASE`, 4096 for each page before the address's own, and the byte within that page.
pub type Addr = u64;

/// The number of pages that a store may have.
pub(crate) const MOST_PAGES: PageNo = 16384;

/// The page of the roots.
pub const ROOTS_PAGE: PageNo = 2;

/// The address of a word of a page.
pub(crate) fn address_of(page: PageNo, word: usize) -> Addr
    requires { word < 512 }
    ensures { result ≡ address BASE page word }
{
    BASE + PAGE_BYTES * u64::from(page) + 8 * word as u64
}

/// Whether it is the address of a word of this page.
pub(crate) fn is_word_of(page: PageNo, at: Addr) -> bool
    ensures { result ≡ (is_address BASE at && (page_in BASE at == page)) }
{
    is_word(at) && page_within(at) == u64::from(page)
}

/// Whether it is the address of a word of some page.
#[tactic(auto, unfolding(pm3_types::specs::Layout::is_address))]
pub fn is_word(at: Addr) -> bool
    ensures { result ≡ is_address BASE at }
{
    at >= BASE && (at - BASE) % 8 == 0
}

/// The page in which the address lies.
#[tactic(auto, unfolding(pm3_types::specs::Layout::page_in), using(pm3_types::proofs::Addressing::above_base))]
pub fn page_within(at: Addr) -> u64
    requires { is_address BASE at ≡ true }
    ensures page { result ≡ page_in BASE at }
    ensures low { result < 2 ^ 52 }
{
    (at - BASE) / PAGE_BYTES
}

/// The page in which the address lies, where that number is one of a page.
pub fn page_of(at: Addr) -> PageNo
    requires word { is_address BASE at ≡ true }
    requires low { page_in BASE at < 2 ^ 32 }
    ensures { result ≡ page_in BASE at }
{
    page_within(at) as PageNo
}

/// The word of its page in which the address lies.
#[tactic(auto, unfolding(pm3_types::specs::Layout::word_in), using(pm3_types::proofs::Addressing::above_base))]
pub fn word_within(at: Addr) -> usize
    requires { is_address BASE at ≡ true }
    ensures word { result ≡ word_in BASE at }
    ensures low { result < 512 }
{
    ((at - BASE) % PAGE_BYTES / 8) as usize
}

/// How many words of this page begin at or before the address.
pub(crate) fn words_before(page: PageNo, at: Addr) -> usize
    ensures { result ≡ min 512 ((at + 8 - (BASE + 4096 * page)) / 8) }
{
    let start = BASE + PAGE_BYTES * u64::from(page);
    if at < start {
        return 0;
    }
    ((at - start) / 8 + 1).min(512) as usize
}
