//! The pages and the words of a store that addresses name.
ghost use Rattle.std.specs.Prelude.{◌≡◌, ◌<◌, true};
ghost use Rattle.pm3_types.specs.Layout.{is_address, page_in, word_in};

use pm3_page::{Addr, BASE, PageNo, word_within};

/// The page of a store of so many pages on which an address lies.
#[tactic(auto, unfolding(pm3_types::specs::Layout::page_in), using(pm3_types::proofs::Addressing::above_base))]
pub(crate) fn page_of(at: Addr, pages: u32) -> PageNo
    requires address { is_address BASE at ≡ true }
    requires low { page_in BASE at < pages }
    ensures { result ≡ page_in BASE at }
{
    match pm3_core::page_of(at, pages) {
        Some(page) => page,
        None => unreachable!(),
    }
}

/// The word of its page at which an address lies, as a page's faults are told.
pub(crate) fn word_of(at: Addr) -> u32
    requires { is_address BASE at ≡ true }
    ensures { result ≡ word_in BASE at }
{
    word_within(at) as u32
}
