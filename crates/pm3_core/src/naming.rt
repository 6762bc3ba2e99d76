//! The addresses of pages.

ghost use Rattle.std.specs.Prelude.{ℕ, MatchOption};
ghost use Rattle.pm3_core.specs.Naming.{Names};

/// The address of the first byte of page 0.
pub const BASE: u64 = 0x0000_1000_0000_0000;

/// The bytes of a page.
pub const PAGE_BYTES: u64 = 4096;

/// The page, below `pages`, in which the address `word` falls, at its head or inside.
pub fn page_of(word: u64, pages: u32) -> Option<u32>
    ensures { MatchOption result ((page : ℕ) → Names pages word page → ⊥) (Names pages word) }
{
    if word < BASE {
        return None;
    }
    let page = (word - BASE) / PAGE_BYTES;
    if page < u64::from(pages) {
        Some(page as u32)
    } else {
        None
    }
}
