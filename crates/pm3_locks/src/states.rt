//! Where a page is settled.

/// A page of a space that is held, or a persistent page that is held by itself.
#[derive(Debug, PartialEq, Eq, Clone, Copy, Drop)]
pub enum PageState {
    Volatile(u32),
    Held,
}
