//! Images of pages in memory, their form in a file, and collections of them.
//!
//! A layer above may rely on three things. An `Image` is seen as its page's number and its sheet: the 512 words, with
//! references as addresses, and for each word whether an object begins there; each call says which word it reads or
//! writes, and all others stay. `Image::from_file` gives an image exactly where the bytes have the form of a page, and
//! else names the first word that departs; `Image::to_file` writes the same bytes, and `page_form_law` says what the
//! form means: objects one after another without a gap, with sound heads, names, references and padding. `Pages` is a
//! finite map from page numbers to images, and `PageSet` a set of page numbers, in both of which a look-up takes constant
//! time. What page 0 says of a store are its `Marks`, whose bytes and bounds are in `Head` of specs/.
#![tactic(auto)]

// Images and their objects.
mod addresses;
mod heads;
mod images;
mod start_bits;

// Their form in a file.
mod conversion;
mod page_file;
mod references;
mod roles;
mod steps;

// Collections of images and of page numbers, and what page 0 says.
mod bits;
#[cfg(test)]
mod collection_tests;
mod marks;
mod page_set;
mod pages;
mod sheets;
mod slots;

// Laws of both.
mod laws;
#[cfg(test)]
mod tests;

pub use addresses::{Addr, PageNo, ROOTS_PAGE, is_word, page_of, page_within, word_within};
pub use images::Image;
pub use laws::{images_stay_at_home, page_form_law};
pub use marks::Marks;
pub use page_file::ImageFault;
pub use page_set::PageSet;
pub use pages::Pages;
pub use pm3_core::BASE;
pub use sheets::{pages_are_low, sheets_law};
