//! The page file of a store: its head, its catalog and its pages.
//!
//! A layer above may rely on three things. What is read is said of the file's own bytes: marks, a catalog or an image are
//! those of the bytes at their place, and a refusal names the first field or word that departs from the form. `format` and
//! `write_images` leave exactly the bytes that their clauses name, and a crash then leaves these. While `write_images`
//! runs, and after a fault in it, a crash leaves no page changed but the ones that it was given and page 0, and page 0 keeps
//! its bytes until the others are written.
#![tactic(auto)]

// What can go wrong.
mod faults;

// The bytes of the head, of pages and of their fields, and a law of them.
mod fields;
mod head;
mod laws;
mod padding;

// The calls on a disk or a reader.
mod catalogs;
mod fresh;
mod images;
mod marks;
#[cfg(test)]
mod tests;
mod transfer;
mod writing;

pub use catalogs::read_catalog;
pub use faults::{CatalogReadFault, LoadFault, MarksFault, PageFault};
pub use fresh::format;
pub use images::load;
pub use laws::heads;
pub use marks::{read_marks, read_marks_of};
pub use writing::write_images;
