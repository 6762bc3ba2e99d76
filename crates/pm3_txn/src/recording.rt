//! The entry of a commit.
ghost use Rattle.std.specs.Prelude.{◌≡◌, ◌<◌, ◌≤◌, ◌+◌, ◌^◌, ℕ, [], true, length, map, max, IfOk, OnOk};
ghost use Rattle.std.specs.FinMap as images;
ghost use Rattle.std.specs.FinMap.{contains_key};
ghost use Rattle.pm3_journal.specs.JournalState.{HasRoom};
ghost use Rattle.pm3_journal.specs.Pages.{page_at};
ghost use Rattle.pm3_txn.specs.Committing.{AreFiled, AreWritable, HasItem, HasMadeRoom, IsEntryFor, IsEntryOf, file_items};
ghost use Rattle.pm3_txn.specs.Frontiers.{IsTop};
ghost use Rattle.pm3_txn.specs.Slots.{turn_state};

use crate::values::Turn;
use pm3_disk::Disk;
use pm3_journal::{Entry, FilePages};
use pm3_page::{Image, Pages};
use pm3_table::Memory;
use pm3_types::Catalog;
use std::alloc::Global;

/// Makes the entry of what a transaction wrote, with room for it in the journal.
pub(crate) fn entry_for<D: Disk>(
    alloc: Global,
    catalog: &Catalog,
    turn: &mut Turn<D>,
    tag: u32,
    written: &Pages,
) -> Result<Entry, Memory>
    requires sound { AreWritable catalog.now 16384 written.now.images }
    ensures entry { IfOk result (λ entry. IsEntryFor catalog.now tag (turn_state turn.old) written.now.images entry) }
    ensures room { HasMadeRoom turn.old turn.new }
    ensures enough { IfOk result (λ entry. HasRoom turn.new.journal.room (length entry.pages.items)) }
    ensures filed { IfOk result (λ _. AreFiled catalog.now written.now.images) }
{
    let Ok(()) = turn.journal.reserve(written.len()) else {
        return Err(Memory);
    };
    let pages = encoded(alloc, catalog, written)?;
    let high_page = high_above(turn.high_page, &pages);
    Ok(Entry {
        tag,
        next_name: turn.next_name,
        high_page,
        pins: 0,
        moved: 0,
        pages,
    })
}

/// The entry of what a pass wrote, with these counts, and with its next name at least this one, in the room that was made for it.
pub(crate) fn entry_of_pass<D: Disk>(
    catalog: &Catalog,
    turn: &Turn<D>,
    tag: u32,
    next_name: u64,
    written: &Pages,
    pages: FilePages,
    pins: u32,
    moved: u32,
) -> Entry
    requires sound { AreWritable catalog.now 16384 written.now.images }
    requires none { pages.items ≡ [] }
    requires room { images.len written.now.images ≤ pages.room }
    requires names { (turn.now.next_name ≤ 2 ^ 62) × (next_name ≤ 2 ^ 62) }
    ensures entry { IsEntryOf catalog.now tag (turn_state turn.now) written.now.images result }
    ensures name { result.next_name ≡ max turn.now.next_name next_name }
    ensures counts { (result.pins ≡ pins) × (result.moved ≡ moved) }
    ensures filed { AreFiled catalog.now written.now.images }
    ensures count { length result.pages.items ≡ images.len written.now.images }
{
    let mut pages = pages;
    encode_all(catalog, written, &mut pages);
    let high_page = high_above(turn.high_page, &pages);
    Entry {
        tag,
        next_name: turn.next_name.max(next_name),
        high_page,
        pins,
        moved,
        pages,
    }
}

/// The images in the form of a file.
fn encoded(alloc: Global, catalog: &Catalog, written: &Pages) -> Result<FilePages, Memory>
    requires sound { AreWritable catalog.now 16384 written.now.images }
    ensures items { IfOk result (λ pages. pages.items ≡ file_items catalog.now written.now.images) }
    ensures filed { IfOk result (λ _. AreFiled catalog.now written.now.images) }
{
    let mut pages = FilePages::new(alloc);
    let Ok(()) = pages.reserve(written.len()) else {
        return Err(Memory);
    };
    encode_all(catalog, written, &mut pages);
    Ok(pages)
}

/// Adds the images in the form of a file to an empty list, in the room that was made.
fn encode_all(catalog: &Catalog, written: &Pages, pages: &mut FilePages)
    requires sound { AreWritable catalog.now 16384 written.now.images }
    requires none { pages.old.items ≡ [] }
    requires room { images.len written.now.images ≤ pages.old.room }
    ensures items { pages.new.items ≡ file_items catalog.now written.now.images }
    ensures filed { AreFiled catalog.now written.now.images }
{
    let mut from = 0;
    while let Some(page) = written.next(from) {
        let Some(image) = written.get(page) else {
            unreachable!()
        };
        let mut bytes = [0u8; 4096];
        image.to_file(catalog, &mut bytes);
        pages.push(page, &bytes);
        from = page + 1;
    }
}

/// The greatest of a high page and one above each of the pages.
fn high_above(high_page: u32, pages: &FilePages) -> u32
    requires low { (i : ℕ) → i < length pages.now.items → page_at pages.now.items i < 16384 }
    ensures { IsTop (HasItem pages.now.items) high_page result }
{
    let count = pages.len();
    if count == 0 {
        return high_page;
    }
    high_page.max(pages.number(count - 1) + 1)
}
