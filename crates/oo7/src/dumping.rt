//! The command `dump`.
ghost use Rattle.std.specs.Prelude.{◌≡◌, None, OnOk, slice_index_or};
ghost use Rattle.oo7.specs.Dumps.{DumpEnds, refusal_at};
ghost use Rattle.oo7_schema.specs.Schema.{schema};
ghost use Rattle.pm3_journal.specs.Opened.{IsOpenStore};
ghost use Rattle.pm3_store.specs.Creation.{AreOnward, AreSynced, files};
ghost use Rattle.pm3_store.specs.Standing.{AreRead, files_of};

use crate::opening::open_store;
use crate::performing::Performed;
use crate::refusal::Refusal;
use oo7_dump::{DumpFault, Text};
use pm3_disk::Disk;
use pm3_journal::Opened;
use std::alloc::Global;

/// Opens a store and prints what its roots reach.
pub(crate) fn dump<D: Disk>(alloc: Global, pages: D, journal: D) -> Performed<D>
    ensures reason { DumpEnds D.Disk (files pages journal) (files result.pages result.journal) result.outcome }
    ensures read { AreRead D.Disk (files pages journal) (files result.pages result.journal) }
    ensures synced { OnOk result.outcome (AreSynced D.Disk (files result.pages result.journal)) }
{
    let mut opened = match open_store(alloc, pages, journal) {
        Ok(opened) => opened,
        Err(refused) => return Performed::on_none(refused),
    };
    let outcome = text_of(alloc, &mut opened);
    Performed::on_store(outcome, opened)
}

/// The text of an open store.
fn text_of<D: Disk>(alloc: Global, opened: &mut Opened<D>) -> Result<Option<Text>, Refusal>
    requires open { IsOpenStore D.Disk opened.old }
    requires runs { opened.old.journal.stopped ≡ None }
    requires catalog { opened.old.catalog ≡ schema }
    ensures ends { DumpEnds D.Disk (files_of opened.old) (files_of opened.new) result }
    ensures read { AreRead D.Disk (files_of opened.old) (files_of opened.new) }
{
    match oo7_dump::dump(alloc, opened) {
        Ok(text) => Ok(Some(text)),
        Err(DumpFault::PageFault) => Err(Refusal::PageFault),
        Err(DumpFault::Damaged { page, word }) => Err(damage(opened, page, word)),
        Err(DumpFault::Memory) => Err(Refusal::Memory),
    }
}

/// The refusal of a page that is damaged at a word: at its place in the journal, where that has the page, or in the page file.
fn damage<D: Disk>(opened: &Opened<D>, page: u32, word: u32) -> Refusal
    ensures { result ≡ refusal_at (slice_index_or opened.now.journal.offsets page None) page word }
{
    let word = word.min(511);
    match opened.journal.place_of(page, word) {
        Some(offset) => Refusal::JournalDamaged { offset },
        None => Refusal::PageDamaged {
            offset: 4096 * u64::from(page) + 8 * u64::from(word),
        },
    }
}
