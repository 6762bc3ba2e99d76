//! A store is opened with the classes of the design database.
ghost use Rattle.std.specs.Prelude.{◌≡◌, ℕ, ◌+◌, ◌<◌, ◌≤◌, List, length, slice_index, None, IfOk, IfErr, IfSome};
ghost use Rattle.oo7.specs.Opening.{IsFirstDifference, IsRefused, refusal_by};
ghost use Rattle.oo7_schema.specs.Schema.{schema};
ghost use Rattle.pm3_journal.specs.Opened.{IsOpenStore};
ghost use Rattle.pm3_store.specs.Creation.{AreSynced, files, NoneHasFailed};
ghost use Rattle.pm3_store.specs.Standing.{AreRead, files_of};
ghost use Rattle.pm3_types.specs.PageOne.{catalog_page};

use crate::refusal::Refusal;
use oo7_dump::types_are_sound;
use pm3_disk::Disk;
use pm3_journal::Opened;
use pm3_store::{OpenCause, OpenFault, open};
use pm3_types::Catalog;
use std::alloc::Global;

/// A store that wasn't opened: why, and its two files.
#[derive(Drop)]
pub(crate) struct Refused<D> {
    pub refusal: Refusal,
    pub pages: D,
    pub journal: D,
}

/// Opens a store. One with other classes than those of the program is damaged from the first byte of page 1 that differs.
pub(crate) fn open_store<D: Disk>(
    alloc: Global,
    pages: D,
    journal: D,
) -> Result<Opened<D>, Refused<D>>
    ensures open { IfOk result (λ opened. IsOpenStore D.Disk opened) }
    ensures runs { IfOk result (λ opened. opened.journal.stopped ≡ None) }
    ensures read { IfOk result (λ opened. AreRead D.Disk (files pages journal) (files_of opened)) }
    ensures synced { IfOk result (λ opened. AreSynced D.Disk (files_of opened)) }
    ensures honest { IfOk result (λ opened. NoneHasFailed D.Disk (files pages journal) (files_of opened)) }
    ensures catalog { IfOk result (λ opened. opened.catalog ≡ schema) }
    ensures back { IfErr result (λ refused. AreRead D.Disk (files pages journal) (files refused.pages refused.journal)) }
    ensures cause { IfErr result (λ refused. IsRefused D.Disk (files pages journal) (files refused.pages refused.journal) refused.refusal) }
{
    let Ok(catalog) = oo7_schema::catalog(alloc) else {
        unreachable!()
    };
    let opened = match open(alloc, pages, journal) {
        Ok(opened) => opened,
        Err(
            OpenFault {
                cause,
                pages,
                journal,
            },
        ) => {
            return Err(Refused {
                refusal: refusal_of(cause),
                pages,
                journal,
            });
        }
    };
    match types_differ(&opened.catalog, &catalog) {
        None => Ok(opened),
        Some(at) => {
            let Opened { pages, journal, .. } = opened;
            Err(Refused {
                refusal: Refusal::PageDamaged {
                    offset: 4096 + u64::from(at),
                },
                pages,
                journal: journal.into_disk(),
            })
        }
    }
}

/// The refusal of a store that doesn't open.
fn refusal_of(cause: OpenCause) -> Refusal
    ensures { result ≡ refusal_by cause }
{
    match cause {
        OpenCause::JournalFault => Refusal::JournalFault,
        OpenCause::JournalDamaged { offset } => Refusal::JournalDamaged { offset },
        OpenCause::PageFault => Refusal::PageFault,
        OpenCause::PageDamaged { offset } => Refusal::PageDamaged { offset },
        OpenCause::Memory => Refusal::Memory,
    }
}

/// The first byte in which the pages of two catalogs differ.
fn types_differ(one: &Catalog, other: &Catalog) -> Option<u32>
    ensures same { result ≡ None → one.now ≡ other.now }
    ensures first { IfSome result (λ at. IsFirstDifference (catalog_page one.now) (catalog_page other.now) at) }
{
    types_are_sound(one);
    types_are_sound(other);
    let (mut first, mut second) = ([0; 4096], [0; 4096]);
    one.encode_into(&mut first);
    other.encode_into(&mut second);
    first_difference(&first, &second)
}

/// The first place in which two runs of bytes differ.
fn first_difference(one: &[u8], other: &[u8]) -> Option<u32>
    requires same { length one.now ≡ length other.now }
    requires short { length one.now ≤ 4096 }
    ensures none { result ≡ None → one.now ≡ other.now }
    ensures first { IfSome result (λ at. IsFirstDifference one.now other.now at) }
{
    for at in 0..one.len() {
        if one[at] != other[at] {
            return Some(at as u32);
        }
    }
    None
}
