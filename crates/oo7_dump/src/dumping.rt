//! The dump of a store.
ghost use Rattle.std.specs.Prelude.{◌≡◌, ◌++◌, ℕ, codes, List, Some, None, IsSome, IfOk, IfErr, OnOk, IsErrOf};
ghost use Rattle.std.specs.FinMap as map;
ghost use Rattle.std.specs.Fmt.{decimal};
ghost use Rattle.pm3_core.specs.declared.naming.TheConstants.{BASE};
ghost use Rattle.pm3_disk.specs.Devices.{HasFailed, HasNotFailed, OnlyReads};
ghost use Rattle.pm3_types.specs.Dump.{dump, object_lines, record_text, text_of};
ghost use Rattle.pm3_types.specs.Graph.{Part};
ghost use Rattle.pm3_types.specs.Layout.{PageImage};
ghost use Rattle.pm3_types.specs.Shown as shown;
ghost use Rattle.pm3_journal.specs.Opened.{IsOpenStore};
ghost use Rattle.pm3_journal.specs.Opening.{OpenTo};
ghost use Rattle.oo7_dump.specs.ByAddress.{AreAllMet, IsTextOf};
ghost use Rattle.oo7_dump.specs.Held.{AreAmong, AreHeld, AreSound, IsHeld};
ghost use Rattle.oo7_dump.specs.Lost.{HasLost};
ghost use Rattle.oo7_dump.specs.Raw.{raw_at, root_words};

use crate::catalogs::types_are_sound;
use crate::faults::DumpFault;
use crate::holding::image_at;
use crate::looking::root_addresses;
use crate::met::Met;
use crate::printing::{put_object, put_roots};
use crate::text::Text;
use crate::walking::meet_reached;
use pm3_disk::Disk;
use pm3_journal::{Opened, PageFault};
use pm3_page::{Addr, Pages};
use pm3_types::{Catalog, Memory};
use std::alloc::Global;

/// Prints what the roots of a store reach. Pages that aren't held are loaded on the way, each once, and stay held. No byte is
/// written. Of a store whose journal is stopped the text is that of the images that are held, as it is of every store; but
/// what its files open to may have one commit more.
pub fn dump<D: Disk>(alloc: Global, opened: &mut Opened<D>) -> Result<Text, DumpFault>
    requires open { IsOpenStore D.Disk opened.old }
    ensures text { IfOk result (λ text. (file journal : List ℕ) (graph : Part) → D.content opened.old.pages ≡ Some file
        → D.content opened.old.journal.disk ≡ Some journal → opened.old.journal.stopped ≡ None → OpenTo BASE file journal graph
        → text ≡ dump opened.old.catalog graph) }
    ensures shown { IfOk result (λ text. IsTextOf opened.old.catalog BASE (AreAmong opened.new.images.images) text) }
    ensures open { IsOpenStore D.Disk opened.new }
    ensures journal { opened.new.journal ≡ opened.old.journal }
    ensures catalog { opened.new.catalog ≡ opened.old.catalog }
    ensures marks { opened.new.marks ≡ opened.old.marks }
    ensures held { (page : ℕ) (image : PageImage) → map.get opened.old.images.images page ≡ Some image → map.get opened.new.images.images page ≡ Some image }
    ensures reads { OnlyReads D.Disk opened.old.pages opened.new.pages }
    ensures page_fault { IsErrOf result DumpFault.PageFault → HasFailed D.Disk opened.old.pages opened.new.pages }
    ensures honest { ¬ IsErrOf result DumpFault.PageFault → HasNotFailed D.Disk opened.old.pages opened.new.pages }
    ensures damaged { (page word : ℕ) → IsErrOf result (DumpFault.Damaged page word)
        → HasLost opened.old.catalog opened.old.marks.pages (D.content opened.old.pages) opened.new.images.images page word }
    ensures sound { (page word : ℕ) (file journal : List ℕ) (graph : Part) → D.content opened.old.pages ≡ Some file
        → D.content opened.old.journal.disk ≡ Some journal → opened.old.journal.stopped ≡ None → OpenTo BASE file journal graph
        → ¬ IsErrOf result (DumpFault.Damaged page word) }
{
    types_are_sound(&opened.catalog);
    match meet_opened(alloc, opened) {
        Ok(met) => write_text(
            alloc,
            opened.marks.pages,
            &opened.catalog,
            &opened.images,
            &met,
        ),
        Err(fault) => Err(fault),
    }
}

/// Meets all objects that the roots of a store reach.
fn meet_opened<D: Disk>(alloc: Global, opened: &mut Opened<D>) -> Result<Met, DumpFault>
    requires open { IsOpenStore D.Disk opened.old }
    ensures open { IsOpenStore D.Disk opened.new }
    ensures journal { opened.new.journal ≡ opened.old.journal }
    ensures catalog { opened.new.catalog ≡ opened.old.catalog }
    ensures marks { opened.new.marks ≡ opened.old.marks }
    ensures kept { (page : ℕ) (image : PageImage) → map.get opened.old.images.images page ≡ Some image → map.get opened.new.images.images page ≡ Some image }
    ensures reads { OnlyReads D.Disk opened.old.pages opened.new.pages }
    ensures page_fault { IsErrOf result DumpFault.PageFault → HasFailed D.Disk opened.old.pages opened.new.pages }
    ensures honest { ¬ IsErrOf result DumpFault.PageFault → HasNotFailed D.Disk opened.old.pages opened.new.pages }
    ensures roots { OnOk result (IsSome (map.get opened.new.images.images 2)) }
    ensures held { IfOk result (λ met. AreHeld opened.new.images.images met) }
    ensures met { IfOk result (λ met. AreAllMet opened.old.catalog BASE (AreAmong opened.new.images.images) met) }
    ensures lost { (page word : ℕ) → IsErrOf result (DumpFault.Damaged page word)
        → HasLost opened.old.catalog opened.old.marks.pages (D.content opened.old.pages) opened.new.images.images page word }
{
    let mut reader = match opened.reader() {
        Ok(reader) => reader,
        Err(PageFault) => return Err(DumpFault::PageFault),
    };
    let pages = opened.marks.pages;
    let met = meet_reached(
        alloc,
        &mut reader,
        pages,
        &opened.catalog,
        &mut opened.images,
    );
    opened.absorb(reader);
    met
}

/// The text of the objects that were met, whose pages are held.
fn write_text(
    alloc: Global,
    pages: u32,
    catalog: &Catalog,
    images: &Pages,
    met: &Met,
) -> Result<Text, DumpFault>
    requires sound { AreSound catalog.now pages images.now.images }
    requires roots { IsSome (map.get images.now.images 2) }
    requires held { AreHeld images.now.images met.now }
    ensures text { IfOk result (λ text. (all : shown.Images) → AreAmong images.now.images all
        → text ≡ text_of catalog.now (raw_at catalog.now BASE all) (root_words (map.get all 2)) met.now) }
    ensures fault { IfErr result (λ fault. fault ≡ DumpFault.Memory) }
{
    match lines(alloc, pages, catalog, images, met) {
        Ok(text) => Ok(text),
        Err(Memory) => Err(DumpFault::Memory),
    }
}

/// The lines of the root slots, and of the objects that were met.
fn lines(
    alloc: Global,
    pages: u32,
    catalog: &Catalog,
    images: &Pages,
    met: &Met,
) -> Result<Text, Memory>
    requires sound { AreSound catalog.now pages images.now.images }
    requires roots { IsSome (map.get images.now.images 2) }
    requires held { AreHeld images.now.images met.now }
    ensures { IfOk result (λ text. (all : shown.Images) → AreAmong images.now.images all
        → text ≡ text_of catalog.now (raw_at catalog.now BASE all) (root_words (map.get all 2)) met.now) }
{
    let roots = root_addresses(alloc, images)?;
    let mut text = Text::new(alloc);
    put_roots(&mut text, met, &roots)?;
    put_objects(pages, catalog, images, met, &mut text)?;
    Ok(text)
}

/// Adds the lines of the objects that were met.
fn put_objects(
    pages: u32,
    catalog: &Catalog,
    images: &Pages,
    met: &Met,
    text: &mut Text,
) -> Result<(), Memory>
    requires sound { AreSound catalog.now pages images.now.images }
    requires held { AreHeld images.now.images met.now }
    ensures { OnOk result ((all : shown.Images) → AreAmong images.now.images all
        → text.new ≡ text.old ++ object_lines catalog.now (raw_at catalog.now BASE all) met.now 1 met.now) }
{
    for place in 0..met.len() {
        let Some(at) = met.at(place) else {
            unreachable!()
        };
        put_object_at(pages, catalog, images, met, text, place as u64 + 1, at)?;
    }
    Ok(())
}

/// Adds the line of an object that was met.
fn put_object_at(
    pages: u32,
    catalog: &Catalog,
    images: &Pages,
    met: &Met,
    text: &mut Text,
    number: u64,
    at: Addr,
) -> Result<(), Memory>
    requires sound { AreSound catalog.now pages images.now.images }
    requires held { IsHeld images.now.images at }
    ensures { OnOk result ((all : shown.Images) → AreAmong images.now.images all
        → text.new ≡ text.old ++ (decimal number ++ codes " " ++ record_text catalog.now met.now (raw_at catalog.now BASE all at) ++ codes "\n")) }
{
    let image = image_at(pages, images, at);
    put_object(text, met, catalog, number, image, at)
}
