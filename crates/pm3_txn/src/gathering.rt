//! The values of a table that was closed: what went with the turn, and the images of pages.
ghost use Rattle.std.specs.Prelude.{◌≡◌, ◌<◌, ◌≤◌, ◌+◌, false, length, IfSome, IfOk, IfErr};
ghost use Rattle.std.specs.FinMap as map;
ghost use Rattle.std.specs.Mem.Slots.{slots_items, IsFull};
ghost use Rattle.pm3_txn.specs.Closing.{AreLastDisks, IsStoreOf};
ghost use Rattle.pm3_txn.specs.Draining.{AreNoTurns, EndsWithTurn, HasTurnLast, is_turn};
ghost use Rattle.pm3_txn.specs.Gathering.{AreAtHome, AreImagesOf, IsNewImage, image_at, with_image};

use crate::draining::{let_go, let_slot_go, turn_of};
use crate::values::{Turn, Value};
use atomic_table::Closed;
use pm3_disk::Disk;
use pm3_journal::Opened;
use pm3_page::{Marks, Pages};
use pm3_table::Homes;
use pm3_types::Catalog;
use std::alloc::Global;

/// What went with the turn, and the images in the homes, or none where there is no memory for them. Spaces are let go.
fn gathered<D: Disk>(alloc: Global, homes: Homes<Value<D>>) -> (Turn<D>, Option<Pages>)
    requires last { HasTurnLast homes }
    requires home { AreAtHome homes }
    requires few { length homes ≤ 16417 }
    ensures turn { EndsWithTurn homes result.0 }
    ensures images { IfSome result.1 (λ images. AreImagesOf homes images.images) }
{
    let mut slots = homes.into_slots();
    let last = slots.pop();
    let Some(slot) = last else { unreachable!() };
    let turn = turn_of(slot);
    let count = slots.len() as u32;
    match room_for(alloc, count) {
        Some(images) => {
            let mut images = images;
            put_images(slots, &mut images);
            (turn, Some(images))
        }
        None => {
            let_go(slots);
            (turn, None)
        }
    }
}

/// No images, with room for so many, or none where there is no memory.
fn room_for(alloc: Global, count: u32) -> Option<Pages>
    ensures none { IfSome result (λ images. images.images ≡ map.empty) }
    ensures room { IfSome result (λ images. count ≤ images.spare) }
{
    let mut images = Pages::new(alloc);
    if images.reserve(count).is_err() {
        return None;
    }
    Some(images)
}

/// Puts the images of these homes under their pages, and lets all else go.
fn put_images<D: Disk>(slots: Vec<Option<Value<D>>>, images: &mut Pages)
    requires none { AreNoTurns slots.items (length slots.items) }
    requires home { AreAtHome slots.items }
    requires room { length slots.items ≤ images.old.spare }
    requires empty { images.old.images ≡ map.empty }
    ensures { AreImagesOf slots.items images.new.images }
{
    let mut slots = slots;
    for n in 0..slots.len() {
        let last = slots.pop();
        let Some(slot) = last else { unreachable!() };
        put_image(slot, images);
    }
    slots.destroy_empty();
}

fn put_image<D: Disk>(slot: Option<Value<D>>, images: &mut Pages)
    requires none { is_turn slot ≡ false }
    requires room { 0 < images.old.spare }
    requires new { IsNewImage images.old.images (image_at slot) }
    ensures images { images.new.images ≡ with_image images.old.images (image_at slot) }
    ensures spare { images.old.spare ≤ images.new.spare + 1 }
{
    match slot {
        None => {}
        Some(Value::Page(image)) => images.put(image),
        Some(Value::Space(_)) => {}
        Some(Value::Turn(_turn)) => unreachable!(),
    }
}

/// The store of this catalog that the homes have, or its page file and its journal's device, where there is no memory for the images.
pub(crate) fn store_of<D: Disk>(
    alloc: Global,
    pages: u32,
    catalog: Catalog,
    homes: Homes<Value<D>>,
) -> Result<Opened<D>, (D, D)>
    requires last { HasTurnLast homes }
    requires home { AreAtHome homes }
    requires few { length homes ≤ 16417 }
    ensures store { IfOk result (IsStoreOf D.Disk homes pages catalog) }
    ensures back { IfErr result (λ disks. AreLastDisks D.Disk homes disks.0 disks.1) }
{
    let (turn, images) = gathered(alloc, homes);
    let Turn {
        journal,
        next_name,
        high_page,
        file,
        opened: _,
    } = turn;
    let _keeps = journal.stopped();
    let marks = Marks {
        pages,
        high_page,
        next_name,
        next_seq: journal.next(),
    };
    match images {
        Some(images) => Ok(Opened {
            pages: file,
            journal,
            catalog,
            images,
            marks,
        }),
        None => Err((file, journal.into_disk())),
    }
}

/// The page file and the device of the journal, where the values come in plain slots. All else is let go.
pub(crate) fn disks_in<D: Disk>(closed: Closed<Option<Value<D>>, Global>) -> (D, D)
    requires full { IsFull closed.slots }
    requires last { HasTurnLast (slots_items closed.slots) }
    ensures { AreLastDisks D.Disk (slots_items closed.slots) result.0 result.1 }
{
    let Turn {
        journal,
        next_name: _,
        high_page: _,
        file,
        opened: _,
    } = turn_in(closed);
    let _keeps = journal.stopped();
    (file, journal.into_disk())
}

/// What went with the turn, where the values come in plain slots. The others are let go.
fn turn_in<D: Disk>(closed: Closed<Option<Value<D>>, Global>) -> Turn<D>
    requires full { IsFull closed.slots }
    requires last { HasTurnLast (slots_items closed.slots) }
    ensures { EndsWithTurn (slots_items closed.slots) result }
{
    let mut closed = closed;
    let count = closed.slot_count() - 1;
    for at in 0..count {
        let_slot_go(closed.take(at));
    }
    let turn = turn_of(closed.take(count));
    closed.free();
    turn
}
