//! References follow the objects that moved.
ghost use Rattle.std.specs.Prelude.{◌≡◌, ◌≢◌, ◌+◌, ◌<◌, ℕ, true, Some, length, slice_index};
ghost use Rattle.pm3_types.specs.Layout.{begins_at, word_in, size_at};
ghost use Rattle.pm3_types.specs.PageForm.{IsSound};
ghost use Rattle.pm3_copy.specs.Renaming.{IsRenamed, IsPlaceIn, IsPlaceOf, IsRootPlace, IsUpdated, KeepsReferences};
ghost use Rattle.pm3_copy.specs.Tables.{follows, AreTables};
ghost use Rattle.pm3_types.specs.Whole.{IsWhole};

use crate::objects::{map_of, next_reference};
use crate::tables::Tables;
use pm3_page::{Addr, BASE, Image, ROOTS_PAGE};
use pm3_types::Catalog;

/// The number of root slots.
const ROOT_SLOTS: u32 = 16;

/// Lets all references of an image follow: those in the root slots, or those of its objects.
pub(crate) fn update(catalog: &Catalog, image: &mut Image, tables: &Tables)
    requires tables { AreTables BASE tables.now }
    requires keeps { KeepsReferences BASE (follows tables.now) }
    requires sound { IsSound catalog.now BASE 16384 image.old }
    requires long { length image.old.sheet.words ≡ 512 }
    ensures page { image.new.page ≡ image.old.page }
    ensures updated { IsUpdated catalog.now (follows tables.now) image.old image.new }
    ensures sound { IsSound catalog.now BASE 16384 image.new }
{
    if image.page() == ROOTS_PAGE {
        update_roots(image, tables);
    } else {
        update_objects(catalog, image, tables);
    }
}

/// Lets the references in the root slots follow.
fn update_roots(image: &mut Image, tables: &Tables)
    requires tables { AreTables BASE tables.now }
    requires roots { image.old.page ≡ 2 }
    requires long { length image.old.sheet.words ≡ 512 }
    ensures page { image.new.page ≡ image.old.page }
    ensures sheet { IsRenamed IsRootPlace (follows tables.now) image.old.sheet image.new.sheet }
{
    for slot in 0..ROOT_SLOTS {
        let at = image.root(slot);
        image.set_root(slot, tables.follow(at));
    }
}

/// Lets the references of all objects of an image follow.
fn update_objects(catalog: &Catalog, image: &mut Image, tables: &Tables)
    requires tables { AreTables BASE tables.now }
    requires sound { IsSound catalog.now BASE 16384 image.old }
    requires long { length image.old.sheet.words ≡ 512 }
    ensures page { image.new.page ≡ image.old.page }
    ensures sheet { IsRenamed (IsPlaceIn catalog.now image.old.sheet) (follows tables.now) image.old.sheet image.new.sheet }
{
    let mut at = 0;
    while let Some(next) = image.next(at) {
        update_object(catalog, image, next, tables);
        at = next;
    }
}

/// Lets the references of the object at `at` follow.
fn update_object(catalog: &Catalog, image: &mut Image, at: Addr, tables: &Tables)
    requires tables { AreTables BASE tables.now }
    requires object { begins_at BASE image.old at ≡ true }
    requires whole { IsWhole catalog.now image.old.sheet (word_in BASE at) }
    requires long { length image.old.sheet.words ≡ 512 }
    ensures page { image.new.page ≡ image.old.page }
    ensures sheet { IsRenamed (IsPlaceOf catalog.now image.old.sheet (word_in BASE at)) (follows tables.now) image.old.sheet image.new.sheet }
{
    let map = map_of(catalog, image, at);
    let tail = image.tail_len(at);
    let mut from = 0;
    while let Some(place) = next_reference(map, tail, from) {
        update_place(image, at, place, tables);
        from = place + 1;
    }
}

/// Lets the reference in a place of the object at `at` follow.
fn update_place(image: &mut Image, at: Addr, place: u32, tables: &Tables)
    requires tables { AreTables BASE tables.now }
    requires object { begins_at BASE image.old at ≡ true }
    requires within { word_in BASE at + 2 + place < 512 }
    requires long { length image.old.sheet.words ≡ 512 }
    ensures page { image.new.page ≡ image.old.page }
    ensures sheet { IsRenamed (λ i. i ≡ word_in BASE at + 2 + place) (follows tables.now) image.old.sheet image.new.sheet }
{
    let word = image.field(at, place);
    image.set_field(at, place, tables.follow(word));
}
