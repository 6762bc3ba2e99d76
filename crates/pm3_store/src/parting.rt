//! Images that are set apart for a while.
ghost use Rattle.std.specs.Prelude.{◌≡◌, ◌≢◌, ◌<◌, ◌≤◌, ℕ, true, None};
ghost use Rattle.std.specs.Option.{option_or};
ghost use Rattle.std.specs.FinMap as map;
ghost use Rattle.pm3_page.specs.PageMap.{IsAtHome};
ghost use Rattle.pm3_journal.specs.Summaries.{has_page};
ghost use Rattle.pm3_store.specs.Parting.{ArePartedBy, Moves, StaysOrMoves};

use pm3_journal::Entries;
use pm3_page::{PageNo, Pages};

/// Moves the images of the pages that no entry has to `others`, where there is room for all.
pub(crate) fn set_apart(images: &mut Pages, entries: &Entries, others: &mut Pages)
    requires home { IsAtHome images.old.images }
    requires none { others.old.images ≡ map.empty }
    requires room { map.len images.old.images ≤ others.old.spare }
    ensures parted { ArePartedBy (has_page entries.now.summaries) images.old.images images.new.images others.new.images }
    ensures room { map.len others.new.images ≤ images.new.spare }
    ensures fewer { map.len images.new.images ≤ map.len images.old.images }
{
    let mut start = 0;
    while let Some(page) = images.next(start) {
        settle(images, entries, others, page);
        start = page + 1;
    }
}

/// Moves the image of a page to `others` unless an entry has the page.
fn settle(images: &mut Pages, entries: &Entries, others: &mut Pages, page: PageNo)
    requires there { map.contains_key images.old.images page ≡ true }
    requires home { IsAtHome images.old.images }
    requires absent { map.get others.old.images page ≡ None }
    requires room { 0 < others.old.spare }
    ensures { StaysOrMoves (has_page entries.now.summaries page) page images.old others.old images.new others.new }
{
    if entries.has(page) {
        return;
    }
    move_image(images, others, page);
}

/// Moves the image of a page.
fn move_image(from: &mut Pages, to: &mut Pages, page: PageNo)
    requires there { map.contains_key from.old.images page ≡ true }
    requires home { IsAtHome from.old.images }
    requires absent { map.get to.old.images page ≡ None }
    requires room { 0 < to.old.spare }
    ensures { Moves page from.old to.old from.new to.new }
{
    let Some(image) = from.take(page) else {
        unreachable!()
    };
    to.put(image);
}

/// Moves all images of `others` back, in the room that they left.
pub(crate) fn rejoin(images: &mut Pages, others: &mut Pages)
    requires home { IsAtHome others.old.images }
    requires apart { (page : ℕ) → map.get others.old.images page ≢ None → map.get images.old.images page ≡ None }
    requires room { map.len others.old.images ≤ images.old.spare }
    ensures { (page : ℕ) → map.get images.new.images page ≡ option_or (map.get others.old.images page) (map.get images.old.images page) }
{
    let mut start = 0;
    while let Some(page) = others.next(start) {
        move_image(others, images, page);
        start = page + 1;
    }
}
