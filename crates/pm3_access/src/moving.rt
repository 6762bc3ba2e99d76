//! Images that move from some pages to others.
ghost use Rattle.std.specs.Prelude.{◌≡◌, ◌≢◌, ◌+◌, ◌<◌, ◌≤◌, ◌↔◌, ℕ, true, None, Some, IsTrue};
ghost use Rattle.std.specs.FinMap as map;
ghost use Rattle.pm3_page.specs.PageMap.{IsAtHome};
ghost use Rattle.pm3_access.specs.Parts.{both, HaveRoomFor, AreWritten, AreUnwritten, StaysOrMoves};

use pm3_page::{PageNo, Pages};

/// Moves the images that are not as they were found from `pages` to `written`.
pub(crate) fn take_written(pages: &mut Pages, found: &Pages, written: &mut Pages)
    requires home { IsAtHome pages.old.images }
    requires none { written.old.images ≡ map.empty }
    requires room { map.len pages.old.images ≤ written.old.spare }
    ensures written { AreWritten (record { left = pages.old.images; found = found.now.images }) written.new.images }
    ensures others { AreUnwritten (record { left = pages.old.images; found = found.now.images }) pages.new.images }
    ensures both { both pages.new.images written.new.images ≡ pages.old.images }
    ensures room { map.len written.new.images ≤ pages.new.spare }
    ensures written_room { map.len pages.new.images ≤ written.new.spare }
{
    let mut from = 0;
    while let Some(page) = pages.next(from) {
        settle(pages, found, written, page);
        from = page + 1;
    }
}

/// Moves the image of a page to `written` unless it is as it was found.
fn settle(pages: &mut Pages, found: &Pages, written: &mut Pages, page: PageNo)
    requires there { map.contains_key pages.old.images page ≡ true }
    requires home { IsAtHome pages.old.images }
    requires absent { map.get written.old.images page ≡ None }
    requires room { 0 < written.old.spare }
    ensures { StaysOrMoves page found.now.images pages.old written.old pages.new written.new }
{
    if is_as_found(pages, found, page) {
        return;
    }
    let Some(image) = pages.take(page) else {
        unreachable!()
    };
    written.put(image);
}

/// Whether the image of a page is as it was found.
fn is_as_found(pages: &Pages, found: &Pages, page: PageNo) -> bool
    requires { map.contains_key pages.now.images page ≡ true }
    ensures { IsTrue result ↔ (map.get pages.now.images page ≡ map.get found.now.images page) }
{
    let Some(image) = pages.get(page) else {
        unreachable!()
    };
    match found.get(page) {
        Some(before) => image.is_same(before),
        None => false,
    }
}

/// The pages with all images of others, in the room that was made, and the others without images.
pub(crate) fn put_all(mut pages: Pages, mut others: Pages) -> (Pages, Pages)
    requires home { IsAtHome others.images }
    requires apart { (page : ℕ) → map.get others.images page ≢ None → map.get pages.images page ≡ None }
    requires room { map.len others.images ≤ pages.spare }
    requires others_room { map.len pages.images ≤ others.spare }
    ensures both { result.0.images ≡ both pages.images others.images }
    ensures others { HaveRoomFor result.0.images result.1 }
{
    let mut from = 0;
    while let Some(page) = others.next(from) {
        let Some(image) = others.take(page) else {
            unreachable!()
        };
        pages.put(image);
        from = page + 1;
    }
    (pages, others)
}
