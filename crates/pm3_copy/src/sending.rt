//! Images go from one collection to another, or are given up.
ghost use Rattle.std.specs.Prelude.{◌≡◌, ◌+◌, ◌<◌, ◌≤◌, ◌++◌, ℕ, List, length, true, None};
ghost use Rattle.std.specs.List.{Contains};
ghost use Rattle.std.specs.FinMap as map;
ghost use Rattle.std.specs.FinSet as set;
ghost use Rattle.pm3_page.specs.PageMap.{IsAtHome};
ghost use Rattle.pm3_copy.specs.Fresh.{AreLeast};
ghost use Rattle.pm3_copy.specs.Sending.{AreGone, AreSent};

use pm3_page::{PageNo, PageSet, Pages};

/// Sends the images of so many pages from one collection to another, the next ones from `start` on, and answers the page number
/// behind the last.
pub(crate) fn hand_out(count: u32, start: PageNo, from: &mut Pages, to: &mut Pages) -> PageNo
    requires home { IsAtHome from.old.images }
    requires apart { (p : ℕ) → map.contains_key from.old.images p ≡ true → map.get to.old.images p ≡ None }
    requires pages { (list : List ℕ) × (more : List ℕ) × AreLeast (map.contains_key from.old.images) start (list ++ more) × (length list ≡ count) }
    requires low { start ≤ 16384 }
    requires room { count ≤ to.old.spare }
    ensures sent { (list more : List ℕ) → AreLeast (map.contains_key from.old.images) start (list ++ more) → length list ≡ count
        → AreSent (Contains list) from.old.images to.old.images from.new.images to.new.images × AreLeast (map.contains_key from.new.images) result more }
    ensures low { result ≤ 16384 }
    ensures room { to.new.spare + count ≡ to.old.spare }
{
    let mut next = start;
    for _ in 0..count {
        let Some(page) = from.next(next) else {
            unreachable!()
        };
        send(page, from, to);
        next = page + 1;
    }
    next
}

/// Sends the images of these pages from one collection to another.
pub(crate) fn send_all(pages: &PageSet, from: &mut Pages, to: &mut Pages)
    requires home { IsAtHome from.old.images }
    requires apart { (p : ℕ) → map.contains_key from.old.images p ≡ true → map.get to.old.images p ≡ None }
    requires there { (p : ℕ) → set.contains pages.now p ≡ true → map.contains_key from.old.images p ≡ true }
    requires room { set.len pages.now ≤ to.old.spare }
    ensures sent { AreSent (λ p. set.contains pages.now p ≡ true) from.old.images to.old.images from.new.images to.new.images }
    ensures room { to.new.spare + set.len pages.now ≡ to.old.spare }
    ensures freed { from.old.spare ≤ from.new.spare }
{
    let mut next = 0;
    while let Some(page) = pages.next(next) {
        send(page, from, to);
        next = page + 1;
    }
}

/// Sends the image of a page from one collection to another.
fn send(page: PageNo, from: &mut Pages, to: &mut Pages)
    requires home { IsAtHome from.old.images }
    requires there { map.contains_key from.old.images page ≡ true }
    requires absent { map.get to.old.images page ≡ None }
    requires room { 0 < to.old.spare }
    ensures sent { AreSent (λ p. p ≡ page) from.old.images to.old.images from.new.images to.new.images }
    ensures home { IsAtHome from.new.images }
    ensures room { to.new.spare + 1 ≡ to.old.spare }
    ensures freed { from.new.spare ≡ from.old.spare + 1 }
{
    let Some(image) = from.take(page) else {
        unreachable!()
    };
    to.put(image);
}

/// Gives up the images of these pages.
pub(crate) fn give_up(pages: &PageSet, images: &mut Pages)
    ensures gone { AreGone pages.now images.old.images images.new.images }
    ensures room { images.old.spare ≤ images.new.spare }
{
    let mut next = 0;
    while let Some(page) = pages.next(next) {
        drop(images.take(page));
        next = page + 1;
    }
}
