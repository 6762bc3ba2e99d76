//! The values with which the units of a heap start.
ghost use Rattle.std.specs.Prelude.{◌≡◌, ◌≢◌, ℕ, ◌+◌, ◌-◌, ◌<◌, ◌≤◌, None, Some, length, replicate, slice_index_or};
ghost use Rattle.std.specs.FinMap as map;
ghost use Rattle.pm3_txn.specs.Starts.{AreEmptyFrom, GetSpaces, IsFilled, first_home, page_home, with_home};

use crate::values::{Turn, Value};
use pm3_access::Space;
use pm3_disk::Disk;
use pm3_page::Pages;
use pm3_table::{Homes, Unit};
use std::alloc::Global;

/// Puts the images into the homes of their pages, a space without pages into each of the spaces' homes, and the turn's value.
pub(crate) fn filled<D: Disk>(
    alloc: Global,
    homes: Homes<Value<D>>,
    pages: u32,
    images: Pages,
    turn: Turn<D>,
) -> Homes<Value<D>>
    requires small { pages < 16385 }
    requires blank { homes ≡ replicate (pages + 33) None }
    ensures wide { length result ≡ pages + 33 }
    ensures filled { IsFilled result (first_home pages images.images turn) (pages + 33) }
{
    let homes = with_pages(homes, pages, images);
    let mut homes = with_spaces(alloc, homes, pages);
    homes.set(Unit::Turn, Value::Turn(turn));
    homes
}

fn with_pages<D: Disk>(homes: Homes<Value<D>>, pages: u32, images: Pages) -> Homes<Value<D>>
    requires small { pages < 16385 }
    requires blank { homes ≡ replicate (pages + 33) None }
    ensures wide { length result ≡ pages + 33 }
    ensures filled { IsFilled result (page_home images.images) pages }
    ensures empty { AreEmptyFrom result pages }
{
    let mut homes = homes;
    let mut images = images;
    for page in 0..pages {
        move_page(&mut homes, &mut images, page);
    }
    homes
}

/// Moves the image of a page, where there is one, into the page's home.
fn move_page<D: Disk>(homes: &mut Homes<Value<D>>, images: &mut Pages, page: u32)
    requires low { page + 33 < length homes.old }
    requires empty { slice_index_or homes.old page None ≡ None }
    ensures homes { homes.new ≡ with_home homes.old page (page_home images.old.images page) }
    ensures others { (q : ℕ) → q ≢ page → map.get images.new.images q ≡ map.get images.old.images q }
{
    let Some(image) = images.take(page) else {
        return;
    };
    homes.set(Unit::Page(page), Value::Page(image));
}

fn with_spaces<D: Disk>(alloc: Global, homes: Homes<Value<D>>, pages: u32) -> Homes<Value<D>>
    requires small { pages < 16385 }
    requires wide { length homes ≡ pages + 33 }
    requires empty { AreEmptyFrom homes pages }
    ensures wide { length result ≡ pages + 33 }
    ensures filled { GetSpaces pages homes result 32 }
    ensures empty { AreEmptyFrom result (pages + 32) }
{
    let mut homes = homes;
    for space in 0..32u32 {
        homes.set(Unit::Space(space), Value::Space(Space::new(alloc, space)));
    }
    homes
}
