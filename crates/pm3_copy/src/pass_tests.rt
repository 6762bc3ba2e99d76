//! Passes over small images, planned and carried out.
ghost use Rattle.std.specs.Prelude.{◌≡◌, ◌<◌, ◌≤◌, ℕ, true, None, IfOk, IsTrue};
ghost use Rattle.std.specs.FinMap as map;
ghost use Rattle.std.specs.FinSet as set;
ghost use Rattle.pm3_page.specs.PageSheets.{AreSoundPages};
ghost use Rattle.pm3_copy.specs.Fresh.{AreBlank};
ghost use Rattle.pm3_copy.specs.Planning.{IsPlan};
ghost use Rattle.pm3_copy.specs.Spreading.{before_of};

use super::*;
use crate::sample_pages::{PageWord, expect, head, page_head, pages_of, reference, set_of, types};
use pm3_page::{BASE, Image, PageNo, PageSet, Pages};
use pm3_types::Catalog;
use std::alloc::Global;
use std::test::Fail;

/// Whether no page is in both.
fn are_apart(first: &Pages, second: &Pages) -> bool
    ensures { IsTrue result → (p : ℕ) → map.contains_key first.now.images p ≡ true → map.get second.now.images p ≡ None }
{
    let mut from = 0;
    while let Some(page) = first.next(from) {
        if second.get(page).is_some() {
            return false;
        }
        from = page + 1;
    }
    true
}

/// Whether each page has an image.
fn are_there(pages: &PageSet, images: &Pages) -> bool
    ensures { IsTrue result → (p : ℕ) → set.contains pages.now p ≡ true → map.contains_key images.now.images p ≡ true }
{
    let mut from = 0;
    while let Some(page) = pages.next(from) {
        if images.get(page).is_none() {
            return false;
        }
        from = page + 1;
    }
    true
}

/// So many blank pages from this one on.
fn blank_pages(alloc: Global, first: PageNo, count: u32) -> Result<Pages, Fail>
    ensures { IfOk result (λ pages. AreBlank pages.images) }
{
    let mut pages = Pages::new(alloc);
    for i in 0..count.min(1000) {
        add_blank(alloc, &mut pages, first.clamp(3, 10_000) + i)?;
    }
    Ok(pages)
}

/// Adds the image of a blank page.
fn add_blank(alloc: Global, pages: &mut Pages, page: PageNo) -> Result<(), Fail>
    requires blank { AreBlank pages.old.images }
    requires low { 3 ≤ page }
    requires high { page < 16384 }
    ensures { IfOk result (λ _. AreBlank pages.new.images) }
{
    if pages.get(page).is_some() {
        return Err(Fail::from("a page twice"));
    }
    let image = Image::blank(alloc, page)?;
    pages.reserve(1)?;
    pages.put(image);
    Ok(())
}

/// Carries a plan out if there is room for it and the fresh pages are as many as it wants.
fn carry_counted(
    made: Plan,
    catalog: &Catalog,
    volatile: &mut Pages,
    written: &mut Pages,
    fresh: Pages,
    chosen: &PageSet,
) -> Result<Report, Fail>
    requires plan { IsPlan catalog.now BASE (before_of volatile.old.images written.old.images chosen.now) made }
    requires there { (p : ℕ) → set.contains chosen.now p ≡ true → map.contains_key volatile.old.images p ≡ true }
    requires volatile { AreSoundPages catalog.now BASE 16384 volatile.old.images }
    requires written { AreSoundPages catalog.now BASE 16384 written.old.images }
    requires apart { (p : ℕ) → map.contains_key volatile.old.images p ≡ true → map.get written.old.images p ≡ None }
    requires no_roots { map.get volatile.old.images 2 ≡ None }
    requires fresh { AreBlank fresh.images }
    requires fresh_apart { (p : ℕ) → map.contains_key fresh.images p ≡ true → (map.get written.old.images p ≡ None) × (map.get volatile.old.images p ≡ None) }
    ensures { IfOk result (λ _. AreSoundPages catalog.now BASE 16384 volatile.new.images × AreSoundPages catalog.now BASE 16384 written.new.images) }
{
    if made.persistent > 16384 || made.volatile > 16384 {
        return Err(Fail::from("more pages than a store has"));
    }
    if fresh.len() != made.persistent + made.volatile {
        return Err(Fail::from("not as many pages as wanted"));
    }
    if written.spare() < made.persistent as usize + made.turned.len() as usize {
        return Err(Fail::from("no room among the written pages"));
    }
    if volatile.spare() < made.volatile as usize {
        return Err(Fail::from("no room in the space"));
    }
    Ok(carry_out(made, catalog, volatile, written, fresh))
}

/// The same, if also no page is of two kinds.
fn carry_apart(
    made: Plan,
    catalog: &Catalog,
    volatile: &mut Pages,
    written: &mut Pages,
    fresh: Pages,
    chosen: &PageSet,
) -> Result<Report, Fail>
    requires plan { IsPlan catalog.now BASE (before_of volatile.old.images written.old.images chosen.now) made }
    requires volatile { AreSoundPages catalog.now BASE 16384 volatile.old.images }
    requires written { AreSoundPages catalog.now BASE 16384 written.old.images }
    requires fresh { AreBlank fresh.images }
    ensures { IfOk result (λ _. AreSoundPages catalog.now BASE 16384 volatile.new.images × AreSoundPages catalog.now BASE 16384 written.new.images) }
{
    if !are_there(chosen, volatile) {
        return Err(Fail::from("a pinned page that is not there"));
    }
    if volatile.get(2).is_some() {
        return Err(Fail::from("roots in the space"));
    }
    if !are_apart(volatile, written) {
        return Err(Fail::from("a page of both kinds"));
    }
    if !are_apart(&fresh, written) {
        return Err(Fail::from("a fresh page among the written ones"));
    }
    if !are_apart(&fresh, volatile) {
        return Err(Fail::from("a fresh page among those of the space"));
    }
    carry_counted(made, catalog, volatile, written, fresh, chosen)
}

/// What a test looks at: the pages wanted of each kind, the pages turned and given up, the pins and the moves.
type Numbers = [u32; 6];

/// Plans a pass with these pinned pages and carries it out, on fresh pages from one on.
pub(crate) fn carry(
    alloc: Global,
    catalog: &Catalog,
    volatile: &mut Pages,
    written: &mut Pages,
    pinned: &[PageNo],
    first: PageNo,
) -> Result<Numbers, Fail>
    requires volatile { AreSoundPages catalog.now BASE 16384 volatile.old.images }
    requires written { AreSoundPages catalog.now BASE 16384 written.old.images }
    ensures { IfOk result (λ _. AreSoundPages catalog.now BASE 16384 volatile.new.images × AreSoundPages catalog.now BASE 16384 written.new.images) }
{
    written.reserve(100)?;
    volatile.reserve(100)?;
    let chosen = set_of(alloc, pinned)?;
    let made = plan(alloc, catalog, volatile, written, &chosen)?;
    let persistent = made.persistent;
    let staying = made.volatile;
    let fresh = blank_pages(alloc, first, persistent.min(500) + staying.min(500))?;
    let report = carry_apart(made, catalog, volatile, written, fresh, &chosen)?;
    Ok([
        persistent,
        staying,
        report.promoted.len(),
        report.freed.len(),
        report.pins,
        report.moved,
    ])
}

/// The images are these.
fn expect_images(images: &Pages, wanted: &Pages) -> Result<(), Fail> {
    expect(images.len() == wanted.len())?;
    let mut from = 0;
    while let Some(page) = images.next(from) {
        expect_image(images, wanted, page)?;
        from = page + 1;
    }
    Ok(())
}

/// The image of a page is the same among both.
fn expect_image(images: &Pages, wanted: &Pages, page: PageNo) -> Result<(), Fail> {
    let Some(image) = images.get(page) else {
        return Err(Fail::from("no image"));
    };
    let Some(other) = wanted.get(page) else {
        return Err(Fail::from("an image that should not be there"));
    };
    expect(image.is_same(other))
}

/// A pass over the images of a space with these words, with the first of these roots and with these pinned pages, has these numbers
/// and leaves images of the space and written ones with these words, and the second root.
fn expect_pass(
    alloc: Global,
    space: &[PageWord],
    roots: [u64; 2],
    pinned: &[PageNo],
    numbers: Numbers,
    space_after: &[PageWord],
    written_after: &[PageWord],
) -> Result<(), Fail> {
    let catalog = types(alloc)?;
    let mut volatile = pages_of(alloc, &catalog, 0, space)?;
    let mut written = pages_of(alloc, &catalog, roots[0], &[])?;
    let made = carry(alloc, &catalog, &mut volatile, &mut written, pinned, 10)?;
    expect(made == numbers)?;
    expect_images(&volatile, &pages_of(alloc, &catalog, 0, space_after)?)?;
    expect_images(
        &written,
        &pages_of(alloc, &catalog, roots[1], written_after)?,
    )
}

#[test]
fn an_empty_space_stays_empty(rt: HostRuntime) -> Result<(), Fail> {
    expect_pass(rt.alloc(), &[], [0, 0], &[], [0, 0, 0, 0, 0, 0], &[], &[])
}

/// Two objects that refer to each other, on pages 3 and 4.
fn cycle() -> [PageWord; 6] {
    [
        (3, 0, page_head(3, 5)),
        (3, 3, 1),
        (3, 4, reference(4, 2)),
        (4, 0, page_head(4, 5)),
        (4, 3, 2),
        (4, 4, reference(3, 2)),
    ]
}

#[test]
fn what_is_dead_is_given_up(rt: HostRuntime) -> Result<(), Fail> {
    expect_pass(
        rt.alloc(),
        &cycle(),
        [0, 0],
        &[],
        [0, 0, 0, 2, 0, 0],
        &[],
        &[],
    )
}

#[test]
fn what_a_pinned_page_refers_to_moves_within_the_space(rt: HostRuntime) -> Result<(), Fail> {
    expect_pass(
        rt.alloc(),
        &[
            (3, 0, page_head(3, 5)),
            (3, 3, 1),
            (3, 4, reference(4, 2)),
            (4, 0, page_head(4, 5)),
            (4, 3, 2),
        ],
        [0, 0],
        &[3],
        [0, 1, 0, 1, 1, 1],
        &[
            (3, 0, page_head(3, 5)),
            (3, 3, 1),
            (3, 4, reference(10, 2)),
            (10, 0, page_head(10, 5)),
            (10, 3, 2),
        ],
        &[],
    )
}

#[test]
fn a_cycle_turns_its_pinned_page_and_follows(rt: HostRuntime) -> Result<(), Fail> {
    expect_pass(
        rt.alloc(),
        &cycle(),
        [reference(4, 2), reference(10, 2)],
        &[3],
        [1, 0, 1, 1, 1, 1],
        &[],
        &[
            (3, 0, page_head(3, 5)),
            (3, 3, 1),
            (3, 4, reference(10, 2)),
            (10, 0, page_head(10, 5)),
            (10, 3, 2),
            (10, 4, reference(3, 2)),
        ],
    )
}

/// Two objects on page 3.
fn two_objects() -> [PageWord; 3] {
    [(3, 0, page_head(3, 8)), (3, 3, 1), (3, 6, 2)]
}

#[test]
fn a_page_that_a_word_names_stays_whole(rt: HostRuntime) -> Result<(), Fail> {
    let page = two_objects();
    let roots = [reference(3, 2), reference(3, 2)];
    expect_pass(
        rt.alloc(),
        &page,
        roots,
        &[3],
        [0, 0, 1, 0, 1, 0],
        &[],
        &page,
    )
}

#[test]
fn one_of_two_objects_moves_without_a_pin(rt: HostRuntime) -> Result<(), Fail> {
    expect_pass(
        rt.alloc(),
        &two_objects(),
        [reference(3, 2), reference(10, 2)],
        &[],
        [1, 0, 0, 1, 0, 1],
        &[],
        &[(10, 0, page_head(10, 5)), (10, 3, 1)],
    )
}

#[test]
fn a_pinned_page_turns_persistent_and_the_rest_follows(rt: HostRuntime) -> Result<(), Fail> {
    expect_pass(
        rt.alloc(),
        &[
            (3, 0, page_head(3, 392)),
            (3, 3, 1),
            (3, 4, reference(4, 389)),
            (3, 5, head(0, 3072)),
            (3, 6, 2),
            (4, 0, page_head(4, 392)),
            (4, 2, head(0, 3072)),
            (4, 3, 3),
            (4, 390, 4),
            (4, 391, reference(3, 2)),
        ],
        [reference(3, 2), reference(3, 2)],
        &[3],
        [1, 0, 1, 1, 1, 1],
        &[],
        &[
            (3, 0, page_head(3, 392)),
            (3, 3, 1),
            (3, 4, reference(10, 2)),
            (3, 5, head(0, 3072)),
            (3, 6, 2),
            (10, 0, page_head(10, 5)),
            (10, 3, 4),
            (10, 4, reference(3, 2)),
        ],
    )
}

#[test]
fn an_object_of_510_words_fills_a_page(rt: HostRuntime) -> Result<(), Fail> {
    expect_pass(
        rt.alloc(),
        &[(3, 0, page_head(3, 512)), (3, 2, head(0, 4056)), (3, 3, 1)],
        [reference(3, 2), reference(10, 2)],
        &[],
        [1, 0, 0, 1, 0, 1],
        &[],
        &[
            (10, 0, page_head(10, 512)),
            (10, 2, head(0, 4056)),
            (10, 3, 1),
        ],
    )
}

#[test]
fn a_tail_of_references_that_fills_a_page_follows(rt: HostRuntime) -> Result<(), Fail> {
    expect_pass(
        rt.alloc(),
        &[
            (3, 0, page_head(3, 512)),
            (3, 2, head(1, 508)),
            (3, 3, 1),
            (3, 4, reference(4, 2)),
            (3, 511, reference(3, 2)),
            (4, 0, page_head(4, 5)),
            (4, 3, 2),
        ],
        [reference(3, 2), reference(10, 2)],
        &[],
        [2, 0, 0, 2, 0, 2],
        &[],
        &[
            (10, 0, page_head(10, 512)),
            (10, 2, head(1, 508)),
            (10, 3, 1),
            (10, 4, reference(11, 2)),
            (10, 511, reference(10, 2)),
            (11, 0, page_head(11, 5)),
            (11, 3, 2),
        ],
    )
}
