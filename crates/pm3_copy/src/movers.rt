//! Which of the objects that were found move.
ghost use Rattle.std.specs.Prelude.{ℕ, ◌≡◌, ◌↔◌, ◌<◌, ◌≤◌, false, length, IfOk, OnOk, IsTrue, slice_index};
ghost use Rattle.std.specs.List.{All, Contains};
ghost use Rattle.pm3_types.specs.PassMoves.{IsRising, IsListOf};
ghost use Rattle.pm3_copy.specs.Spreading.{AreFree, AreOnOne, AreOnPages, ArePassed, ArePicked, Picks, TakesUp};

use crate::finds::Found;
use pm3_page::{Addr, BASE, PageSet, page_of};
use pm3_types::Memory;
use std::alloc::Global;

/// The objects that were found and lie on no pinned page, but for these others, in rising order.
pub(crate) fn movers(
    alloc: Global,
    found: &Found,
    pinned: &PageSet,
    but: &[Addr],
) -> Result<Vec<Addr>, Memory>
    requires objects { AreOnPages BASE found.now.objects }
    requires rising { IsRising but.now }
    requires others { All (Contains found.now.objects) but.now }
    requires free { AreFree BASE pinned.now but.now }
    ensures picked { IfOk result (λ list. IsListOf (Picks BASE pinned.now but.now found.now) list.items) }
    ensures within { IfOk result (λ list. All (Contains found.now.objects) list.items) }
{
    let mut list = Vec::new(alloc);
    let mut next = 0;
    let mut first = 0;
    while first < found.count() {
        let end = found.last_on_page(first) + 1;
        next = take_up_page(found, pinned, but, first, end, next, &mut list)?;
        first = end;
    }
    Ok(list)
}

/// Adds what moves of the objects at some places, all on one page, to the list. So many of the others come before them, and it
/// answers how many come before what is behind them.
fn take_up_page(
    found: &Found,
    pinned: &PageSet,
    but: &[Addr],
    first: usize,
    end: usize,
    before: usize,
    list: &mut Vec<Addr>,
) -> Result<usize, Memory>
    requires objects { AreOnPages BASE found.now.objects }
    requires all_rise { IsRising found.now.objects }
    requires rising { IsRising but.now }
    requires free { AreFree BASE pinned.now but.now }
    requires some { first < end }
    requires there { end ≤ length found.now.objects }
    requires page { AreOnOne BASE found.now.objects first end }
    requires picked { ArePicked BASE pinned.now but.now found.now first list.old.items }
    requires passed { ArePassed found.now.objects but.now first before }
    ensures picked { OnOk result (ArePicked BASE pinned.now but.now found.now end list.new.items) }
    ensures passed { IfOk result (ArePassed found.now.objects but.now end) }
{
    if pinned.has(page_of(found.object(first))) {
        return Ok(before);
    }
    let mut next = before;
    for i in first..end {
        let other = is_next(but, next, found.object(i));
        take_up(found, other, i, list)?;
        next += usize::from(other);
    }
    Ok(next)
}

/// Whether this address stands at a place of the list.
fn is_next(list: &[Addr], place: usize, at: Addr) -> bool
    ensures { IsTrue result ↔ ((place < length list.now) × (slice_index list.now place ≡ at)) }
{
    place < list.len() && list[place] == at
}

/// Adds the object at a place among all to the list, if it was found and is not one of the others.
fn take_up(found: &Found, other: bool, i: usize, list: &mut Vec<Addr>) -> Result<(), Memory>
    requires there { i < length found.now.objects }
    ensures { OnOk result (TakesUp (Contains found.now.list (slice_index found.now.objects i) × (other ≡ false)) (slice_index found.now.objects i) list.old.items list.new.items) }
{
    if other || !found.is_found(i) {
        return Ok(());
    }
    let Ok(()) = list.push(found.object(i)) else {
        return Err(Memory);
    };
    Ok(())
}
