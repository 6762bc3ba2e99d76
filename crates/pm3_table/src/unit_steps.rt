//! Units are taken and given back, and pages are settled.
ghost use Rattle.std.specs.Prelude.{◌≡◌, ◌≢◌, ℕ, ◌+◌, ◌<◌, ◌≤◌, true, false, List, ◌++◌, IfOk, IfErr, Some};
ghost use Rattle.pm3_history.specs.Entry.{Done};
ghost use Rattle.pm3_table.specs.Deeds.{marks_of};
ghost use Rattle.pm3_table.specs.Holds.{holds_of, spans_of, is_in};
ghost use Rattle.pm3_table.specs.Ops.{refused, gave, turned, settled_in, settled_held};
ghost use Rattle.pm3_table.specs.Passes.{IsOf, Becomes};
ghost use Rattle.pm3_table.specs.Plays.{Taken};
ghost use Rattle.pm3_table.specs.Settles.{MaySettle, unmark_log, MaySettleIn};
ghost use Rattle.pm3_table.specs.Telling.{Good, spans_in, is_steady, MayJoin};
ghost use Rattle.pm3_table.specs.Words.{space_unit, turn_unit};

use crate::chronicle::Chronicle;
use crate::plays::{Aim, Gives, Reaches, SettlesHeld, SettlesIn, Takes, Turns};
use crate::shared::{Pass, Shared};
use pm3_core::PLACES;
use std::marker::Brand;

fn take_at<V: Chronicle, J: Aim>(
    shared: &Shared<V>,
    pass: &mut Pass<V>,
    unit: u32,
) -> Result<Option<V>, u64>
    requires of { IsOf pass.old shared.now }
    requires unit { (unit < shared.now.1.pages + 33) × (holds_of pass.old.1.holds unit ≡ false) }
    requires steady { unit < shared.now.1.pages → is_steady shared.now.1 pass.old.1 unit ≡ true }
    requires aim { (J.told ≡ shared.now.1) × (J.at ≡ unit) }
    ensures ok { IfOk result (λ slot. (pass.new.0 ≡ pass.old.0) × Taken V.stands V.spans V.counted shared.now.1 pass.old.1 pass.new.1 unit slot) }
    ensures err { IfErr result (λ word. (word ≢ 0) × Becomes pass.old pass.new (refused pass.old.1 unit word)) }
{
    let at = PLACES + unit as usize;
    let mine = pass.row as u64 + 1;
    let found = shared
        .table
        .shared
        .compare_exchange::<Takes<V, J>>(&mut pass.seat, at, 0, mine);
    if found != 0 {
        return Err(found);
    }
    Ok(
        shared
            .table
            .shared
            .exchange(&mut pass.seat, unit as usize, None),
    )
}

/// Takes a unit in a single try. At Ok the pass has seen the whole history, and nothing that came to it names a unit that the
/// pass held. The error is the word that was seen.
pub fn take_unit<V: Chronicle>(
    shared: &Shared<V>,
    pass: &mut Pass<V>,
    unit: u32,
) -> Result<Option<V>, u64>
    requires of { IsOf pass.old shared.now }
    requires unit { (unit < shared.now.1.pages + 33) × (holds_of pass.old.1.holds unit ≡ false) }
    requires steady { unit < shared.now.1.pages → is_steady shared.now.1 pass.old.1 unit ≡ true }
    ensures ok { IfOk result (λ slot. (pass.new.0 ≡ pass.old.0) × Taken V.stands V.spans V.counted shared.now.1 pass.old.1 pass.new.1 unit slot) }
    ensures err { IfErr result (λ word. (word ≢ 0) × Becomes pass.old pass.new (refused pass.old.1 unit word)) }
{
    take_at::<V, Brand>(shared, pass, unit)
}

fn give_at<V: Chronicle, J: Aim>(shared: &Shared<V>, pass: &mut Pass<V>, unit: u32, slot: Option<V>)
    requires of { IsOf pass.old shared.now }
    requires unit { (unit < shared.now.1.pages + 32) × (holds_of pass.old.1.holds unit ≡ true) }
    requires spans { (p : ℕ) → shared.now.1.pages ≤ unit → is_in p (spans_in V.spans slot) ≡ spans_of pass.old.1.spans unit p }
    requires bare { (p : ℕ) → shared.now.1.pages ≤ unit → spans_of pass.old.1.spans unit p ≡ true → marks_of pass.old.1.log p ≡ false }
    requires good { Good V.stands shared.now.1 pass.old.1.lost pass.old.1.seen unit slot }
    requires aim { J.at ≡ unit }
    ensures { Becomes pass.old pass.new (gave pass.old.1 unit) }
{
    let at = PLACES + unit as usize;
    shared.table.shared.load::<Reaches<J>>(&mut pass.seat, at);
    let held = shared
        .table
        .shared
        .exchange(&mut pass.seat, unit as usize, slot);
    let None = held else { unreachable!() };
    shared.table.shared.store::<Gives<J>>(&mut pass.seat, at, 0);
}

/// Gives a unit other than the turn back, with what stands for it after all that the pass has seen.
pub fn give_unit<V: Chronicle>(shared: &Shared<V>, pass: &mut Pass<V>, unit: u32, slot: Option<V>)
    requires of { IsOf pass.old shared.now }
    requires unit { (unit < shared.now.1.pages + 32) × (holds_of pass.old.1.holds unit ≡ true) }
    requires spans { (p : ℕ) → shared.now.1.pages ≤ unit → is_in p (spans_in V.spans slot) ≡ spans_of pass.old.1.spans unit p }
    requires bare { (p : ℕ) → shared.now.1.pages ≤ unit → spans_of pass.old.1.spans unit p ≡ true → marks_of pass.old.1.log p ≡ false }
    requires good { Good V.stands shared.now.1 pass.old.1.lost pass.old.1.seen unit slot }
    ensures { Becomes pass.old pass.new (gave pass.old.1 unit) }
{
    give_at::<V, Brand>(shared, pass, unit, slot);
}

fn turn_at<V: Chronicle, J: Aim>(shared: &Shared<V>, pass: &mut Pass<V>, value: V)
    requires of { IsOf pass.old shared.now }
    requires turn { holds_of pass.old.1.holds (turn_unit shared.now.1.pages) ≡ true }
    requires good { V.stands shared.now.1 (pass.old.1.lost ++ J.failed) (pass.old.1.seen ++ J.more) (turn_unit shared.now.1.pages) value }
    requires heard { pass.old.1.faults ≤ V.counted value }
    requires may { MayJoin shared.now.1 pass.old.1 J.more J.failed }
    requires aim { J.at ≡ turn_unit shared.now.1.pages }
    ensures { Becomes pass.old pass.new (turned (turn_unit shared.now.1.pages) pass.old.1 J.more J.failed (V.counted value)) }
{
    let unit = shared.pages + 32;
    let at = PLACES + unit as usize;
    shared.table.shared.load::<Reaches<J>>(&mut pass.seat, at);
    let held = shared
        .table
        .shared
        .exchange(&mut pass.seat, unit as usize, Some(value));
    let None = held else { unreachable!() };
    shared
        .table
        .shared
        .store::<Turns<V, J>>(&mut pass.seat, at, 0);
}

fn settle_in_at<V: Chronicle, J: Aim>(shared: &Shared<V>, pass: &mut Pass<V>, page: u32, space: u32)
    requires of { IsOf pass.old shared.now }
    requires page { (page < shared.now.1.pages) × MaySettleIn shared.now.1 pass.old.1 space page }
    requires space { (space < 32) × (holds_of pass.old.1.holds (space_unit shared.now.1.pages space) ≡ true) }
    requires aim { (J.at ≡ page) × (J.in_row ≡ space_unit shared.now.1.pages space) }
    ensures { Becomes pass.old pass.new (settled_in pass.old.1 page (space_unit shared.now.1.pages space) (unmark_log pass.old.1.log page)) }
{
    let at = PLACES + page as usize;
    let word = 65536 * (space as u64 + 1);
    shared
        .table
        .shared
        .store::<SettlesIn<J>>(&mut pass.seat, at, word);
}

/// A page that was drawn, or is of this held space already, becomes a page of it, without a mark.
pub fn settle_volatile<V: Chronicle>(shared: &Shared<V>, pass: &mut Pass<V>, page: u32, space: u32)
    requires of { IsOf pass.old shared.now }
    requires page { (page < shared.now.1.pages) × MaySettleIn shared.now.1 pass.old.1 space page }
    requires space { (space < 32) × (holds_of pass.old.1.holds (space_unit shared.now.1.pages space) ≡ true) }
    ensures { Becomes pass.old pass.new (settled_in pass.old.1 page (space_unit shared.now.1.pages space) (unmark_log pass.old.1.log page)) }
{
    settle_in_at::<V, Brand>(shared, pass, page, space);
}

fn settle_held_at<V: Chronicle, J: Aim>(shared: &Shared<V>, pass: &mut Pass<V>, page: u32)
    requires of { IsOf pass.old shared.now }
    requires page { (page < shared.now.1.pages) × MaySettle shared.now.1 pass.old.1 page }
    requires aim { J.at ≡ page }
    ensures { Becomes pass.old pass.new (settled_held pass.old.1 page (unmark_log pass.old.1.log page)) }
{
    let at = PLACES + page as usize;
    let word = pass.row as u64 + 1;
    shared
        .table
        .shared
        .store::<SettlesHeld<J>>(&mut pass.seat, at, word);
}

/// A page that was drawn, or is of a held space, becomes persistent, and the pass holds it.
pub fn settle_held<V: Chronicle>(shared: &Shared<V>, pass: &mut Pass<V>, page: u32)
    requires of { IsOf pass.old shared.now }
    requires page { (page < shared.now.1.pages) × MaySettle shared.now.1 pass.old.1 page }
    ensures { Becomes pass.old pass.new (settled_held pass.old.1 page (unmark_log pass.old.1.log page)) }
{
    settle_held_at::<V, Brand>(shared, pass, page);
}

/// Gives the turn back with its value. Of the two lists of commits that the caller picks, the first joins the history, and the
/// second is kept as failed.
pub fn give_turn<V: Chronicle>(shared: &Shared<V>, pass: &mut Pass<V>, value: V)
    ghost commits: { List Done × List Done }
    requires of { IsOf pass.old shared.now }
    requires turn { holds_of pass.old.1.holds (turn_unit shared.now.1.pages) ≡ true }
    requires good { V.stands shared.now.1 (pass.old.1.lost ++ commits.1) (pass.old.1.seen ++ commits.0) (turn_unit shared.now.1.pages) value }
    requires heard { pass.old.1.faults ≤ V.counted value }
    requires may { MayJoin shared.now.1 pass.old.1 commits.0 commits.1 }
    ensures { Becomes pass.old pass.new (turned (turn_unit shared.now.1.pages) pass.old.1 commits.0 commits.1 (V.counted value)) }
{
    turn_at::<V, Brand>(shared, pass, value);
}
