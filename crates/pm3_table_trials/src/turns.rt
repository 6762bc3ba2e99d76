//! The turn is held, and given back with or without a commit.
ghost use Rattle.std.specs.Prelude.{◌≡◌, ℕ, ◌<◌, ◌≤◌, ◌++◌, ◌∷◌, [], true, false};
ghost use Rattle.pm3_table.specs.Holds.{holds_of};
ghost use Rattle.pm3_table.specs.Ops.{turned};
ghost use Rattle.pm3_table.specs.Passes.{IsOf, Becomes};
ghost use Rattle.pm3_table.specs.Telling.{MayJoin, is_steady};
ghost use Rattle.pm3_table.specs.Words.{turn_unit};
ghost use Rattle.pm3_table_trials.specs.Tallies.{nothing_by, untold};

use crate::tallies::Tally;
use pm3_locks::{Busy, Unit, give, give_turn, take};
use pm3_table::{Chronicle, Pass, Shared};

/// Takes a page, and gives it back as it was.
pub fn hold_page(shared: &Shared<Tally>, pass: &mut Pass<Tally>, page: u32) -> Result<(), Busy>
    requires of { IsOf pass.old shared.now }
    requires low { page < shared.now.1.pages }
    requires free { holds_of pass.old.1.holds page ≡ false }
    requires steady { is_steady shared.now.1 pass.old.1 page ≡ true }
    ensures { IsOf pass.new shared.now }
{
    let slot = take(shared, pass, Unit::Page(page))?;
    give(shared, pass, Unit::Page(page), slot);
    Ok(())
}

/// Takes the turn, and gives it back as it was.
pub fn hold_turn<V: Chronicle>(shared: &Shared<V>, pass: &mut Pass<V>) -> Result<(), Busy>
    requires of { IsOf pass.old shared.now }
    requires free { holds_of pass.old.1.holds (turn_unit shared.now.1.pages) ≡ false }
    ensures { IsOf pass.new shared.now }
{
    let taken = take(shared, pass, Unit::Turn)?;
    let Some(value) = taken else { unreachable!() };
    give_turn(shared, pass, value);
    Ok(())
}

/// Gives the turn back with a commit that changed nothing.
fn give_with_nothing<V: Chronicle>(shared: &Shared<V>, pass: &mut Pass<V>, value: V)
    requires of { IsOf pass.old shared.now }
    requires turn { holds_of pass.old.1.holds (turn_unit shared.now.1.pages) ≡ true }
    requires good { V.stands shared.now.1 (pass.old.1.lost ++ []) (pass.old.1.seen ++ nothing_by pass.old.1.row ∷ []) (turn_unit shared.now.1.pages) value }
    requires heard { pass.old.1.faults ≤ V.counted value }
    requires may { MayJoin shared.now.1 pass.old.1 (nothing_by pass.old.1.row ∷ []) [] }
    ensures { Becomes pass.old pass.new (turned (turn_unit shared.now.1.pages) pass.old.1 (nothing_by pass.old.1.row ∷ []) [] (V.counted value)) }
{
    give_turn(shared, pass, value);
}

/// Takes the turn, and gives it back with a commit that changed nothing. It tells how many commits there are then.
pub fn commit_nothing(shared: &Shared<Tally>, pass: &mut Pass<Tally>) -> Result<u64, Busy>
    requires of { IsOf pass.old shared.now }
    requires free { holds_of pass.old.1.holds (turn_unit shared.now.1.pages) ≡ false }
    requires untold { shared.now.1.opening ≡ untold }
    ensures { IsOf pass.new shared.now }
{
    let taken = take(shared, pass, Unit::Turn)?;
    let Some(Tally { count }) = taken else {
        unreachable!()
    };
    let Some(more) = count.checked_add(1) else {
        return Ok(count);
    };
    give_with_nothing(shared, pass, Tally { count: more });
    Ok(more)
}
