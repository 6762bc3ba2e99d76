//! A table of sixteen pages, some of them in use.
ghost use Rattle.std.specs.Prelude.{◌≡◌, ℕ, ◌≤◌, IfOk};
ghost use Rattle.std.specs.Mem.Slots.{IsFull};
ghost use Rattle.pm3_table.specs.Passes.{IsOf};
ghost use Rattle.pm3_table.specs.Starting.{first_view};
ghost use Rattle.pm3_table_trials.specs.Filled.{first_of_used};
ghost use Rattle.pm3_table_trials.specs.Tallies.{untold};

use crate::tallies::Tally;
use atomic_table::Closed;
use pm3_table::{Homes, Marks4, Memory, Pass, Shared, Unit};
use std::alloc::Global;

/// A value that no commit names for each used page, each space and the turn.
fn first_homes(alloc: Global, used: u32) -> Result<Homes<Tally>, Memory>
    requires { used ≤ 16 }
    ensures { IfOk result (λ homes. homes ≡ first_of_used used) }
{
    let mut homes = Homes::new(alloc, 16)?;
    for page in 0..used {
        homes.set(Unit::Page(page), Tally { count: 0 });
    }
    for space in 0..32 {
        homes.set(Unit::Space(space), Tally { count: 0 });
    }
    homes.set(Unit::Turn, Tally { count: 0 });
    Ok(homes)
}

/// The table with so many pages in use, and its first mutator.
pub fn sixteen(alloc: Global, used: u32) -> Result<(Shared<Tally>, Pass<Tally>), Memory>
    requires { (3 ≤ used) × (used ≤ 16) }
    ensures told { IfOk result (λ made. (made.0.1.pages ≡ 16) × (made.0.1.frontier ≡ used) × (made.0.1.next_name ≡ 1) × (made.0.1.opening ≡ untold)) }
    ensures first { IfOk result (λ made. IsOf made.1 made.0 × (made.1.1 ≡ first_view 0)) }
{
    let homes = first_homes(alloc, used)?;
    let marks = Marks4 {
        pages: 16,
        frontier: used,
        next_name: 1,
        rows: 1,
    };
    let Ok(made) = Shared::start(alloc, marks, homes) else {
        return Err(Memory);
    };
    Ok(made)
}

/// Makes so many mutators, and lets them go. It tells whether there was a row for each.
pub fn use_up_rows(shared: &Shared<Tally>, pass: &mut Pass<Tally>, rows: u32) -> bool
    requires { IsOf pass.old shared.now }
    ensures { IsOf pass.new shared.now }
{
    for n in 0..rows {
        if shared.split(pass).is_err() {
            return false;
        }
    }
    true
}

/// Lets the values of a closed table go.
pub fn drain(mut closed: Closed<Option<Tally>, Global>)
    requires { IsFull closed.slots }
{
    let mut i = 0;
    while i < closed.slot_count() {
        drop(closed.take(i));
        i += 1;
    }
    closed.free();
}
