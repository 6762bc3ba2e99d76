//! Pages are settled: in a space, or as persistent ones.
ghost use Rattle.std.specs.Prelude.{ℕ, ◌<◌};
ghost use Rattle.pm3_locks.specs.Settled.{HoldsSpace, MayGo, settled};
ghost use Rattle.pm3_table.specs.Passes.{IsOf, Becomes};

use crate::states::PageState;
use pm3_table::{Chronicle, Pass, Shared, settle_held, settle_volatile};

/// Settles a page. One that the pass drew and has not settled becomes a page of a space that the pass holds, or persistent and
/// held by the pass; one of a space that it holds stays in that space, or becomes persistent. A mark of the pass on it is gone.
pub fn settle<V: Chronicle>(shared: &Shared<V>, pass: &mut Pass<V>, page: u32, state: PageState)
    requires of { IsOf pass.old shared.now }
    requires page { (page < shared.now.1.pages) × MayGo shared.now.1 pass.old.1 page state }
    requires space { HoldsSpace shared.now.1.pages pass.old.1 state }
    ensures { Becomes pass.old pass.new (settled shared.now.1.pages pass.old.1 page state) }
{
    match state {
        PageState::Volatile(space) => settle_volatile(shared, pass, page, space),
        PageState::Held => settle_held(shared, pass, page),
    }
}
