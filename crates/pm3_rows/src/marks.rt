//! Marks of the pages of a space that the pass holds.
ghost use Rattle.std.specs.Prelude.{◌≡◌, ℕ, ◌+◌, ◌<◌, true, false};
ghost use Rattle.pm3_table.specs.declared.view.Deed.TheVariants.{Marked, Unmarked};
ghost use Rattle.pm3_table.specs.Deeds.{marks_of};
ghost use Rattle.pm3_table.specs.Ops.{did};
ghost use Rattle.pm3_table.specs.Passes.{IsOf, Becomes};
ghost use Rattle.pm3_table.specs.Telling.{HasInSpace};

use pm3_table::{Chronicle, Pass, Shared, look, mark_page, unmark_page};

/// Marks a page of a space that the pass holds. The page has no mark yet.
pub fn mark<V: Chronicle>(shared: &Shared<V>, pass: &mut Pass<V>, page: u32)
    requires of { IsOf pass.old shared.now }
    requires low { page < shared.now.1.pages }
    requires has { (space : ℕ) × HasInSpace shared.now.1 pass.old.1 space page }
    requires bare { marks_of pass.old.1.log page ≡ false }
    ensures { Becomes pass.old pass.new (did pass.old.1 (Marked page)) }
{
    let space = space_of(shared, pass, page);
    mark_page(shared, pass, page, space);
}

/// Takes the pass's mark off a page of a space that the pass holds.
pub fn unmark<V: Chronicle>(shared: &Shared<V>, pass: &mut Pass<V>, page: u32)
    requires of { IsOf pass.old shared.now }
    requires low { page < shared.now.1.pages }
    requires has { (space : ℕ) × HasInSpace shared.now.1 pass.old.1 space page }
    requires held { marks_of pass.old.1.log page ≡ true }
    ensures { Becomes pass.old pass.new (did pass.old.1 (Unmarked page)) }
{
    let space = space_of(shared, pass, page);
    unmark_page(shared, pass, page, space);
}

// The space of a page, by the page's word.
fn space_of<V: Chronicle>(shared: &Shared<V>, pass: &mut Pass<V>, page: u32) -> u32
    requires of { IsOf pass.old shared.now }
    requires low { page < shared.now.1.pages }
    requires has { (space : ℕ) × HasInSpace shared.now.1 pass.old.1 space page }
    ensures has { HasInSpace shared.now.1 pass.new.1 result page }
    ensures same { pass.new ≡ pass.old }
{
    let word = look(shared, pass, page);
    (word / 65_536 % 256) as u32 - 1
}
