//! Pages of a space that one mutator holds, and marks on them.
ghost use Rattle.std.specs.Prelude.{◌≡◌, ℕ, ◌<◌, true, false, IfOk};
ghost use Rattle.pm3_table.specs.Deeds.{marks_of};
ghost use Rattle.pm3_table.specs.Holds.{holds_of};
ghost use Rattle.pm3_table.specs.Passes.{IsOf};
ghost use Rattle.pm3_table.specs.Telling.{HasInSpace};
ghost use Rattle.pm3_table.specs.Words.{space_unit};

use pm3_locks::{Full, PageState, draw_page, look, settle};
use pm3_rows::{mark, unmark};
use pm3_table::{Chronicle, Pass, Shared};

/// Draws a page into a space that the pass holds.
pub fn grow<V: Chronicle>(shared: &Shared<V>, pass: &mut Pass<V>, space: u32) -> Result<u32, Full>
    requires of { IsOf pass.old shared.now }
    requires space { (space < 32) × (holds_of pass.old.1.holds (space_unit shared.now.1.pages space) ≡ true) }
    requires bare { (page : ℕ) → marks_of pass.old.1.log page ≡ false }
    ensures of { IsOf pass.new shared.now }
    ensures page { IfOk result (λ page. (page < shared.now.1.pages) × HasInSpace shared.now.1 pass.new.1 space page × (marks_of pass.new.1.log page ≡ false)) }
{
    let page = draw_page(shared, pass)?;
    settle(shared, pass, page, PageState::Volatile(space));
    Ok(page)
}

/// The word of a page of a space that the pass holds.
pub fn word_of_page<V: Chronicle>(shared: &Shared<V>, pass: &mut Pass<V>, page: u32) -> u64
    requires of { IsOf pass.old shared.now }
    requires low { page < shared.now.1.pages }
    requires has { (space : ℕ) × HasInSpace shared.now.1 pass.old.1 space page }
    ensures { pass.new ≡ pass.old }
{
    look(shared, pass, page)
}

/// Marks a page of a space that the pass holds, and tells its word then.
pub fn mark_seen<V: Chronicle>(shared: &Shared<V>, pass: &mut Pass<V>, page: u32, space: u32) -> u64
    requires of { IsOf pass.old shared.now }
    requires low { page < shared.now.1.pages }
    requires has { HasInSpace shared.now.1 pass.old.1 space page }
    requires bare { marks_of pass.old.1.log page ≡ false }
    ensures of { IsOf pass.new shared.now }
    ensures has { HasInSpace shared.now.1 pass.new.1 space page }
    ensures marked { marks_of pass.new.1.log page ≡ true }
{
    mark(shared, pass, page);
    word_of_page(shared, pass, page)
}

/// Takes the mark off again, and tells the word then.
pub fn unmark_seen<V: Chronicle>(
    shared: &Shared<V>,
    pass: &mut Pass<V>,
    page: u32,
    space: u32,
) -> u64
    requires of { IsOf pass.old shared.now }
    requires low { page < shared.now.1.pages }
    requires has { HasInSpace shared.now.1 pass.old.1 space page }
    requires marked { marks_of pass.old.1.log page ≡ true }
    ensures of { IsOf pass.new shared.now }
    ensures has { HasInSpace shared.now.1 pass.new.1 space page }
{
    unmark(shared, pass, page);
    word_of_page(shared, pass, page)
}

/// Makes the page persistent and held, and tells its word then.
pub fn hold_seen<V: Chronicle>(shared: &Shared<V>, pass: &mut Pass<V>, page: u32, space: u32) -> u64
    requires of { IsOf pass.old shared.now }
    requires low { page < shared.now.1.pages }
    requires has { HasInSpace shared.now.1 pass.old.1 space page }
{
    settle(shared, pass, page, PageState::Held);
    look(shared, pass, page)
}
