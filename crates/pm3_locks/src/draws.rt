//! Pages and names are drawn.
ghost use Rattle.std.specs.Prelude.{◌≡◌, ℕ, ◌^◌, ◌<◌, IfOk, IfErr};
ghost use Rattle.pm3_table.specs.declared.unit.Limit.TheVariants.{Pages, Names};
ghost use Rattle.pm3_table.specs.Ops.{saw_full, drew_page, drew_name};
ghost use Rattle.pm3_table.specs.Passes.{IsOf, Becomes};
ghost use Rattle.pm3_table.specs.Telling.{IsNewName, IsNewPage};

use pm3_table::{Chronicle, Full, Limit, NAMES, Pass, Shared};

/// Draws a page that no one else has drawn, and that no image seen has or names.
pub fn draw_page<V: Chronicle>(shared: &Shared<V>, pass: &mut Pass<V>) -> Result<u32, Full>
    requires { IsOf pass.old shared.now }
    ensures drawn { IfOk result (λ page. (page < shared.now.1.pages) × Becomes pass.old pass.new (drew_page pass.old.1 page)) }
    ensures new { IfOk result (λ page. IsNewPage shared.now.1 pass.old.1 page) }
    ensures full { IfErr result (λ full. (full ≡ record { what = Pages; limit = shared.now.1.pages }) × Becomes pass.old pass.new (saw_full 0 pass.old.1)) }
{
    let limit = shared.page_count() as u64;
    match pm3_table::draw_page(shared, pass) {
        Some(page) => Ok(page),
        None => Err(Full {
            what: Limit::Pages,
            limit,
        }),
    }
}

/// Draws a name that no one else has drawn, and that no commit seen has made.
pub fn draw_name<V: Chronicle>(shared: &Shared<V>, pass: &mut Pass<V>) -> Result<u64, Full>
    requires { IsOf pass.old shared.now }
    ensures drawn { IfOk result (λ name. (name < 2 ^ 62) × Becomes pass.old pass.new (drew_name pass.old.1 name)) }
    ensures new { IfOk result (λ name. IsNewName shared.now.1 pass.old.1 name) }
    ensures full { IfErr result (λ full. (full ≡ record { what = Names; limit = 2 ^ 62 }) × Becomes pass.old pass.new (saw_full 1 pass.old.1)) }
{
    match pm3_table::draw_name(shared, pass) {
        Some(name) => Ok(name),
        None => Err(Full {
            what: Limit::Names,
            limit: NAMES,
        }),
    }
}
