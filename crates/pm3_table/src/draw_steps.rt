//! Draws of pages, names and rows: a load of the counter, and where that is not full a fetch of it.
ghost use Rattle.std.specs.Prelude.{◌≡◌, ℕ, ◌^◌, ◌<◌, MatchOption};
ghost use Rattle.pm3_table.specs.Ops.{saw_full, drew_page, drew_name};
ghost use Rattle.pm3_table.specs.Passes.{IsOf, Becomes};
ghost use Rattle.pm3_table.specs.Telling.{IsNewName, IsNewPage};

use crate::chronicle::Chronicle;
use crate::plays::{Aim, CountsNames, CountsPages, FetchesName, FetchesPage};
use crate::shared::{Pass, Shared};
use pm3_core::PLACES;
use std::marker::Brand;

/// Names are below this number.
pub const NAMES: u64 = 4_611_686_018_427_387_904;

fn draw_page_at<V: Chronicle, J: Aim>(shared: &Shared<V>, pass: &mut Pass<V>) -> Option<u32>
    requires of { IsOf pass.old shared.now }
    requires aim { J.told ≡ shared.now.1 }
    ensures { MatchOption result (Becomes pass.old pass.new (saw_full 0 pass.old.1)) (λ n. (n < shared.now.1.pages) × Becomes pass.old pass.new (drew_page pass.old.1 n) × IsNewPage shared.now.1 pass.old.1 n) }
{
    let at = PLACES + (shared.pages as usize + 33);
    let limit = shared.pages as u64;
    let seen = shared
        .table
        .shared
        .load::<CountsPages<J>>(&mut pass.seat, at);
    if seen >= limit {
        return None;
    }
    let page = shared
        .table
        .shared
        .fetch_add::<FetchesPage<J>>(&mut pass.seat, at, 1);
    if page >= limit {
        return None;
    }
    Some(page as u32)
}

/// Draws a page that no image seen has or names, or answers None where a value of the counter that was read is at or past the
/// page count.
pub fn draw_page<V: Chronicle>(shared: &Shared<V>, pass: &mut Pass<V>) -> Option<u32>
    requires of { IsOf pass.old shared.now }
    ensures { MatchOption result (Becomes pass.old pass.new (saw_full 0 pass.old.1)) (λ n. (n < shared.now.1.pages) × Becomes pass.old pass.new (drew_page pass.old.1 n) × IsNewPage shared.now.1 pass.old.1 n) }
{
    draw_page_at::<V, Brand>(shared, pass)
}

fn draw_name_at<V: Chronicle, J: Aim>(shared: &Shared<V>, pass: &mut Pass<V>) -> Option<u64>
    requires of { IsOf pass.old shared.now }
    requires aim { J.told ≡ shared.now.1 }
    ensures { MatchOption result (Becomes pass.old pass.new (saw_full 1 pass.old.1)) (λ n. (n < 2 ^ 62) × Becomes pass.old pass.new (drew_name pass.old.1 n) × IsNewName shared.now.1 pass.old.1 n) }
{
    let at = PLACES + (shared.pages as usize + 33) + 1;
    let seen = shared
        .table
        .shared
        .load::<CountsNames<J>>(&mut pass.seat, at);
    if seen >= NAMES {
        return None;
    }
    let name = shared
        .table
        .shared
        .fetch_add::<FetchesName<J>>(&mut pass.seat, at, 1);
    if name >= NAMES {
        return None;
    }
    Some(name)
}

/// Draws a name that no commit seen has made, or answers None where a value of the counter that was read is at or past 2^62.
pub fn draw_name<V: Chronicle>(shared: &Shared<V>, pass: &mut Pass<V>) -> Option<u64>
    requires of { IsOf pass.old shared.now }
    ensures { MatchOption result (Becomes pass.old pass.new (saw_full 1 pass.old.1)) (λ n. (n < 2 ^ 62) × Becomes pass.old pass.new (drew_name pass.old.1 n) × IsNewName shared.now.1 pass.old.1 n) }
{
    draw_name_at::<V, Brand>(shared, pass)
}
