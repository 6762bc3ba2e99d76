//! Mutators are made, and end.
ghost use Rattle.std.specs.Prelude.{◌≡◌, ℕ, ◌<◌, IfOk, IfErr, MatchOption};
ghost use Rattle.pm3_table.specs.declared.unit.Limit.TheVariants.{Rows};
ghost use Rattle.pm3_table.specs.Ops.{saw_full};
ghost use Rattle.pm3_table.specs.Passes.{IsOf, Becomes};
ghost use Rattle.pm3_table.specs.Seats.{new_view, both_views, IsBlank};
ghost use Rattle.pm3_table.specs.Telling.{Lawful};

use crate::chronicle::Chronicle;
use crate::plays::{Aim, CountsRows, Cut, FetchesRow, Glue, Recalls};
use crate::shared::{Pass, Shared};
use crate::unit::{Full, Limit};
use pm3_core::PLACES;
use std::marker::Brand;

fn split_at<V: Chronicle, J: Aim>(shared: &Shared<V>, pass: &mut Pass<V>) -> Option<Pass<V>>
    requires of { IsOf pass.old shared.now }
    requires aim { J.told ≡ shared.now.1 }
    ensures { MatchOption result (Becomes pass.old pass.new (saw_full 2 pass.old.1)) (λ made. (pass.new ≡ pass.old) × ((n : ℕ) × (n < 32) × Becomes pass.old made (new_view n pass.old.1))) }
{
    let at = PLACES + (shared.pages as usize + 33) + 2;
    let seen = shared
        .table
        .shared
        .load::<CountsRows<J>>(&mut pass.seat, at);
    if seen >= 32 {
        return None;
    }
    let row = shared
        .table
        .shared
        .fetch_add::<FetchesRow<J>>(&mut pass.seat, at, 1);
    if row >= 32 {
        return None;
    }
    let seat = shared.table.shared.split_seat::<Cut>(&mut pass.seat);
    Some(Pass {
        seat,
        row: row as u32,
        joined: 1,
    })
}

fn join_at<V: Chronicle, J: Aim>(shared: &Shared<V>, pass: &mut Pass<V>, other: Pass<V>)
    requires of { IsOf pass.old shared.now }
    requires other { IsOf other shared.now }
    requires blank { IsBlank other.1 }
    requires aim { J.told ≡ shared.now.1 }
    ensures view { Becomes pass.old pass.new (both_views pass.old.1 other.1) }
    ensures lawful { Lawful shared.now.1 pass.new.1.seen }
{
    let Pass {
        seat,
        row: _,
        joined,
    } = other;
    pass.joined = (pass.joined + joined).min(33);
    shared.table.shared.join_seat::<Glue>(&mut pass.seat, seat);
    shared.table.shared.load::<Recalls<J>>(&mut pass.seat, 0);
}

impl<V: Chronicle> Shared<V> {
    /// Makes a mutator with a row of its own, which knows what this one knows. It is refused where a value of the row counter
    /// that was read is 32 or more.
    pub fn split(&self, pass: &mut Pass<V>) -> Result<Pass<V>, Full>
        requires { IsOf pass.old self.now }
        ensures made { IfOk result (λ made. (pass.new ≡ pass.old) × ((n : ℕ) × (n < 32) × Becomes pass.old made (new_view n pass.old.1))) }
        ensures full { IfErr result (λ full. (full ≡ record { what = Rows; limit = 32 }) × Becomes pass.old pass.new (saw_full 2 pass.old.1)) }
    {
        match split_at::<V, Brand>(self, pass) {
            Some(made) => Ok(made),
            None => Err(Full {
                what: Limit::Rows,
                limit: 32,
            }),
        }
    }

    /// Ends a mutator that holds no unit and no mark, and whose row is 0 everywhere. This one then knows what both knew, and
    /// keeps the other's commits.
    pub fn join(&self, pass: &mut Pass<V>, other: Pass<V>)
        requires of { IsOf pass.old self.now }
        requires other { IsOf other self.now }
        requires blank { IsBlank other.1 }
        ensures view { Becomes pass.old pass.new (both_views pass.old.1 other.1) }
        ensures lawful { Lawful self.now.1 pass.new.1.seen }
    {
        join_at::<V, Brand>(self, pass, other);
    }

    /// How many pages there are.
    pub fn page_count(&self) -> u32
        ensures { (result ≡ self.now.1.pages) × (result < 16385) }
    {
        self.pages
    }
}

impl<V> Pass<V> {
    /// The number of its row.
    pub fn row(&self) -> u32
        ensures { (result ≡ self.now.1.row) × (result < 32) }
    {
        self.row
    }
}
