//! Units are taken in a single try, and given back.
ghost use Rattle.std.specs.Prelude.{◌≡◌, ◌≢◌, ℕ, ◌+◌, ◌<◌, ◌≤◌, true, false, IfOk, IfErr};
ghost use Rattle.pm3_table.specs.Numbers.{number, IsUnit};
ghost use Rattle.pm3_table.specs.declared.unit.Unit.TheVariants.{Turn};
ghost use Rattle.pm3_table.specs.Deeds.{marks_of};
ghost use Rattle.pm3_table.specs.Holds.{holds_of, spans_of, is_in};
ghost use Rattle.pm3_table.specs.Ops.{refused, gave};
ghost use Rattle.pm3_table.specs.Passes.{IsOf, Becomes};
ghost use Rattle.pm3_table.specs.Plays.{Taken};
ghost use Rattle.pm3_table.specs.Telling.{Good, spans_in, is_steady};

use pm3_table::{Busy, Chronicle, Pass, Shared, Unit, give_unit, take_unit};

/// The number of a unit in a table of so many pages.
fn number(pages: u32, unit: Unit) -> u32
    requires pages { pages < 16385 }
    requires unit { IsUnit pages unit }
    ensures value { result ≡ number pages unit }
    ensures low { result < pages + 33 }
    ensures turn { unit ≢ Turn → result < pages + 32 }
{
    match unit {
        Unit::Page(page) => page,
        Unit::Space(space) => pages + space,
        Unit::Turn => pages + 32,
    }
}

/// Takes a unit that the pass does not hold, in a single try. A page without a value gives None. Busy shows the word that was
/// seen.
pub fn take<V: Chronicle>(
    shared: &Shared<V>,
    pass: &mut Pass<V>,
    unit: Unit,
) -> Result<Option<V>, Busy>
    requires of { IsOf pass.old shared.now }
    requires unit { IsUnit shared.now.1.pages unit }
    requires free { holds_of pass.old.1.holds (number shared.now.1.pages unit) ≡ false }
    requires steady { number shared.now.1.pages unit < shared.now.1.pages → is_steady shared.now.1 pass.old.1 (number shared.now.1.pages unit) ≡ true }
    ensures taken { IfOk result (λ slot. (pass.new.0 ≡ pass.old.0) × Taken V.stands V.spans V.counted shared.now.1 pass.old.1 pass.new.1 (number shared.now.1.pages unit) slot) }
    ensures busy { IfErr result (λ busy. (busy.unit ≡ unit) × (busy.word ≢ 0) × Becomes pass.old pass.new (refused pass.old.1 (number shared.now.1.pages unit) busy.word)) }
{
    match take_unit(shared, pass, number(shared.page_count(), unit)) {
        Ok(slot) => Ok(slot),
        Err(word) => Err(Busy { unit, word }),
    }
}

/// Gives a unit other than the turn back, with what stands for it after all that the pass has seen.
pub fn give<V: Chronicle>(shared: &Shared<V>, pass: &mut Pass<V>, unit: Unit, value: Option<V>)
    requires of { IsOf pass.old shared.now }
    requires unit { IsUnit shared.now.1.pages unit × (unit ≢ Turn) }
    requires held { holds_of pass.old.1.holds (number shared.now.1.pages unit) ≡ true }
    requires spans { (p : ℕ) → shared.now.1.pages ≤ number shared.now.1.pages unit → is_in p (spans_in V.spans value) ≡ spans_of pass.old.1.spans (number shared.now.1.pages unit) p }
    requires bare { (p : ℕ) → shared.now.1.pages ≤ number shared.now.1.pages unit → spans_of pass.old.1.spans (number shared.now.1.pages unit) p ≡ true → marks_of pass.old.1.log p ≡ false }
    requires good { Good V.stands shared.now.1 pass.old.1.lost pass.old.1.seen (number shared.now.1.pages unit) value }
    ensures { Becomes pass.old pass.new (gave pass.old.1 (number shared.now.1.pages unit)) }
{
    let pages = shared.page_count();
    give_unit(shared, pass, number(pages, unit), value);
}
