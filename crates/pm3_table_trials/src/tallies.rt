//! A value that counts the commits that name its unit.
ghost use Rattle.std.specs.Prelude.{[]};
ghost use Rattle.std.proofs.Common.{sym, ◌∙◌};
ghost use Rattle.pm3_table.specs.Telling.{names};
ghost use Rattle.pm3_table_trials.specs.Tallies.{Counts, one_more, untold};

use pm3_table::Chronicle;

/// It stands for a unit where it is the number of commits that name the unit; with the turn none has failed.
#[derive(Drop)]
pub struct Tally {
    pub count: u64,
}

impl Chronicle for Tally {
    ghost stands = { Counts };

    ghost opening = { λ _. untold };

    ghost spans = { λ _. [] };

    ghost counted = { λ _. 0 };

    fn is_turn(&self) -> bool {
        false
    }

    ghost frame = { λ told lost h e u x free is. (is.0 ∙ sym (one_more (names told) h e u free), is.1) };

    ghost alike = { λ told lost more h u x other is. (is.0, λ same. absurd (other same)) };
}
