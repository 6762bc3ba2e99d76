//! Commits and openings as clauses see them. No value of either is made.
use std::marker::Model;

/// A commit: what it found, what it left, what it wrote, and its pass.
#[derive(Drop)]
pub struct Commit {
    mark: u8,
}

impl Model for Commit {
    ghost use Rattle.pm3_history.specs.Entry.{Done, done_code, blank_done};

    ghost Value = { Done };

    ghost coded = { done_code };

    ghost view = { λ _. blank_done };
}

/// What was told of the store that was opened.
#[derive(Drop)]
pub struct Opening {
    mark: u8,
}

impl Model for Opening {
    ghost use Rattle.std.specs.Prelude.{[], None};
    ghost use Rattle.std.specs.FinMap.{empty};
    ghost use Rattle.pm3_history.specs.Opens.{Origin, origin_code};

    ghost Value = { Origin };

    ghost coded = { origin_code };

    ghost view = { λ _. record { catalog = []; images = empty; summaries = []; due = 0; file = None; journal = None; faults = 0; stopped = None } };
}
