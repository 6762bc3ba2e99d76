//! The rule of the table, and what it is told once.
use crate::chronicle::Chronicle;
use crate::view::View;
use atomic_table::TableRule;
use std::snapshot::Snapshot;

/// The page count, the first frontier, the first next name, and the turn's first value.
#[derive(Drop)]
pub struct Key<V> {
    pub(crate) pages: u32,
    pub(crate) frontier: u32,
    pub(crate) next_name: u64,
    pub(crate) turn: Snapshot<V>,
}

/// The rule of the running table.
pub struct TheRule;

impl<V: Chronicle> TableRule<Option<V>, View, Key<V>> for TheRule {
    ghost use Rattle.pm3_table.specs.Rule.{Ruled};
    ghost use Rattle.pm3_table.specs.Starting.{told_of, first_view};

    ghost holds = { λ key s. Ruled V.stands V.spans V.counted (told_of V.opening key.pages key.frontier key.next_name key.turn.value) s };

    ghost first = { λ key. first_view (V.counted key.turn.value) };
}
