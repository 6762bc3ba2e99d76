//! The table as mutators share it, and what one of them has of it.
use crate::chronicle::Chronicle;
use crate::rule::{Key, TheRule};
use crate::view::View;
use atomic_table::{Seat, Table};
use std::alloc::Global;
use std::marker::Model;

/// The shared table. Contracts see which table it is, and what it was told at its start.
#[derive(Drop)]
pub struct Shared<V: Chronicle> {
    pub(crate) table: Table<Option<V>, View, Key<V>, TheRule, Global>,
    pub(crate) pages: u32,
}

impl<V: Chronicle> Model for Shared<V> {
    ghost use Rattle.std.specs.Coded.{codes};
    ghost use Rattle.atomic_table.specs.Seated.{TableId, table_id_coded};
    ghost use Rattle.pm3_history.specs.Opens.{origin_code};
    ghost use Rattle.pm3_table.specs.declared.view.Told.{Told};
    ghost use Rattle.pm3_table.specs.Starting.{told_of};
    ghost use Rattle.pm3_table.specs.Passes.{IsLaidOut};

    ghost Value = { TableId × Told };

    ghost coded = { Prim.hlevel (codes, table_id_coded, origin_code) };

    ghost view = { λ s. (s.table.shared.table_id, told_of V.opening s.table.shared.key.pages s.table.shared.key.frontier s.table.shared.key.next_name s.table.shared.key.turn.value) };

    ghost invariant = { λ s. IsLaidOut s.table.shared.table_id s.pages s.table.shared.key.pages };
}

/// The token of one mutator: its seat, the number of its row, and how many were joined into it. Contracts see which table it belongs to, and its view.
#[derive(Drop)]
pub struct Pass<V> {
    pub(crate) seat: Seat<Option<V>, View>,
    pub(crate) row: u32,
    pub(crate) joined: u32,
}

impl<V> Model for Pass<V> {
    ghost use Rattle.std.specs.Coded.{codes};
    ghost use Rattle.atomic_table.specs.Seated.{TableId, table_id_coded};
    ghost use Rattle.pm3_history.specs.Entry.{done_code};
    ghost use Rattle.pm3_table.specs.declared.view.View.{View};
    ghost use Rattle.pm3_table.specs.Carried.{IsIdle};

    ghost Value = { TableId × View };

    ghost coded = { Prim.hlevel (codes, table_id_coded, done_code) };

    ghost view = { λ p. (p.seat.table_id, p.seat.me.0) };

    ghost invariant = { λ p. IsIdle p.seat.me.0 p.row p.joined p.seat.me.1 };
}
