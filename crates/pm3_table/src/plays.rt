//! What single steps tell, and what a call picks for them.
ghost use Rattle.std.specs.Prelude.{ℕ, List, [], Option};
ghost use Rattle.pm3_history.specs.Entry.{Done};
ghost use Rattle.pm3_table.specs.declared.view.Told.{Told};
ghost use Rattle.pm3_table.specs.declared.view.View.{View};
ghost use Rattle.pm3_table.specs.Starting.{blank_told, spent_view};
ghost use Rattle.pm3_table.specs.Seats.{left_view, new_view, both_views, first_of};
ghost use Rattle.pm3_table.specs.Ops.{drew_page, drew_name, drew_row};
ghost use Rattle.pm3_table.specs.Telling.{IsNewName, IsNewPage, IsAnyNumber};
ghost use Rattle.pm3_table.specs.Plays.{stores, finds, validates, looks, recalls, marks, unmarks, counts, fetches, settles_in, settles_held, reaches, gives, turns, takes, lasts};

use crate::chronicle::Chronicle;
use crate::view::View;
use atomic_table::{Join, Play, Split};
use std::marker::{Brand, PhantomData};

/// What no operand of a step shows: what the table was told, a row, a place or a unit, and commits.
pub trait Aim {
    ghost told: { Told };

    ghost in_row: { ℕ };

    ghost at: { ℕ };

    ghost more: { List Done };

    ghost failed: { List Done };
}

impl Aim for Brand {
    ghost told = { blank_told };

    ghost in_row = { 0 };

    ghost at = { 0 };

    ghost more = { [] };

    ghost failed = { [] };
}

pub(crate) struct Stores<J> {
    of: PhantomData<J>,
}

impl<V, J: Aim> Play<Option<V>, View> for Stores<J> {
    ghost then = { stores J.at };
}

pub(crate) struct Finds<J> {
    of: PhantomData<J>,
}

impl<V, J: Aim> Play<Option<V>, View> for Finds<J> {
    ghost then = { finds J.in_row J.at };
}

pub(crate) struct Validates<J> {
    of: PhantomData<J>,
}

impl<V, J: Aim> Play<Option<V>, View> for Validates<J> {
    ghost then = { validates J.told J.in_row J.at };
}

pub(crate) struct Looks<J> {
    of: PhantomData<J>,
}

impl<V, J: Aim> Play<Option<V>, View> for Looks<J> {
    ghost then = { looks J.told J.at };
}

pub(crate) struct Marks<J> {
    of: PhantomData<J>,
}

impl<V, J: Aim> Play<Option<V>, View> for Marks<J> {
    ghost then = { marks J.at };
}

pub(crate) struct Unmarks<J> {
    of: PhantomData<J>,
}

impl<V, J: Aim> Play<Option<V>, View> for Unmarks<J> {
    ghost then = { unmarks J.at };
}

/// A load of the counter of pages.
pub(crate) struct CountsPages<J> {
    of: PhantomData<J>,
}

impl<V, J: Aim> Play<Option<V>, View> for CountsPages<J> {
    ghost then = { counts J.told 0 };
}

/// A load of the counter of names.
pub(crate) struct CountsNames<J> {
    of: PhantomData<J>,
}

impl<V, J: Aim> Play<Option<V>, View> for CountsNames<J> {
    ghost then = { counts J.told 1 };
}

/// A load of the counter of rows.
pub(crate) struct CountsRows<J> {
    of: PhantomData<J>,
}

impl<V, J: Aim> Play<Option<V>, View> for CountsRows<J> {
    ghost then = { counts J.told 2 };
}

pub(crate) struct FetchesPage<J> {
    of: PhantomData<J>,
}

impl<V, J: Aim> Play<Option<V>, View> for FetchesPage<J> {
    ghost then = { fetches J.told 0 drew_page IsNewPage };
}

pub(crate) struct FetchesName<J> {
    of: PhantomData<J>,
}

impl<V, J: Aim> Play<Option<V>, View> for FetchesName<J> {
    ghost then = { fetches J.told 1 drew_name IsNewName };
}

pub(crate) struct FetchesRow<J> {
    of: PhantomData<J>,
}

impl<V, J: Aim> Play<Option<V>, View> for FetchesRow<J> {
    ghost then = { fetches J.told 2 drew_row IsAnyNumber };
}

pub(crate) struct SettlesIn<J> {
    of: PhantomData<J>,
}

impl<V, J: Aim> Play<Option<V>, View> for SettlesIn<J> {
    ghost then = { settles_in J.at J.in_row };
}

pub(crate) struct SettlesHeld<J> {
    of: PhantomData<J>,
}

impl<V, J: Aim> Play<Option<V>, View> for SettlesHeld<J> {
    ghost then = { settles_held J.at };
}

pub(crate) struct Takes<V, J> {
    of: PhantomData<(V, J)>,
}

impl<V: Chronicle, J: Aim> Play<Option<V>, View> for Takes<V, J> {
    ghost then = { takes V.stands V.spans V.counted J.told J.at };
}

pub(crate) struct Reaches<J> {
    of: PhantomData<J>,
}

impl<V, J: Aim> Play<Option<V>, View> for Reaches<J> {
    ghost then = { reaches J.at };
}

pub(crate) struct Gives<J> {
    of: PhantomData<J>,
}

impl<V, J: Aim> Play<Option<V>, View> for Gives<J> {
    ghost then = { gives J.at };
}

pub(crate) struct Turns<V, J> {
    of: PhantomData<(V, J)>,
}

impl<V: Chronicle, J: Aim> Play<Option<V>, View> for Turns<V, J> {
    ghost then = { turns V.counted J.at J.more J.failed };
}

/// How a view is cut when a mutator is made.
pub(crate) struct Cut;

impl Split<View> for Cut {
    ghost left = { left_view };

    ghost right = { λ v. new_view (first_of v.rows) v };
}

/// How two views are made one when a mutator ends.
pub(crate) struct Glue;

impl Join<View> for Glue {
    ghost both = { both_views };

    ghost spent = { spent_view };
}

/// A load by which a mutator sees that what it has seen is lawful.
pub(crate) struct Recalls<J> {
    of: PhantomData<J>,
}

impl<V, J: Aim> Play<Option<V>, View> for Recalls<J> {
    ghost then = { recalls J.told };
}

/// A load of the row counter by one that may be the last mutator.
pub(crate) struct Lasts;

impl<V> Play<Option<V>, View> for Lasts {
    ghost then = { lasts };
}
