//! The shared table of the heap: rows of stack words, the units that mutators hold, each with a slot for its value, three
//! counters, and the history of commits.
//!
//! The layer above may rely on three things. Between any two steps the state meets one rule (`Ruled` of specs/), whatever
//! the other mutators do: of the rows it says that a page is moved only where no standing word names it, and of the slots
//! that the values at home stand for their units after the whole history (`table_law`). A pass knows by its own view what
//! no other can change: its row, what it marks and holds, what it has drawn, and a beginning of the history. And each call
//! says exactly what it makes of that view.
#![tactic(auto)]

// What clauses see: commits, openings and the views of mutators.
mod entry;
mod view;

// Values of slots, and the rule.
mod chronicle;
mod rule;

// Units, how they are refused, and their values while no one shares them.
mod homes;
mod marks;
mod unit;

// Shared tables and passes, and what each step on them tells.
mod plays;
mod shared;

// How a table is not closed.
mod close_fault;

// Single steps, one public call each.
mod closing;
mod draw_steps;
mod row_steps;
mod seats;
mod starts;
mod unit_steps;

// What holds of every state.
mod law;

pub use chronicle::Chronicle;
pub use close_fault::CloseFault;
pub use draw_steps::{NAMES, draw_name, draw_page};
pub use entry::{Commit, Opening};
pub use homes::Homes;
pub use law::table_law;
pub use marks::Marks4;
pub use plays::Aim;
pub use pm3_types::Memory;
pub use row_steps::{load_named, look, mark_page, read_word, store_word, unmark_page};
pub use rule::{Key, TheRule};
pub use shared::{Pass, Shared};
pub use unit::{Busy, Full, Limit, Unit};
pub use unit_steps::{give_turn, give_unit, settle_held, settle_volatile, take_unit};
pub use view::{Deed, Hold, Kept, Refusal, Span, Told, View};
