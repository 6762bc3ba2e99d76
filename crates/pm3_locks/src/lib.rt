//! Units that one mutator holds at a time, and numbers that are drawn once.
//!
//! The layer above may rely on three things. A unit that is taken comes with a value that stands for it after the whole
//! history, which the taker has seen then, and nothing that came to the history names a unit that it held. `Busy` shows the
//! word that was seen, which is not 0. And a drawn page or name is below its limit and is no one else's; `Full` comes only
//! where a value of the counter that was read is at or past the limit. No call takes memory.
#![tactic(auto)]

mod draws;
mod settles;
mod states;
mod units;

pub use draws::{draw_name, draw_page};
pub use pm3_table::{Busy, Full, Limit, Unit, give_turn, look};
pub use settles::settle;
pub use states::PageState;
pub use units::{give, take};
