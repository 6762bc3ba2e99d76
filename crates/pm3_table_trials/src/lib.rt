//! The shared table, rows and locks, tried together over a value that counts the commits that name its unit.
#![tactic(auto)]

mod tables;
mod tallies;
mod turns;
mod volatile;
mod workers;

pub use tables::{drain, sixteen, use_up_rows};
pub use tallies::Tally;
pub use turns::{commit_nothing, hold_page, hold_turn};
pub use volatile::{grow, hold_seen, mark_seen, unmark_seen, word_of_page};
pub use workers::{
    hold_and_store, hold_beside, mark_and_scan, mark_beside, store_and_validate, write_both,
    write_down,
};

#[cfg(test)]
mod tests;
