//! Transactions over a small store on devices in memory, tried call by call.
#![tactic(auto)]

mod beside;
mod closing;
mod counting;
mod example;
mod files;
mod forks;
mod four;
mod list_stores;
mod lists;
mod making;
mod plain_lists;
mod plans;
mod replay;
mod steps;
mod stores;
mod trails;

pub use beside::{add_beside, count_beside};
pub use closing::{closed, closed_once_all_are_joined};
pub use counting::{Refusal, add_up, count, count_up, ended};
pub use example::write_and_read;
pub use files::{files_named, reference, small_files};
pub use forks::{forked_number, make_beside_fork, make_often};
pub use list_stores::{Told, build_lists};
pub use lists::{Deed, Node, Seen};
pub use plans::{Kind, Plan};
pub use replay::{Odd, plain_nodes};
pub use steps::{End, Step, performed, performed_all, seen, seen_after};
pub use stores::{started, started_with};
pub use trails::{Share, Trail};

#[cfg(test)]
mod beside_tests;
#[cfg(test)]
mod forks_tests;
#[cfg(test)]
mod lists_tests;
#[cfg(test)]
mod making_tests;
#[cfg(test)]
mod passes_tests;
#[cfg(test)]
mod tests;
