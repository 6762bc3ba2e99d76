//! The heap, its mutators and their transactions, over the shared table.
//!
//! A program starts a `Heap` over a store that it has opened, and gets the first `Mutator`; `Mutator::fresh` makes one for each further
//! thread, and `Mutator::fork` one that begins with the words of its maker and makes its objects in the same space. A mutator has a
//! row of 512 words, as a stack is: references to objects, or numbers. `Mutator::begin` begins a transaction (`Txn`), whose calls
//! read and write objects to which places of the row lead. `Txn::commit` makes what it wrote last, `Txn::abort` forgets it. `Busy`
//! says that another mutator holds what is asked for: nothing waits, and the caller aborts, or tries again later.
//!
//! The layer above may rely on four things. A mutator's row has what its calls stored and nothing else, a place that was
//! stored without a refusal pins the page that it names, and a place that is tagged as a reference holds 0 or the address of an
//! object (`Belongs` of specs/). A refusal shows the word of the unit that was seen, and raises the refusals by one. The
//! values of the units stand for them after one history, which each mutator has seen a beginning of. And each access is one
//! operation, and a commit all of them at once, behind those of all commits before it (`HasCommitted`).
#![tactic(auto)]

// Values of slots, the heap, the token of one mutator, and that threads may have these.
mod crossing;
mod heap;
mod mutator;
mod values;

// A heap's start: its frontier, the values of its units, and how these are let go where there is no memory.
mod draining;
mod frontiers;
mod homes;
mod start;

// And its end: the values are gathered, and the store stands after the whole history.
mod close_fault;
mod closing;
mod gathering;

// The calls of a mutator on its own row and on units, and those by which mutators are made and end.
mod crew;
mod forking;
mod rows;
mod units;

// A transaction: its beginning, the pages that it touches, the calls on its row, and its end without a change.
mod aborting;
mod faults;
mod loading;
mod objects;
mod row_calls;
mod touching;
mod transaction;

// Its accesses: what stands at the places of objects that are held, and the reads and writes of fields, tails and root slots.
mod bytes;
mod kinds;
mod making;
mod object_values;
mod place_access;
mod references;
mod roots;
mod spaces;
mod tails;
mod words;

// Its commit: the turn, the entry for the journal, and the end of the transaction with it.
mod commit;
mod commit_fault;
mod concluding;
mod recording;
mod turns;

// The commit of a transaction that holds its space: what its pass needs, the pass, and the end.
mod carrying;
mod ending;
mod fresh;
mod passing;
mod pinning;
mod prepared;
mod settling;
mod space_commit;

// Laws of transactions as values.
mod laws;

pub use close_fault::HeapCloseFault;
pub use commit_fault::{CommitEnd, CommitFault, CommitRefusal};
pub use crew::FreshFault;
pub use faults::AccessFault;
pub use forking::ForkFault;
pub use heap::Heap;
pub use laws::{drawn_law, holding_law, owner_law, pass_law, step_law, transaction_law, works_law};
pub use mutator::{Mutator, Tag};
pub use start::StartFault;
pub use transaction::Txn;
