//! The fringe of a search: the open subproblems, each with its ticket, no two of one depth and state.
//!
//! The crate stands on `dp_model`, on the list facts of `dp_laws`, on `row_region` and on the kit's `indexmap`. A fringe is seen as the
//! list of its open subproblems in order of ticket, and the number `spare`. The contract of each call promises:
//!
//! - `push` drops the new subproblem if the open one of its depth and state has no less value. Otherwise the new one is open, and takes the
//!   place of that one (`Replaced`) or stands beside the others (`Entered`).
//! - `pop_best` takes out the subproblem with the greatest bound, then the greatest value, then the least ticket.
//! - `drop_up_to` drops exactly the subproblems whose bound is at most the value.
//! - `same`, `best_bound` and `by_ticket` read.
//! - Only `reserve` and `by_ticket` take memory. A push lowers `spare` by one at most, a pop that gives a subproblem raises it by one at
//!   least, and no other call lowers it. `reserve` fails only for want of memory, and then changes nothing.
//!
//! In memory the open subproblems are in slots. A region has the key of each at the place of its slot: a row of one cell with the fold of
//! depth and state. A slot is free if its row in the region is. A heap has the rank of each. An index has, for each fold, a chain of the
//! slots that were entered under it. Depth and row of the subproblem in a slot are compared cell by cell, so the answers are exact
//! although folds may collide. Heap and index may also name subproblems that are gone. Such stale entries are skipped when they come up.
//! `ranks` tells how many ranks the heap has, which is at most `2 * (len + SLACK) + 1`.
//!
//! ```
//! let mut fringe = Fringe::new(alloc, words);
//! fringe.reserve(1)?;
//! fringe.push(ticket, sub);
//! let first = fringe.pop_best();
//! ```
#![tactic(auto)]

mod bounding;
mod dropping;
mod fate;
mod finding;
mod fringe;
mod growing;
mod index;
mod listed;
mod listing;
mod popping;
mod pushing;
mod rank;
mod ranks;
mod reindexing;
mod reranking;
mod same;
mod slots;
mod store;

pub use bounding::raised;
pub use fate::FringeFate;
pub use fringe::Fringe;
pub use same::Same;
pub use store::SLACK;
