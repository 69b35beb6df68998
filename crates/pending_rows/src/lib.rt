//! Rows of what must and what may still be done, and the time, as problems of orders keep them: which nodes a tour visits
//! next, which job a machine takes next. Two such rows are merged, one covers another where each way on from the other is
//! one from it and no later, and a step takes one number out.
//!
//! A row for the numbers below `n` has two sets of `words_for(n)` cells and one cell for the time, from 0 to 10^12. The crate
//! stands on `node_sets`. No call takes memory. Each gives exactly what its definition says, but for `next_open`: its contract
//! says only that no number before the answer is open. `proofs/Covering` has what follows for the problems above: covering is a chain, a merged row covers both, and a step keeps
//! it. `proofs/Joining` says that states may be merged in any order, `proofs/OrderLaws` which lists are orders.
//!
//! ```
//! // Whether every way to go on from `s` is one from `a`, and no later there, for rows of 5 numbers.
//! let covered = covers(5, &a, &s);
//! ```
#![tactic(auto)]

mod orders;
mod parts;
mod states;
mod writing;

pub use orders::{are_below, are_different, is_order};
pub use parts::{Parts, parts_of};
pub use states::{covers, is_row, left, left_after, next_open};
pub use writing::{write_done, write_joined, write_start};
