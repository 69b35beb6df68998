//! The board of a branch and bound search: the incumbent, the open subproblems, a slot for each worker, the dominance table,
//! the counts, the settings and the cause of a halt. A search consists of five steps on it: take, improve, finish, give back
//! and halt.
//!
//! The crate stands on `dp_model`, on the data and the laws of `board_laws`, on `fringe` for the open subproblems, on
//! `dominance_table` for the states that were reached, and on `turn`, by which workers share a board: a move in a turn is one
//! step of a worker's run, or none.
//!
//! Each call that changes a board is one step, and its contract is an equation on the board as data. The reach is the
//! incumbent's value plus the distance of the settings. A subproblem is out while a worker's slot has it. Every step keeps a
//! board good. On a good board:
//!
//! - Each feasible solution is at most the reach, or matched by a prefix that is open or out.
//! - No completion of such a prefix exceeds both its bound and the reach.
//! - Whatever the state of a table entry can lead to is at most the reach, or matched below a prefix that is open or out. So pruning by
//!   the entry is sound.
//! - No prefix that is open or out begins with another, and no two open subproblems have one depth and state.
//! - The counts are bounded by the number of prefixes.
//!
//! So if nothing is open or out, no feasible solution is above the reach.
//!
//! ```
//! let mut board = Board::begin(alloc, model, settings)?;
//! let taken = board.take(0, &mut sub);
//! board.improve(&decisions);
//! let bound = board.bound();
//! ```
#![tactic(auto)]

mod blank;
mod board;
mod checked_out;
mod copying;
mod deciding;
mod entering;
mod first;
mod full;
mod halting;
mod listing;
mod restoring;
mod start;
mod starting;
mod tag;
mod turned;

pub use board::Board;
pub use board_laws::{Cause, Fate, Improved, Settings, Taken};
pub use first::FirstBoard;
pub use starting::root_sub;
pub use tag::BoardTag;
