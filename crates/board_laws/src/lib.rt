//! The board of a branch and bound search as plain data, with its steps, and the laws of boards and of runs.
//!
//! The crate stands on `dp_model`, on the laws of `dp_laws`, and on `fringe` and `dominance_table` for the lists of open subproblems and
//! of table entries. A board is the incumbent, the open subproblems with their tickets, a slot for each worker, the entries of the
//! dominance table, the settings, the counts and the cause of a halt. The reach is the incumbent's value plus the distance that the
//! settings allow. A search leaves out whatever is at most the reach.
//!
//! Each function that has no parameters is a law: its body is empty, and its contract is a theorem. The main laws are:
//!
//! - Every step keeps what every board keeps, and keeps a good board good.
//! - No step changes the settings, lowers the incumbent or changes the slot of another worker.
//! - No feasible solution exceeds the bound of a good board.
//! - If nothing is open or out on a good board, each feasible solution is at most the reach.
//!
//! A search may begin with start prefixes in place of the root. Its board is good from them: it covers the solutions that begin with one
//! of them. Each step keeps that too. A whole search is the case of the empty prefix. If nothing is open or out, each solution that begins
//! with a start prefix is at most the reach.
//!
//! ```
//! // A law: the call does nothing, and its contract is a theorem.
//! explored_is_best();
//! ```
#![tactic(auto)]

mod boards;
mod cause;
mod fate;
mod improved;
mod pushes;
mod runs;
mod settings;
mod starts;
mod steps;
mod taken;

pub use boards::{explored_is_best, explored_is_within_reach, no_solution_exceeds_the_bound};
pub use cause::Cause;
pub use fate::Fate;
pub use improved::Improved;
pub use pushes::{pushes_are_fates, puts_are_entries};
pub use runs::{runs_keep, steps_keep};
pub use settings::Settings;
pub use starts::{explored_settles, parts_keep, starts_cover};
pub use steps::{
    finish_keeps, first_boards_are_good, give_back_keeps, halt_keeps, improve_keeps,
    restored_boards_keep, take_keeps,
};
pub use taken::Taken;
