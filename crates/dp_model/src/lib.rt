//! Discrete maximisation problems as dynamic programs: the interface of a problem, and the laws that every problem is
//! proved to meet.
//!
//! It stands on std alone. Its definitions (prefix, state and value, feasible solution, completion, continuation, frontier
//! cover, bounds, counts) speak of plain lists and numbers. Every crate that speaks of a problem uses them.
//! `DpModel` is the interface of a problem. `walk` follows decisions from the root, `solution_value` those of a whole solution.
//! `Sub` is a subproblem in memory. `fold` hashes a row, and `spread` a number.
//!
//! ```
//! // `value` is the value of the prefix 1, 0, and `state` the state that it reaches. It is `None` for a list that is no prefix.
//! let value = walk(&model, &[1, 0], &mut state, &mut spare);
//! ```
#![tactic(auto)]

mod cut_kind;
mod folds;
mod found;
mod limits;
mod model;
mod rows;
mod sub;
mod theory;
mod walking;

pub use cut_kind::CutKind;
pub use folds::{fold, spread};
pub use found::Found;
pub use limits::{
    MOST_CHOICES, MOST_COST, MOST_DISTANCE, MOST_LAYER_PARTS, MOST_LEADERS, MOST_WIDTH,
    MOST_WORKERS,
};
pub use model::{DpModel, Extended, Fingerprint};
pub use rows::row_same;
pub use std::alloc::AllocError as OutOfMemory;
pub use sub::Sub;
pub use theory::{best_is_best, best_is_unique};
pub use walking::{solution_value, walk};
