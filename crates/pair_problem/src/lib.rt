//! Problems over rows of pairs, as problems of the program.
//!
//! A problem of variables of two values implements `PairProblem`: its texts, its own words, and the variables and pairs that it lists.
//! `PairModel` keeps such a problem with the rows of what it lists, and is a `DpModel` and a `Problem`: each call of the dynamic program
//! goes to the rows, and each call with texts or own words to the problem. The crate stands on `pair_rows` and `problem_theory`.
//!
//! Promised: the program of the model is that of the variables and pairs which the problem lists, so it meets the laws.
//!
//! ```
//! let model = PairModel::<Qubo>::read(alloc, b"2 1\n1 2 5\n")?;
//! let gain = model.gain(0, state, 1);
//! ```
#![tactic(auto)]

mod adding;
mod binary;
mod listing;
mod model;
mod pair_model;
mod places;
mod problem;

pub use adding::{add_product, nothing_of};
pub use binary::are_binary;
pub use listing::PairProblem;
pub use pair_model::PairModel;
pub use places::{count_of_pairs, place_of_pair};
