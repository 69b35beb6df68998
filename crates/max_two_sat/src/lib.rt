//! Weighted MAX-2SAT: a truth value for each variable, so that the satisfied clauses weigh as much as possible. A clause has at most
//! two literals.
//!
//! `MaxTwoSat` is an instance, and `PairModel<MaxTwoSat>` is its dynamic program: layer `k` gives variable `k` its value, and a state
//! has for each later variable the net benefit of making it true, among the clauses that are decided but for it, as `pair_rows` keeps
//! it. The `read` and `print` of the model convert between an instance and its text, and its `value_of` gives the weight that an
//! assignment satisfies, in the problem's own words. The crate stands on `pair_rows` and `pair_problem`, on `dp_model` and
//! `problem_theory` for the interfaces, on `tokens` for texts, and on `draws` for drawn instances.
//!
//! Promised, each in the contract of its call: `read` answers the instance exactly where the text is in the grammar, and otherwise its
//! first fault with its place; `print` gives the canonical text, which reads as the same instance; the program meets the six laws of
//! `dp_model` and its gaps add up along chains; and a list of decisions is a feasible solution exactly where `value_of` gives a value,
//! which is the same. A call that takes memory may fail for want of it at any time.
//!
//! ```
//! let model = PairModel::<MaxTwoSat>::read(alloc, b"p wcnf 2 1\n3 1 -2 0\n")?;
//! let value = PairModel::value_of(&model, &[1, 1]); // Some(3)
//! ```
#![tactic(auto)]

mod clause;
mod draft;
mod first_line;
mod generating;
mod header;
mod instance;
mod lines;
mod listing;
mod printing;
mod problem;
mod reading;
mod reading_clauses;
mod value;
mod weights;

pub use instance::MaxTwoSat;
