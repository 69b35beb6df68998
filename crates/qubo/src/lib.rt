//! Quadratic unconstrained binary optimisation: each variable is 0 or 1, and a line weighs in where both of its variables are 1.
//!
//! `Qubo` is such an instance, and `PairModel<Qubo>` is its dynamic program, which meets the laws: layer `k` gives variable `k` its
//! value, and a state has for each later variable what it gains by 1, as `pair_rows` keeps it. The `read` and `print` of the model
//! convert between an instance and its text, and its `value_of` adds up lines in the problem's own words. The crate stands on
//! `pair_rows`, `pair_problem` and `benefit_rows`, on `dp_model` and `problem_theory` for the interfaces, on `tokens` for texts, and on
//! `draws` for drawn instances.
//!
//! Promised, each in the contract of its call: the instance that a text spells, or its first fault with its place; the canonical text,
//! which reads as the instance; the sum of the lines whose variables are 1, or none exactly where the decisions are not a 0 or a 1 for
//! each variable; and that the feasible solutions of the program are these, with their values. A call
//! that takes memory may fail for want of it at any time.
//!
//! ```
//! let model = PairModel::<Qubo>::read(alloc, b"2 2\n1 1 5\n1 2 -4\n")?;
//! let value = PairModel::value_of(&model, &[1, 0]); // Some(5)
//! ```
#![tactic(auto)]

mod generating;
mod instance;
mod line;
mod listing;
mod printing;
mod problem;
mod reading;
mod value;

pub use instance::Qubo;
