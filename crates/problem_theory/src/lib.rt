//! The interface of a problem of the program: a dynamic program with a text for each instance, words of its own for its solutions,
//! and, if it has them, instances that are drawn from a seed.
//!
//! It stands on `dp_model`, `tokens` and `problem_names`, and on `table_refusal` for the refusals of tables. The crate of a problem
//! implements `Problem` for its model, and gives the theory that the contracts cite. A problem whose text has faults of another kind
//! has a variant of `InstanceRefusal`.
//!
//! ```
//! let model = P::read(alloc, text)?;
//! let value = P::value_of(&model, &[0, 1, 1]);
//! ```
#![tactic(auto)]

mod problem;
mod read_error;
mod refusal;

pub use problem::Problem;
pub use read_error::ReadInstanceError;
pub use refusal::InstanceRefusal;
