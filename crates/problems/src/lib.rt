//! The problems that the program solves, each by its name.
//!
//! It stands on `problem_names`, on `problem_theory` for the interface, and on the crates of the problems. Only `by_name` chooses a
//! problem: it calls a function for the problem of a name. A new problem adds an arm to `by_name`, and a line
//! each to `theory_of` and `sizes_drawn` of `specs/Theories.antt`.
//!
//! ```
//! // Calls `digest_text::<Knapsack>(alloc, text)` if the name is `ModelName::Knapsack`, and so for each problem.
//! let answer = by_name!(name, digest_text(alloc, text));
//! ```
#![tactic(auto)]

pub mod choosing;
#[cfg(test)]
mod tests;
