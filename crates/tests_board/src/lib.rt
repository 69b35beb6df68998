//! Tests of the board and of two crates below it, the fringe and the dominance table, over a real problem.
//!
//! The crate stands on the crates that it tests and on the knapsack. These have no tests of their own, so that each of their functions is
//! proved once.
#![tactic(auto)]

#[cfg(test)]
mod boards;
#[cfg(test)]
mod fringes;
#[cfg(test)]
mod tables;
