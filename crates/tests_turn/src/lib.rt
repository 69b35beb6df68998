//! Tests of the turn. One value under the turn is a counter that hands out numbers to workers and keeps the greatest number that came
//! back. The other is the board of a search.
//!
//! The crate stands on `turn`. For the board, which is in no journal, it stands on `search_workers` and on a knapsack. `Counter` is a value
//! with slots and two kinds of move, `work` is what one worker does, and `fan_out` runs the workers in parallel. Everything but the counter
//! is test code, so that each function is proved once. No clause and no test shows that two threads ran at the same time.
#![tactic(auto)]

#[cfg(test)]
mod boards;
#[cfg(test)]
mod books;
mod counter;
#[cfg(test)]
mod tests;
#[cfg(test)]
mod workers;

pub use counter::Counter;
