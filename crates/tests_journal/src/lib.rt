//! Tests of journals in files, of what their records make of a search, and of a board that is kept in a journal, over a real problem.
//!
//! It stands on the crates that it tests, on the knapsack, and on `search_workers` for a search that writes snapshots. They stay without tests of their own, so that each of their
//! functions is proved once.
#![tactic(auto)]

#[cfg(test)]
mod files;
#[cfg(test)]
mod keeping;
#[cfg(test)]
mod replaying;
#[cfg(test)]
mod snapshots;
