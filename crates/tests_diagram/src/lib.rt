//! Tests of diagrams over real problems: the beam of a restricted diagram below the empty prefix, relaxed diagrams with the children
//! that they leave, also where the rows of the last exact layer alone were kept, how many rows are held while one is made, what is
//! kept of a layer that is reduced to its first nodes, diagrams in parts, and which states may cover others by their fingerprints alone.
//!
//! It stands on `problem_theory`, `knapsack`, `max_cut`, `pair_problem`, `layer_build`, `wide_layers`, `restricted_dd`, `relaxed_dd` and `exact_cutset`.
#![tactic(auto)]

#[cfg(test)]
mod beams;
#[cfg(test)]
mod fingerprints;
#[cfg(test)]
mod lean;
#[cfg(test)]
mod relaxing;
#[cfg(test)]
mod roots;
#[cfg(test)]
mod stepping;
#[cfg(test)]
mod widely;
