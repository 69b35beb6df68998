//! Tests of the checker of covers over a real problem, of the text of a cover, and of covers that are made by an exploration.
//!
//! It stands on `bound_cover`, `cover_text`, `cover_join` and `cover_book`, on the knapsack and on tours as the problems, and on what reads them.
#![tactic(auto)]

#[cfg(test)]
mod checking;
#[cfg(test)]
mod exploring;
#[cfg(test)]
mod joining;
#[cfg(test)]
mod tests;
#[cfg(test)]
mod texts;
#[cfg(test)]
mod turns;
