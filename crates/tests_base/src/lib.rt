//! Tests of the crates that stand below the problems: sources and sinks, texts, rows and sets, the problems' names, and
//! subproblems in memory.
//!
//! It stands on the crates that it tests. They stay without tests of their own, so that each of their functions is proved once.
#![tactic(auto)]

#[cfg(test)]
mod benefits;
#[cfg(test)]
mod comparing;
#[cfg(test)]
mod io;
#[cfg(test)]
mod names;
#[cfg(test)]
mod sets;
#[cfg(test)]
mod subproblems;
#[cfg(test)]
mod texts;
