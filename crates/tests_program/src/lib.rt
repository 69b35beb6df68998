//! Tests of the program: whole runs, by their words, inputs, printed texts and statuses, over sources, sinks and disks in memory.
//!
//! It stands on `commands`, which stays without tests of its own, so that each of its functions is proved once. `streams`, `disk` and
//! `search_workers` have what a run is given, `hex` reads the bytes of files, and `solver_words` says what the words ask for.
#![tactic(auto)]

#[cfg(test)]
mod tests;
