//! Tests of the reports of parts, over a real problem, and of their texts.
//!
//! It stands on `part_reports` and on the knapsack, and on `part_text` for the texts.
#![tactic(auto)]

#[cfg(test)]
mod report_texts;
#[cfg(test)]
mod reports;
