//! Reports of the parts of a search that was dealt out by its frontier, tested and joined.
//!
//! A part is searched by itself. What its search has settled is told by a `PartReport`: which part it is, of which journal, and the best
//! solution that was found. `join_reports` takes one report for each part. It trusts no value: each must be that of its decisions.
//! `best_of_reports` gives the solution that has the joined value. `first_untested` tests the solutions alone. The
//! crate stands on `part_records` for what the parts are, and on `frontier_parts` for the greatest value.
//!
//! The functions without parameters are laws. Where reports are joined, and each tells what the search of its part has settled, the joined
//! value is the best one, or no solution is further above it than the distance of the search (`reports_join`). Where the search that was dealt out is
//! itself of a part, the joined value settles the prefixes of that part (`reports_join_from`).
//!
//! ```
//! // The greatest of the incumbent, 7, and of the values of all parts, with the first part that has it.
//! let joined = join_reports(alloc, &model, &digest, Some(7), &reports)?;
//! ```
#![tactic(auto)]

mod best;
mod fault;
mod joining;
mod laws;
mod report;
mod testing;

pub use best::best_of_reports;
pub use fault::ReportFault;
pub use joining::join_reports;
pub use laws::{reports_join, reports_join_from};
pub use report::PartReport;
pub use testing::first_untested;
