//! The text of reports of the parts of a search.
//!
//! A part of a stopped search is searched by itself, and the program prints its report: `settled`, the part, the digest of the journal that
//! was split, and the best solution or none. `read_reports` reads such reports, one after another. It answers exactly what the text spells,
//! or its first fault at its place, except for want of memory. `specs/Reports.antt` defines what is spelled. The crate stands on
//! `part_reports` for what a report tells, on `solver_report` for its printed text, on `tokens` and on the crate `hex`.
//!
//! The function without parameters is a law: what is printed is read as what was printed (`reports_are_read`).
//!
//! ```
//! let reports = read_reports(alloc, input.as_slice())?;
//! ```
#![tactic(auto)]

mod best;
mod fixed;
mod head;
mod laws;
mod read_reports_error;
mod reading;
mod settled_report;
mod written;

pub use laws::reports_are_read;
pub use read_reports_error::ReadReportsError;
pub use reading::read_reports;
pub use settled_report::SettledReport;
