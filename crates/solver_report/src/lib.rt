//! The answers of the program, and the text and exit status of each answer.
//!
//! It stands on `dp_model` for solutions, on `bound_cover` for verdicts, on `tokens` for numbers and faults of texts, on `problem_theory` and
//! `table_refusal` for why instances are refused, on `solver_words` for why words are, on `journal_file` for why journals are, and on the
//! crates `hex` and `itoa`.
//! `report_text` gives exactly the text of an answer, and `status` its exit status. `specs/Report.antt` defines both. `exit_status` has a
//! constant for each exit status of the program.
//!
//! ```
//! let answer = Answer::Searched(Outcome::Infeasible, None);
//! let text = report_text(alloc, &answer)?; // "infeasible\n"
//! let code = status(&answer); // exit_status::INFEASIBLE
//! ```
#![tactic(auto)]

mod answer;
pub mod exit_status;
mod report;

pub use answer::{
    Answer, Counts, JoinRefusal, Outcome, PartOutcome, ReportRefusal, SearchedPart, Solution, Stop,
};
pub use report::{report_text, status};
