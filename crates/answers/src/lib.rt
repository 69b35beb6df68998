//! The answers of the program: what it answers about a search, an instance, a journal or a cover, and how it writes the answer.
//!
//! A search that is over has an outcome, its counts and, if one is asked for, a cover. `Proved` has a best solution, or one that no
//! feasible solution exceeds by more than the distance asked for. `Infeasible` means that there is no feasible solution. `Stopped`
//! has the incumbent and a bound that no feasible solution exceeds; a search stops for its budget only if the budget is less than
//! the number of prefixes. This is true of a search that began at the root, and of one that goes on from a journal whose records
//! are sound. A check accepts the cover that follows a report, and an accepted cover proves its report.
//!
//! The search of a part of a stopped search begins with the prefixes that its journal lists. It has settled them with its incumbent, or no
//! solution that begins with one of them exceeds its bound. `split_journal` gives the journal of a part. `specs/PartSearches.antt` and
//! `specs/Splits.antt` define this.
//!
//! A search that keeps a journal begins it by `begin_journal`, or goes on from one that `open_journal` opened. What it may leave on
//! its disk, and when its answer is right, is defined in `specs/Journals.antt` and `specs/Kept.antt`. `read_offers` reads the reports whose
//! solutions are offered to a search before it goes on. What becomes of them is defined in `specs/Offers.antt`.
//!
//! It stands on `problems` for instances, on `parts` for parts of them, on `board` for the board of a search, on `disk` and `journal_file`
//! for journals, on `journal_replay` and `kept_board` for what their records make, on `frontier_parts`, `part_records` and `part_files` for
//! parts of a stopped search, on `bound_cover`, `cover_pages`, `cover_book` and `cover_text` for covers and the books that they are made
//! from, on `sha2` for digests, on `streams` for streams, on `solver_words` for the words and on `solver_report` for answers and their
//! texts. It starts no search: `commands` does.
//!
//! ```
//! let answer = digest_text::<Knapsack>(alloc, b"3 10\n60 5\n50 4\n70 6\n");
//! let status = say(alloc, &mut out, &answer);
//! ```
#![tactic(auto)]

mod checking;
mod concluding;
mod covering;
mod digesting;
mod inputs;
mod joining;
mod journaling;
mod offering;
mod parting;
mod printing;
mod reporting;
mod saying;
mod settling;
mod splitting;

pub use checking::check;
pub use concluding::{Conclusion, conclude};
pub use covering::{Subject, told};
pub use digesting::digest_text;
pub use inputs::{answer_cover, answer_parts, unread};
pub use joining::join_texts;
pub use journaling::{begin_journal, has_starts, open_journal};
pub use offering::read_offers;
pub use parting::part_of;
pub use printing::printed;
pub use reporting::answer_reports;
pub use saying::say;
pub use settling::{part_outcome, searched_part};
pub use splitting::split_journal;
