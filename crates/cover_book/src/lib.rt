//! The cover of a solved instance, made of relaxed diagrams.
//!
//! It stands on `bound_cover`, on `relaxed_dd` for diagrams, and on `cover_pages` and `board_laws` for books and what became of the children
//! in them. An `Exploration` is a cover under way: one row for the root at first, which waits. Each row that waits stands for a prefix. The
//! caller compiles the relaxed diagram of this prefix, with the claim as threshold, and puts it in: the row gets the arcs of the diagram's
//! root, and each further node gets a row. The rows of the last exact layer that lead above the claim wait. Once no row waits, `finish`
//! writes the cover. Where no feasible solution exceeds the claim, the checker's `check_rows` then answers `None`, so that the checker
//! accepts the cover with every best solution. `explore_whole` makes such a cover from nothing.
//!
//! First `explore_whole` makes a thin cover. A row serves another row of its layer if its bound, plus the gap to the other state, is at
//! most the bound of the other row. Then every arc to the other row may lead to this one. So a row that a kept row serves is dropped, and
//! gets no diagram. Of a thin cover it is proved only that its bounds can be written. `explore_whole` returns it if `check_rows` answers
//! `None` for it; otherwise it makes the exploration above.
//!
//! `settle` does the same with the books of a search: a row that waits gets the diagram of its subproblem from a page, or is replaced by
//! the row of the subproblem that dominated, kept out or replaced its own. Only what no page supplies is compiled. `settle` tests this cover
//! too, so its result passes whatever the books hold. It calls `explore_whole` if the test fails or no book has a page.
//!
//! ```
//! let cover = settle(alloc, &model, claim_of(Some(120), 0), &books)?;
//! ```
#![tactic(auto)]

mod adding;
mod aim;
mod claims;
mod diagrams;
mod drafting;
mod exploration;
mod exploring;
mod gathering;
mod pages;
mod rows;
mod serving;
mod settling;
mod sources;
mod thinning;
mod tracing;
mod waiting;
mod whole;
mod writing;

pub use diagrams::ShownDiagram;
pub use exploration::Exploration;
pub use settling::settle;
pub use whole::explore_whole;
