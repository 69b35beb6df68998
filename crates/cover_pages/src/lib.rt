//! Books: the diagrams of a search, as far as a cover needs them.
//!
//! It stands on `relaxed_dd` for diagrams, on `row_region` for their rows, on `board_laws` for the fates of children, and on
//! `bound_cover` for arcs. A worker puts each relaxed diagram into its book once the subproblem is finished. A page tells of each node
//! its row, value, suffix, exact mark and arcs, and of each child where it stands, its decisions and its fate. A node counts for the
//! words of its row and two more, and for two for each of its arcs; a book has a limit of such words. `collect` leaves a diagram out
//! exactly where it would exceed the limit, and changes nothing where memory is refused. The readers show what was put in.
//!
//! ```
//! let mut book = CoverBook::new(alloc, model.words(), 1 << 26);
//! let collected = book.collect(alloc, ticket, &diagram, &places, &fates)?;
//! ```
#![tactic(auto)]

mod book;
mod making;
mod pages;
mod reading;
mod sizing;
mod stored;
mod writing;

pub use book::CoverBook;
pub use pages::{Collected, PageChild, PageHead, PageNode, Place};
