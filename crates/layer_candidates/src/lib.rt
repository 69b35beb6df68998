//! Beams in memory: the layers of a restricted diagram, made one after another, and its beam.
//!
//! The members of a layer are extended by each allowed decision. Of each state the first way of greatest value is kept: equal
//! states are found by a table of hashes, and compared cell by cell. The ways that are not struck are put into the reduction order,
//! those that are dominated go, and the first ones stay.
//!
//! It stands on `dp_model`, `dp_laws` and `row_region`, and each layer is proved to be the one that is defined in `dp_laws` on
//! plain lists of prefixes. States stand as rows of a region that the caller owns: a row that no way, key or member has any more
//! is given back in the call that lets it go, and a beam gives back all rows that it took. No call but `prepare` takes memory.
//!
//! ```
//! // `found.value` is the value of the beam, whose decisions are in `decisions`; it is `None` if there is no beam.
//! let start = Start { prefix, row: &row, value };
//! let limits = Limits { width, threshold: None };
//! let found = beam.beam(&mut region, &model, start, limits, &mut decisions);
//! ```
#![tactic(auto)]

mod beam;
mod block;
mod candidates;
mod descending;
mod extending;
mod holding;
mod joining;
mod key;
mod limits;
mod member;
mod ordering;
mod parent;
mod pruning;
mod rows;
mod start;
mod step;
mod striking;
mod table;
mod walking;
mod way;

pub use beam::{Beam, Beamed};
pub use extending::{Taken, extend_by};
pub use holding::{HasRow, give_rows, put_row, take_row};
pub use key::Key;
pub use limits::Limits;
pub use member::Member;
pub use ordering::{put_in_order, sort, sort_first};
pub use parent::Parent;
pub use rows::row_of;
pub use start::Start;
pub use step::Step;
pub use striking::{is_struck_by, list_unstruck};
pub use table::WayTable;
pub use way::Way;
