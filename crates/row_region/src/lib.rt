//! Rows of one length in one block of cells, taken and given back in a few instructions.
//!
//! A row is named by a small copied `RowId`. A row that was given back keeps the name of the next such one in its first cell,
//! so the free rows need no room of their own; those that were never taken stand after all others, so that `clear` gives all
//! rows back in a few instructions, too. The crate stands on std alone. A region is seen as the row of each place, or none
//! where the place is free, and the number `spare` of free places. Promised, each in the contract of its call: `take` gives a
//! row of zeros that was free, and none exactly where `spare` is 0; `take_free`, for a caller that knows that some row is free,
//! gives one with whatever stands in it; `give` frees one live row; `row` reads it, `cells` reads all rows as one slice,
//! `row_mut` lends a row to be written, and what is left in it is the row from then on; no call changes another row. Only `new`
//! and `grow` take memory; a `grow` that fails changes nothing.
//!
//! ```
//! let mut region = Region::new(alloc, words, rows)?;
//! if let Some(id) = region.take() {
//!     region.row_mut(id)[0] = 7;
//!     region.give(id);
//! }
//! ```
#![tactic(auto)]

mod free_list;
mod parting;
mod region;
#[cfg(test)]
mod tests;

pub use region::{Region, RowId};
