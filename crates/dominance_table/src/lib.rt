//! The dominance table of a search: the states that the search has reached, and which of them dominates a new state. An entry is a row
//! with its depth, bucket, rank, value and ticket.
//!
//! The crate stands on `dp_model`, which gives buckets, gaps and ranks, and on the kit's `indexmap`. It knows of no board and no
//! incumbent. A table is seen as the list of its entries in the order of their puts. The contract of each call promises:
//!
//! - `put` appends an entry with the bucket and the rank that the model gives. If there are as many entries as the limit, it answers
//!   `AtLimit` and changes nothing. It takes no memory, and lowers `spare` by one at most.
//! - `dominator` is exactly the least ticket of the entries that dominate: those of the same depth and bucket whose value is no less than
//!   the sum of the new value and the gap from their row to the new row.
//! - `reserve` fails only for want of memory, and then changes nothing.
//!
//! Consecutive entries of one depth and bucket are a run. The runs of one fold of depth and bucket are in a chain, in the order of their
//! puts. A search compares depth and bucket once for each run, so its answer is exact although folds may collide. If tickets rise in the
//! order of the puts, the first entry that dominates is the answer.
//!
//! ```
//! let mut table = Table::new(alloc, words, 1 << 20);
//! table.reserve(1)?;
//! table.put(&model, depth, &row, value, ticket);
//! let better = table.dominator(&model, depth, &other, value);
//! ```
#![tactic(auto)]

mod dominating;
mod entry;
mod groups;
mod put;
mod table;

pub use put::Put;
pub use table::Table;
