//! A problem of one's own as a table in JSON: layers of states, with the decisions and gains of each state, and with gaps, merges and
//! rough bounds whose laws are tested before the table is trusted.
//!
//! `TableModel` is a `DpModel`: a state is the number of one, and a decision is allowed where it has a next state. It is a `Problem`
//! of which no instance is drawn: `read` and `print` take a table from its document and back, and `value_of` judges a solution in the
//! problem's own words. The crate stands on `dp_model` and `problem_theory` for the interfaces, and on `serde_json` for the
//! document's tree.
//!
//! Promised, each in the contract of its call: `read` answers the table that the bytes spell or why they spell none; `print` gives
//! the canonical text, which is read back as the same table; a list of decisions is a feasible solution of the dynamic program
//! exactly where `value_of` is not `None`, with the same value; and the dynamic program of every table that was read meets the laws,
//! and its gaps add up along chains. `read` and `print` may fail for want of memory at any time.
//!
//! ```
//! let model = TableModel::read(alloc, document)?;
//! let value = TableModel::value_of(&model, &[0, 1]);
//! ```
#![tactic(auto)]

mod cells;
mod document;
mod error;
mod laws;
mod layer;
mod model;
mod printing;
mod problem;
mod reading;
mod shape;
mod sums;
mod table;
mod transition;
mod value;

pub use error::ReadTableError;
pub use table::TableModel;
pub use table_refusal::{Failure, Law, TableError};
