//! Why a document of JSON is no table of states: it is no JSON, it is not of the form, or a test of its laws fails.
//!
//! It stands on std alone, so that whoever prints the refusal needs none of what reads tables.
//!
//! ```
//! // The bytes are JSON, but layer 2 of the table has not the form of a layer.
//! let refusal = TableError::Shape { layer: Some(2) };
//! ```
#![tactic(auto)]

mod failure;
mod refusal;

pub use failure::{Failure, Law};
pub use refusal::TableError;
