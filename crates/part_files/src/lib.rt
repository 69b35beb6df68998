//! The bytes of the journal of a part of a search.
//!
//! `part_bytes` makes a whole journal: the head and the one record with which the search of a part begins, as `begin` and `append` of
//! `journal_file` leave them in a file. Such bytes read as a journal with exactly this head and this record. They are refused exactly where
//! the body of the head or of the record has more bytes than its length can tell. The crate touches no file. It stands on `journal_bytes`.
//!
//! ```
//! let part = Some(Part { index: 1, of: 4, digest });
//! let bytes = part_bytes(alloc, &Head { model, within, part, text }, &snapshot)?;
//! ```
#![tactic(auto)]

mod error;
mod sizes;
#[cfg(test)]
mod tests;
mod writing;

pub use error::PartError;
pub use writing::part_bytes;
