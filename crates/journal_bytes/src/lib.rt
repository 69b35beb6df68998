//! The bytes of a journal, and the head and records that they spell.
//!
//! A journal is a row of records. Before each stands a gate, a byte that is open only once the record is whole; after it the
//! record's kind, the length of its body, the body, and the SHA-256 of the digest before it with all of this. `read_journal`
//! reads a file up to the first closed gate, or gives the first cause for which it is refused; what it reads is spelled so.
//! `head_body` and `record_body` give the one spelling of a body, which reads back as the same head or record, and `seal`
//! what stands after its gate. A head with the mark of a part tells of which part of a search the journal is; its records are those of version 2.
//! `body_size` tells how many bytes the body of a record has. The crate touches no file. It stands on `sha2`, and on `problem_names` for
//! a head's problem.
//!
//! ```
//! let (head, records, tail) = read_journal(alloc, &file)?;
//! ```
#![tactic(auto)]

mod body;
mod counting;
mod frames;
mod head;
mod journal;
mod record;
mod records;
mod refusal;
mod sealing;
mod tail;
#[cfg(test)]
mod tests;
mod writing;

pub use counting::body_size;
pub use frames::{BODY_LIMIT, CLOSED_GATE, FRAME_OVERHEAD, HEAD_KIND, OPEN_GATE};
pub use head::{Head, MOST_WITHIN, PART_VERSION, Part, VERSION};
pub use journal::read_journal;
pub use record::{Child, Incumbent, Listed, Record};
pub use records::Records;
pub use refusal::Refusal;
pub use sealing::seal;
pub use tail::Tail;
pub use writing::{head_body, record_body};
