//! A journal in a file that may crash: a head, and records after it, each on the disk before it is acknowledged.
//!
//! `begin` writes a head into a file that has no journal, `reopen` reads a journal and finds where it goes on, `append` adds a
//! record. A crash at any moment of a call leaves a file that reads as the records from before it, or as these and the new one;
//! once the call is Ok, only as the latter. A record is written after a closed gate and put on the disk before its gate is
//! opened, so no crash leaves a part of one. The crate knows no search: it stands on `disk` for what a crash may leave, and
//! on `journal_bytes` for what bytes read as.
//!
//! ```
//! let (head, records, mut tail) = reopen(alloc, &mut disk)?;
//! append(alloc, &mut disk, &mut tail, &Record::Improve { value, decisions })?;
//! ```
#![tactic(auto)]

mod adding;
mod append_error;
mod beginning;
mod error;
mod opening;
mod steps;

pub use adding::append;
pub use append_error::AppendError;
pub use beginning::begin;
pub use error::JournalError;
pub use journal_bytes::{Child, Head, Record, Records, Tail};
pub use opening::reopen;
