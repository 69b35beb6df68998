//! A board that is kept in a journal: a step that finds a better solution or finishes a subproblem is written, and on the disk,
//! before the board changes.
//!
//! `Kept` holds a board of `board` beside a disk, and offers the steps of the board. Its record is added by `journal_file`,
//! whose crash clauses it hands on: a crash at any moment leaves a file with the records from before, or these and the new one.
//! What `journal_replay` makes of the records is the board all along, so whoever reads such a file has what was acknowledged. A snapshot
//! of the board is due after `every` finished subproblems, a number that `Kept::new` takes. A reader begins at the last snapshot instead of the
//! start of the search. The journal of a part of a search takes snapshots too. `snapshot_of` gives the snapshot of a board that is in no journal.
//! Under a turn of `turn`, a move is one step with its record, a snapshot, a record that the disk refused, or nothing. Without a journal,
//! `Kept` writes nothing and does what its board does.
//!
//! ```
//! let mut kept = Kept::new(board, disk, Some(tail), 1024);
//! kept.improve(alloc, &decisions)?;
//! if kept.snapshot_due() {
//!     kept.snapshot(alloc)?;
//! }
//! let (board, disk) = kept.into_parts();
//! ```
#![tactic(auto)]

mod children;
mod error;
mod finishing;
mod kept;
mod laws;
mod limits;
mod recording;
mod snapshots;
mod tag;
mod turned;

pub use error::KeptError;
pub use kept::Kept;
pub use laws::{fronts_are_added, histories_leave};
pub use limits::MOST_LISTED;
pub use snapshots::snapshot_of;
pub use tag::KeptTag;
