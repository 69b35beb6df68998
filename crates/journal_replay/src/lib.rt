//! What the records of a journal make of a search, and the board that goes on from there.
//!
//! It stands on the laws of `board_laws`, on the board of `board` and on the records of `journal_bytes` and
//! `journal_file`. `replay` begins with the base, which is the last snapshot among the records, or the start of the search where there
//! is none. It follows the records from there and restores the board that they lead to, or reports the first record from the base on
//! that is not valid at its place. Each function that has no parameters is a law: its body is
//! empty, and its contract is what is proved. A board that a search began with or that was restored stands beside its records:
//! whatever is out or open is listed. Each step that is allowed keeps it so, with the one record that tells of the step; on a
//! good board the records stay sound, and sound records are restored to a good board.
//!
//! A search may begin with a part of a board's snapshot. It is one from the prefixes that the part lists, and where the board is good, the
//! part is sound from them.
//!
//! ```
//! let board = replay(alloc, &records, model, settings)?;
//! ```
#![tactic(auto)]

mod children;
mod following;
mod laws;
mod offsets;
mod replaying;
mod restarting;
mod state;
mod verdict;
mod walking;

pub use laws::{
    accepted_records_restore, first_boards_follow, journals_grow, parts_are_recorded,
    records_do_not_worsen, records_join, restored_boards_follow, snapshots_are_recorded,
    sound_records_restore_good, steps_are_recorded,
};
pub use replaying::replay;
