//! The parts of a search that is dealt out by its frontier, as the records with which they begin.
//!
//! It stands on `board_laws`, on the records of `journal_bytes`, on the laws of `journal_replay`, and on `frontier_parts` for how
//! prefixes are dealt out and joined. `part_of` gives the part with a number of a snapshot: the incumbent, the next ticket, and those
//! subproblems that are dealt to the part by their bounds, in turn, the greatest first. The same snapshot gives the same parts, so each
//! can be made by itself. A search that begins with such a record goes on from the prefixes that it lists.
//!
//! The functions without parameters are laws. The parts of a snapshot list each of its subproblems once (`parts_are_all`). On a good board
//! the record of a part is sound from its prefixes (`parts_are_sound`), and a search that goes on from there settles it
//! (`parts_settle`). Where each part is settled with a value, the greatest of the incumbent and of these values is the best one, or no
//! solution is further above it than the distance of the search (`parts_join`). A part can be dealt out again: then the value settles the prefixes
//! with which that part began (`parts_join_from`).
//!
//! ```
//! // The second of four parts.
//! let part = part_of(alloc, snapshot, 4, 1)?;
//! ```
#![tactic(auto)]

mod dealing;
mod laws;
#[cfg(test)]
mod tests;

pub use dealing::part_of;
pub use laws::{parts_are_all, parts_are_sound, parts_join, parts_join_from, parts_settle};
