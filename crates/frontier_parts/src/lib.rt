//! A search that is dealt out by prefixes, and how what is known of its parts is joined.
//!
//! It stands on `dp_model`, on lemmas of `dp_laws`, on `bound_cover` for covers, and on `board_laws` for searches. `is_dealt` says whether
//! a prefix goes to a part: prefixes are dealt out in turn, by their bounds. `join_values` gives the greatest of an incumbent and of the
//! values of the parts. Both work on values alone.
//!
//! The functions without parameters are laws. Where an incumbent and prefixes cover all solutions and each prefix is settled, the joined
//! value is the best one, and within a distance no solution is further above it (`parts_join`); so are the parts of the frontier of a
//! board (`frontiers_join`); a search from start prefixes settles them (`runs_settle`, `boards_settle`), and no solution
//! that begins with one of them exceeds the bound of its board (`boards_bound`); a value settles them where no solution that begins with one
//! exceeds it (`values_settle`); whichever prefixes give way to longer
//! ones, each solution begins with one that is left (`dealt_parts_are_all`); each place is dealt to one part (`dealt_to_one`); and above
//! covers of all branches of a prefix stands a cover of the prefix, up to one that the checker's tests on rows accept (`covers_join`).
//!
//! `specs/Settled.antt` says what a settled prefix is, `specs/Searches.antt` what searches tell of it, `specs/Dealing.antt`
//! to which part a prefix is dealt, and `specs/CoversBelow.antt` what a cover below a prefix is.
//!
//! ```
//! // The prefix with the greatest bound goes to the first of two parts. The greatest value is 12, at place 0.
//! let first = is_dealt(&[20, 5, 12], 2, 0, 0);
//! let joined = join_values(Some(7), &[Some(12), None]);
//! ```
#![tactic(auto)]

mod covers;
mod dealing;
mod joining;
mod searches;
mod settled;
mod splitting;

pub use covers::covers_join;
pub use dealing::{dealt_to_one, is_dealt};
pub use joining::{JoinedValue, join_values};
pub use searches::{boards_bound, boards_settle, frontiers_join, values_settle};
pub use settled::{parts_join, runs_settle};
pub use splitting::dealt_parts_are_all;
