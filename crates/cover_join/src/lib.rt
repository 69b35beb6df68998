//! The cover of a whole problem, made of covers of its parts.
//!
//! It stands on `bound_cover` and `parts`, and on `cover_text` and `problem_names` for the texts that hold the covers. `join` makes one text of one
//! text for each part, or answers the first fault: a text that does not stand in order, one of another instance, or one that the check refuses. The
//! check on the whole problem accepts what it makes.
//!
//! `specs/Joined.antt` defines the joined cover. The root has, in order of decisions, the arcs of the parts' root rows. Each further layer
//! has the rows of all parts, one part after another, with their targets shifted. Where the root row of some part is a rough row, the root of the
//! whole is a rough row too, and no further row is needed. `specs/Joining.antt` defines the faults.
//!
//! The functions without parameters are laws: where the check on each part accepts its cover, the check on the whole problem accepts the joined
//! one. So the greatest of the parts' values is the greatest value of the whole, and its assignment is a feasible solution of that value.
//!
//! ```
//! let whole = join(alloc, &model, texts.as_slice())?;
//! ```
#![tactic(auto)]

mod adding;
mod arcs;
mod checking;
mod finding;
mod join_error;
mod joining;
mod places;
mod theory;

pub use join_error::JoinError;
pub use joining::join;
pub use theory::{joined_covers_are_accepted, joined_values_are_best};
