//! Branch and bound search by decision diagrams: rounds on a board that one owns, and workers under a turn.
//!
//! In a round, a subproblem is taken and its restricted diagram is compiled with the reach as threshold, which is the incumbent's
//! value and the distance of the settings; the beam is offered as a solution. Where the width took nothing from that diagram, no
//! completion is better than the threshold and the beam, so the subproblem is finished without children. Otherwise its relaxed
//! diagram is compiled with the reach as it is then; the solution that it finds is offered, and its children are those of the kind
//! that the desk was prepared for.
//!
//! Three fields of a desk concern `work` alone; `explore` ignores them. If the desk has a book, `work` puts the relaxed diagram into it once
//! the subproblem is finished, and compiles that diagram for every subproblem. If it has none and its children are those of the last exact
//! layer, `work` lets go of the rows of each layer once the next one is made, and reads those of the last exact layer from `cut`; the
//! children do not depend on it. `parts` says in how many parts `work` makes the layers of relaxed diagrams; the diagrams do not depend on
//! it.
//!
//! The crate stands on `kept_board` for the board, on `turn` for sharing it, on `layer_build`, `restricted_dd`, `relaxed_dd`, `wide_layers` and
//! `exact_cutset` for diagrams and their children, and on `cover_pages` for books.
//!
//! The crate has two parts, and a `Desk` is what a round needs in either:
//!
//! - `rounds`, on a board that one owns, for worker 0: `explore` does rounds until the search ends.
//! - `workers`, under a turn, each with a seat and a desk of its own: `work` is a worker's rounds, `fan_out` the workers side by
//!   side, and `explore_together` a whole search, which ends with `explore` on the closed board.
//!
//! ```
//! let mut desk = Desk::prepare(alloc, &model, 100, CutKind::LastExactLayer, None, 1)?;
//! explore(alloc, &mut kept, &mut desk, &model);
//! let bound = kept.board().bound();
//! ```
#![tactic(auto)]

mod branched;
mod collecting;
mod desk;
mod parts;
mod rounds;
mod workers;

pub use branched::Branched;
pub use desk::Desk;
pub use parts::Parts;
pub use rounds::explore;
pub use workers::{
    Asked, Gate, NoGate, Step, Stopped, close, explore_together, fan_out, finish_one, give_up,
    improve_one, open, side_by_side, snapshot_one, take_one, work,
};
