//! Candidates of a layer that are made ahead, in pieces, by several threads; and layers that are expanded from them.
//!
//! A `Piece` has the candidates of some nodes of a workspace's last layer: of each node those by the allowed decisions. The model
//! `Recalled` stands on another model and has pieces. Where a decision from a state is among their candidates, it copies that one;
//! otherwise it asks the other model. So the calls of `layer_build` expand a layer from pieces, by a model with the same meaning:
//! whatever the pieces have, the layer is the one that `expand_pruned` or `expand_within` of a `Workspace` makes. `Expander` expands
//! layers by one thread, or in several pieces, each by a thread of its own where one can be made.
//!
//! It stands on `dp_model`, `dp_laws`, `layer_candidates` and `layer_build`. Pieces keep their memory and are used again; where
//! there is none for a candidate, the model is asked for it, so no expansion fails.
//!
//! ```
//! let mut expander = Expander::in_parts(rt, alloc, 4);
//! expander.expand_pruned(&mut space, &model, None);
//! ```
#![tactic(auto)]

mod expander;
mod hand;
mod making;
mod piece;
mod recalled;

pub use expander::Expander;
pub use making::candidates;
pub use piece::Piece;
