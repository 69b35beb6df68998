//! Layers of a relaxed diagram in flat memory, and the steps by which one is made from the layer above it.
//!
//! A layer has its nodes in order and their arcs in one vector; a node names the places of its row and of its first arc. An arc is
//! written once, with the place of the way that it was made for; a second vector has for each way the route of its arcs, the place
//! to which they lead now and by how much they are lengthened. The rows of all layers stand in a region that the caller owns.
//! `Layer::keep` copies the newest layer to one above it, whose nodes have the same rows; each step that takes nodes out gives
//! their rows back.
//!
//! `expand` gives the nodes of a layer an arc for each allowed decision and makes the next layer in the reduction order, with or
//! without the nodes that are struck; `strike` takes nodes out of it, and where the struck ones were left out `drop_dominated` is
//! enough; `keep_first` and `merge_rest` reduce it to a width. `expand_merged` does the steps of `expand` and `merge_rest` at once
//! where none of the new nodes is exact and the problem merges in any order: only the first nodes are then put in order. In each
//! step the routes of the layer above are redirected, and no arc is written again.
//!
//! `set_last_suffixes` and, from layer to layer up, `set_suffixes` tell how far it is from each node to the last layer.
//!
//! It stands on `dp_model`, `dp_laws`, `layer_candidates` and `row_region`. Each step is proved to be the one that is defined in
//! `dp_laws` on plain lists of nodes. Only the `prepare` calls take memory.
//!
//! ```
//! let mut next = Layer::prepare(alloc, words, nodes, arcs, &region)?;
//! expand(&model, depth, Strikes::Nothing, &mut region, &mut above, &mut next, &mut expansion);
//! ```
#![tactic(auto)]

mod ending;
mod expanding;
mod extending;
mod keeping;
mod layer;
mod leading;
mod merging;
mod node;
mod numbering;
mod packed;
mod redirecting;
mod reducing;
mod routing;
mod striking;

pub use ending::{set_last_suffixes, set_suffixes};
pub use expanding::{Expansion, expand, expand_merged};
pub use keeping::keep_first;
pub use layer::Layer;
pub use merging::merge_rest;
pub use redirecting::Redirects;
pub use striking::{Strikes, drop_dominated, strike};
