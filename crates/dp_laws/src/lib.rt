//! What follows from the laws of a dynamic program, on plain data: gaps and restricted layers, the rules by which the layers
//! of a diagram are built, and relaxed diagrams with the children that they leave.
//!
//! It stands on `dp_model`. Each function here is a law: its body is empty, and its contract is what is proved. A restricted
//! diagram that is built by the rules has the layers that are defined on plain lists of prefixes, and a relaxed one is a
//! diagram as its readers show it. That bounds every completion of its prefix, so its children lose none that counts.
//!
//! ```
//! // A law: the call does nothing, and its contract is a theorem.
//! suffixes_bound();
//! ```
#![tactic(auto)]

mod arc;
mod children;
mod compiling;
mod counts;
mod covers;
mod expansions;
mod floors;
mod gaps;
mod layers;
mod numbers;

pub use arc::DdArc;
pub use children::{
    children_are_sound, children_fit, children_have_places, children_stand_deep, found_is_greatest,
    frontier_is_outer, sound_children_follow, suffixes_bound, without_reduction_the_beam_is_found,
};
pub use compiling::{
    exact_nodes_are_unstruck, exact_nodes_stem_from_exact_ones, layers_fit,
    relaxed_children_are_sound, relaxed_children_stand, relaxed_diagrams_are_as_seen,
    restricted_diagrams_find_the_beam, restricted_layers_are_beams, widths_fit,
};
pub use counts::{pots_are_below, pots_are_positive};
pub use covers::{last_exact_layers_cover, whole_beams_are_best, whole_layers_cover};
pub use expansions::{
    expansions_are_unique, order_is_unique, reduction_order_is_total, sorting_expands,
};
pub use floors::floors_match;
pub use gaps::{
    chains_match, completions_are_matched, continuations_are_matched, gaps_add_up,
    same_states_match,
};
pub use layers::{
    beams_are_feasible, beams_are_greatest, layers_differ, layers_have_prefixes,
    layers_stand_in_order, members_are_unstruck,
};
pub use numbers::{numbers_stay_small, suffixes_stay_small};
