//! Restricted diagrams: of each layer only the first members stay, and the beam is the best solution that is left.
//!
//! It stands on `dp_model`, `dp_laws` and `layer_build`, in whose workspace `layer_candidates` makes the layers. The beam is the one
//! that is defined on plain lists of prefixes. No call takes memory.
//!
//! ```
//! let found = restricted(&mut space, &model, &sub, None);
//! ```
#![tactic(auto)]

mod compiling;

pub use compiling::{Compiled, compile, restricted};
