//! Relaxed diagrams: where a layer is too wide, its last nodes are merged into one. Each completion of the prefix that is above
//! the threshold has a path in the diagram that is no shorter.
//!
//! It stands on `dp_model`, `dp_laws`, `layer_nodes`, `layer_build`, in whose workspace the layers are made, and `wide_layers`. The
//! diagram is the one that the rules of `dp_laws` define on plain lists of nodes. `relaxed` compiles a diagram and shows it;
//! `compile` and `shown` do the two apart. `relaxed_with` and `compile_with` give the same diagrams and expand each layer by an
//! `Expander` of `wide_layers`. No call fails for want of memory but `CutRows::prepare`; of the others only an `Expander` in
//! several parts takes some.
//!
//! The lean form, `compile_lean`, makes the same diagram in less memory: once a layer is built, the rows of the layers above it are
//! given back. So the rows of few layers are held at a time. Those of the last exact layer, the one above the first that was reduced,
//! are copied into a `CutRows` before. All else of the diagram is read from the workspace as ever.
//!
//! ```
//! let diagram = relaxed(&mut space, &model, &sub, None);
//! // No completion of the prefix has a greater value than `bound`; without a suffix there is no completion.
//! if let Some(suffix) = diagram.suffix(diagram.first_depth(), 0) {
//!     let bound = sub.value + suffix;
//! }
//! ```
#![tactic(auto)]

mod building;
mod compiling;
mod cut;
mod diagram;
mod lean;
mod suffixes;
mod widely;

pub use compiling::{compile, relaxed, shown};
pub use cut::{CutRows, widest_layer};
pub use diagram::Diagram;
pub use lean::compile_lean;
pub use widely::{compile_with, relaxed_with};
