//! The layers of a diagram in memory, and the steps by which a diagram is compiled.
//!
//! It stands on `dp_model`, `dp_laws`, `row_region`, `layer_candidates` and `layer_nodes`, whose steps it makes one after
//! another. `Workspace::begin` starts from a prefix. `expand_layer` makes the next layer, and `strike` takes the struck and the
//! dominated nodes out of it; `expand_pruned` does both in one call, and is faster. `keep_first` and `merge_rest` reduce a layer
//! to the width; `expand_within` does what `expand_pruned` and `merge_rest` do, and is faster where no node is exact and the
//! problem merges in any order. The readers show the layers, with the paths of exact nodes. Each of these steps is proved to be
//! the one that `dp_laws` defines on plain lists of nodes. `set_suffixes` sets the suffixes of one layer of a whole diagram.
//! `beam` is the shorter way to the beam of a restricted diagram, by `layer_candidates`.
//!
//! The rows of all layers stand in one `row_region`: `expand_layer` takes those of the new last layer, and the steps that take
//! nodes out of it give theirs back. `drop_above` gives back those of the layers above the last one, and `begin` all of them;
//! `beam` gives back what it takes. Only `prepare` takes memory, and the region gets its size there. `greatest_width` is the
//! greatest width that `MOST_WIDTH` and `MOST_COST` allow.
//!
//! ```
//! let mut space = Workspace::prepare(alloc, &model, 100)?;
//! space.begin(&model, &sub);
//! space.expand_layer(&model);
//! ```
#![tactic(auto)]

mod ending;
mod preparing;
mod readers;
mod stack;
mod walking;
mod width;
mod workspace;

pub use width::greatest_width;
pub use workspace::{PrepareError, Workspace};
