//! The children that a relaxed diagram leaves of its prefix.
//!
//! It stands on `dp_model`, `dp_laws`, `layer_build` and `relaxed_dd`. `children` fills a list of exact nodes, those of the last
//! exact layer or those of the frontier, each with a bound on all completions that begin with its path, and of the first exact node
//! of the last layer, which is a solution. They are those that `dp_laws` defines on the diagram's layers, whose laws say that no
//! completion that counts is lost. It takes no memory; the list is prepared once. `subs` gives the children as subproblems of their
//! own. `cut_children` gives the same for the last exact layer where the rows of that layer alone were kept.
//!
//! ```
//! let mut list = Children::prepare(alloc, &model, width, CutKind::LastExactLayer)?;
//! let diagram = relaxed(&mut space, &model, &sub, None);
//! children(&model, &diagram, CutKind::LastExactLayer, &mut list);
//! ```
#![tactic(auto)]

mod appending;
mod bounding;
mod child;
mod filled;
mod finding;
mod frontier;
mod listed;
mod making;
mod preparing;
mod rows;
mod taking;

pub use filled::Children;
pub use taking::{children, cut_children};
