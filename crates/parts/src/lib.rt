//! A part of a problem: the solutions whose first decision has one remainder.
//!
//! It stands on `dp_model`, and on a lemma about rows of `dp_laws`. `Part` is the problem with fewer decisions at the first layer, so the
//! parts can be searched one by one, on several machines. It is a problem of its own: it meets the six laws and the chain, and each call
//! is as fast as the problem's. Every feasible solution with a first decision is one of exactly one part; a problem without variables has its
//! one solution in every part.
//!
//! ```
//! // Of four parts the one whose first decisions are 1, 5, 9 and so on.
//! let part = Part::new(alloc, Arc::new(alloc, model)?, 1, 4)?;
//! ```
#![tactic(auto)]

mod model;
mod part;

pub use part::Part;
