//! Maximum cut: the vertices of a graph are put on two sides, S and T, so that the edges across weigh as
//! much as can be. Vertex 0 is on S.
//!
//! `MaxCut` is such an instance, and `PairModel<MaxCut>` is its dynamic program, which meets the laws: layer
//! `k` puts vertex `k` on a side, and a state has the net benefit of T for each later vertex, as `pair_rows`
//! keeps it. The `read` and `print` of the model convert between an instance and its text, and its `value_of`
//! weighs a cut in the problem's own words. The crate stands on `pair_rows`, `pair_problem` and `benefit_rows`,
//! on `dp_model` and `problem_theory` for the interfaces, on `tokens` for texts, and on `draws` for drawn
//! instances.
//!
//! Promised, each in the contract of its call: the instance that a text spells, or its first fault with
//! its place; the canonical text, which reads as the instance; the weight across, or none exactly where
//! the sides are no cut; and that the feasible solutions of the program are the cuts, with their values.
//! A call that takes memory may fail for want of it at any time.
//!
//! ```
//! let model = PairModel::<MaxCut>::read(alloc, b"3 2\n1 2 5\n2 3 -4\n")?;
//! let value = PairModel::value_of(&model, &[0, 1, 1]); // Some(5)
//! ```
#![tactic(auto)]

mod edges;
mod generating;
mod instance;
mod lines;
mod listing;
mod printing;
mod problem;
mod reading;
mod sides;
mod value;

pub use instance::MaxCut;
