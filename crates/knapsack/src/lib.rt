//! The bounded knapsack as a problem of the solver: a capacity, and items with a profit, a weight and a number of copies.
//! A solution takes a number of copies of each item, with a total weight of at most the capacity. Its value is the total
//! profit.
//!
//! `Knapsack` is a `DpModel`: layer `k` decides the copies of item `k`, and a state is the capacity that is left. It is a
//! `Problem`: `read` and `print` convert between an instance and its text, and `value_of` judges a solution in the problem's
//! own words. The crate stands on `dp_model` and `problem_theory` for the interfaces, on `tokens` for tokens and their
//! places, and on `draws` for drawn instances.
//!
//! Each call's contract has its promise. `read` answers the instance that the text spells, or the first fault of the text with
//! its place. `print` gives the canonical text, and `read` gives the same instance for it. `value_of` is not `None` exactly for
//! the feasible solutions of the dynamic program, and has their value. The dynamic program meets the laws, and its gaps add up along chains.
//! `rough` is the greedy fill: whole copies in order of profit per weight, and a part of the first item that does not fit,
//! rounded down. `read`, `print` and `generate` may fail for want of memory at any time.
//!
//! ```
//! let model = Knapsack::read(alloc, b"3 10\n60 5\n50 4\n70 6\n")?;
//! let value = Knapsack::value_of(&model, &[0, 1, 1]); // Some(120)
//! ```
#![tactic(auto)]

mod filling;
mod generating;
mod instance;
mod item;
mod model;
mod ordering;
mod placed;
mod printing;
mod problem;
mod reading;
mod running;
mod value;

pub use instance::Knapsack;
pub use reading::read;
