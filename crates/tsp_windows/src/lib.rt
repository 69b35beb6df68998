//! The travelling salesman with time windows, as a dynamic program.
//!
//! A tour leaves node 0 at its opening, visits each other node once and returns to node 0. An arrival after the closing of
//! a node is too late, and an early one waits for the opening. The value of a tour is the negated time of its return; no
//! triangle inequality is asked of the distances. `TspWindows` is a `DpModel` and a `Problem`: its `read` and `print` turn
//! texts into problems and back, and its `value_of` gives the value of a list of visits in the problem's own words.
//!
//! The crate stands on `dp_model` and `problem_theory` for the interfaces, on `tokens` for texts, on `draws` for drawn
//! instances, on `pending_rows` for what a tour must and may still visit, and on `node_sets` for the nodes where it may
//! stand.
//!
//! Promised: the program meets the laws of `dp_model`, `value_of` gives a value exactly for the feasible solutions of the
//! program, and the same one, and a printed problem is read as it was.
//!
//! ```
//! let model = TspWindows::read(alloc, b"2\n0 5\n5 0\n0 100\n0 100\n")?;
//! let text = TspWindows::print(alloc, &model)?;
//! ```
#![tactic(auto)]

mod generating;
mod instance;
mod model;
mod parts;
mod printing;
mod problem;
mod reading;
mod value;
mod ways;
mod window;

pub use instance::TspWindows;
pub use reading::read;
