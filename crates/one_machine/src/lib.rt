//! One machine with weighted tardiness, as a dynamic program.
//!
//! A machine takes jobs one after another, from time 0 and without a break. A job's tardiness is the time from when it is
//! due to its completion, and each unit of it costs the job's weight. The value of an order of all jobs is the negated
//! cost. `OneMachine` is a `DpModel` and a `Problem`: its `read` and `print` turn texts into problems and back, and its
//! `value_of` gives the value of a list of jobs in the problem's own words.
//!
//! The crate stands on `dp_model` and `problem_theory` for the interfaces, on `tokens` for texts, on `draws` for drawn
//! instances, and on `pending_rows` and `node_sets` for the jobs in a state.
//!
//! Promised: the program meets the laws of `dp_model`, `value_of` gives a value exactly for the feasible solutions of the
//! program, and the same one, and a printed problem is read as it was.
//!
//! ```
//! let model = OneMachine::read(alloc, b"2\n3 2 3\n2 1 2\n")?;
//! let value = OneMachine::value_of(&model, &[0, 1]); // Some(-3): the tardiness of job 1 is 3
//! ```
#![tactic(auto)]

mod generating;
mod instance;
mod job;
mod machine;
mod model;
mod printing;
mod problem;
mod reading;
mod value;

pub use instance::OneMachine;
