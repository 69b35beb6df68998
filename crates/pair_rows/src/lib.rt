//! Variables of two values, where each variable and each two of them give something: a dynamic program over rows of signed benefits.
//!
//! `PairInstance` lists what is given, and `PairRows` prepares it for the calls of `DpModel`: layer `k` gives variable `k` its value,
//! and a state has for each later variable how much more it gives by 1 than by 0. A decision adds a prepared row to the state. Its gain
//! comes from sums of sizes alone. `pair_problem` makes a `DpModel` of a problem and its rows. The crate stands on `dp_model` and
//! `benefit_rows`.
//!
//! Promised, each in the contract of its call: a call gives exactly what the program of the instance says. This program meets the laws
//! (`lawful_program` in `specs/Laws/Sizes.antt`), its gaps add up along chains (`is_chained` in `specs/Laws/Gaps.antt`), and its
//! feasible solutions are the assignments (`own_value-agrees` in `specs/Laws/Solutions.antt`), each with what all entries give as its
//! value. A call that takes memory may fail for want of it at any time.
//!
//! ```
//! let rows = PairRows::prepared(alloc, &instance)?;
//! let gain = rows.gain(0, state, 1);
//! ```
#![tactic(auto)]

mod hashes;
mod limits;
mod model;
mod row;
mod rows;
mod shifts;
mod source;
mod sums;
mod values;

pub use rows::{PairRows, row_of, start_of_row};
pub use source::PairInstance;
pub use values::{PairValues, UnitValues};
