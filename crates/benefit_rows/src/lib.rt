//! Rows of signed benefits, as problems of yes-or-no choices keep them: for each open choice, how much
//! more it gains by yes than by no. Two such rows are merged component by component, a gap says how
//! much more the same choices may gain from one row than from another, and a rank sums the sizes.
//!
//! The crate stands on the standard library alone. Each call is one pass over its rows, takes no memory
//! and gives exactly what its definition says. `BenefitLaws` has what follows for the problems above:
//! a row has no gap to itself, gaps add up along a chain, and a gap bounds what any choices gain more.
//!
//! ```
//! let far = gap(&[3, -1], &[1, 2]); // 2
//! ```
#![tactic(auto)]

mod row;

pub use row::{
    above_zero, below_zero, doubled_gap, gap, gap_within, merge_into, rank, size, write_sums,
    write_zeros,
};
