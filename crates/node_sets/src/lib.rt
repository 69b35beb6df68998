//! Sets of small numbers, kept in the cells of a row.
//!
//! A set of numbers below `n` takes `words_for(n)` cells of a row of `i64`. Each cell holds a word of 32 bits, from 0 to
//! 2^32 - 1, and the number `v` is bit `v % 32` of word `v / 32`. A contract speaks of a row by its members, `has row v`.
//! Every call works on slices, a word at a time, and takes no memory. The crate stands on std alone.
//!
//! ```
//! let mut row = [0; 2];
//! insert(&mut row, 33);
//! let there = contains(&row, 33); // true
//! ```
#![tactic(auto)]

mod combine;
mod iter;
mod member;
mod pairing;
mod test;
mod word;
mod write;

pub use combine::{join, union_with};
pub use iter::{Members, first_word};
pub use member::{clear, contains, insert, remove};
pub use test::{
    count, is_disjoint, is_empty, is_set, is_subset, is_union_subset, least, next_of_either,
    words_for,
};
pub use write::{write_below, write_one, write_others, write_split};
