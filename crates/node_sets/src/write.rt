//! Sets that are written whole.

ghost use Rattle.std.specs.Prelude.{◌≡◌, ℕ, ◌+◌, ◌*◌, ◌<◌, ◌≤◌, ◌&&◌, not, nat_eq, nat_lt, length};
ghost use Rattle.std.specs.Int.{bit_at};
ghost use Rattle.node_sets.specs.Sets.{AreWords, has, row_of};

use crate::member::{clear, insert};
use crate::word::{put, word};

/// Writes the set of one number. What the cells held before does not matter.
pub fn write_one(row: &mut [i64], v: usize)
    requires { v < 32 * length row.old }
    ensures { row.new ≡ row_of (length row.old) (λ u. nat_eq u v) }
{
    clear(row);
    insert(row, v);
}

/// Writes the set of all numbers below `n`. What the cells held before does not matter.
pub fn write_below(row: &mut [i64], n: usize)
    requires { n ≤ 32 * length row.old }
    ensures { row.new ≡ row_of (length row.old) (λ u. nat_lt u n) }
{
    clear(row);
    'numbers: for v in 0..n {
        insert(row, v);
    }
}

/// Writes the set of all numbers below `n` but 0. What the cells held before does not matter.
pub fn write_others(row: &mut [i64], n: usize)
    requires within { n ≤ 32 * length row.old }
    requires some { 1 ≤ n }
    ensures { row.new ≡ row_of (length row.old) (λ u. nat_lt u n && not (nat_eq u 0)) }
{
    clear(row);
    'numbers: for v in 1..n {
        insert(row, v);
    }
}

// The word at an index of the set of one number.
#[inline]
fn word_of_one(v: usize, i: usize) -> u32
    ensures { (j : ℕ) → j < 32 → nat_eq (bit_at result j) 1 ≡ nat_eq (32 * i + j) v }
{
    if i == v / 32 { 1u32 << (v % 32) } else { 0 }
}

/// Writes the set of one number, and two sets without it. What the cells held before does not matter.
#[inline]
pub fn write_split(
    one: &mut [i64],
    must: &mut [i64],
    may: &mut [i64],
    from_must: &[i64],
    from_may: &[i64],
    v: usize,
)
    requires must_cells { AreWords from_must.now }
    requires may_cells { AreWords from_may.now }
    requires must_same { length one.old ≡ length must.old }
    requires may_same { length one.old ≡ length may.old }
    requires from_must_same { length one.old ≡ length from_must.now }
    requires from_may_same { length one.old ≡ length from_may.now }
    ensures one { one.new ≡ row_of (length one.old) (λ u. nat_eq u v) }
    ensures must { must.new ≡ row_of (length must.old) (λ u. has from_must.now u && not (nat_eq u v)) }
    ensures may { may.new ≡ row_of (length may.old) (λ u. has from_may.now u && not (nat_eq u v)) }
{
    'words: for i in 0..one.len() {
        let bit = word_of_one(v, i);
        put(one, i, bit);
        put(must, i, word(from_must, i) & !bit);
        put(may, i, word(from_may, i) & !bit);
    }
}
