//! What can be asked of rows.

ghost use Rattle.std.specs.Prelude.{◌≡◌, ℕ, ◌+◌, ◌*◌, ◌<◌, ◌≤◌, pos, false, length, is_some, IsTrue, IfSome};
ghost use Rattle.node_sets.specs.Sets as sets;
ghost use Rattle.node_sets.specs.Sums.{count_below};
ghost use Rattle.pending_rows.specs.Pending as pending;
ghost use Rattle.pending_rows.specs.Pending.{shown, is_open, without, is_pending_row};

use crate::parts::parts_of;
use node_sets::{
    contains, count, is_disjoint, is_set, is_subset, is_union_subset, next_of_either, words_for,
};

/// The greatest time of a row.
const LATEST: i64 = 1_000_000_000_000;

/// Whether each way on from the one state is one from the other, and no later.
#[inline]
pub fn covers(n: usize, a: &[i64], s: &[i64]) -> bool
    requires few { n ≤ 1024 }
    requires covering { IsTrue (is_pending_row n a.now) }
    requires state { IsTrue (is_pending_row n s.now) }
    ensures { result ≡ pending.covers n (shown (sets.words_for n) a.now) (shown (sets.words_for n) s.now) }
{
    let wide = parts_of(n, a);
    let part = parts_of(n, s);
    if wide.time > part.time {
        return false;
    }
    let must_within = is_subset(wide.must, part.must);
    if !must_within {
        return false;
    }
    is_union_subset(part.must, part.may, wide.must, wide.may)
}

/// Whether a row of the right length is a state: two sets that are apart, and a time.
pub fn is_row(n: usize, s: &[i64]) -> bool
    requires few { n ≤ 1024 }
    requires cells { length s.now ≡ 2 * sets.words_for n + 1 }
    ensures { result ≡ is_pending_row n s.now }
{
    let words = words_for(n);
    let must = &s[..words];
    let may = &s[words..2 * words];
    let must_set = is_set(must, n);
    if !must_set {
        return false;
    }
    let may_set = is_set(may, n);
    if !may_set {
        return false;
    }
    let apart = is_disjoint(must, may);
    if !apart {
        return false;
    }
    let time = s[2 * words];
    time >= 0 && time <= LATEST
}

/// The first number from one on that must or may be done, or `n` where there is none.
#[inline]
pub fn next_open(n: usize, s: &[i64], from: usize) -> usize
    requires few { n ≤ 1024 }
    requires state { IsTrue (is_pending_row n s.now) }
    requires from { from ≤ n }
    ensures on { from ≤ result }
    ensures within { result ≤ n }
    ensures skipped { (v : ℕ) → from ≤ v → v < result → is_open (shown (sets.words_for n) s.now) v ≡ false }
{
    let state = parts_of(n, s);
    match next_of_either(state.must, state.may, from) {
        Some(number) => number,
        None => n,
    }
}

/// How many numbers must be done.
#[inline]
pub fn left(n: usize, s: &[i64]) -> i64
    requires few { n ≤ 1024 }
    requires state { IsTrue (is_pending_row n s.now) }
    ensures { result ≡ pos (count_below n (shown (sets.words_for n) s.now).must) }
{
    count(parts_of(n, s).must) as i64
}

/// How many numbers must be done once one is done, or none where that one neither must nor may be done. The rank is the number of
/// those that must be done before.
#[inline(always)]
pub fn left_after(n: usize, s: &[i64], rank: i64, number: usize) -> Option<i64>
    requires few { n ≤ 1024 }
    requires state { IsTrue (is_pending_row n s.now) }
    requires rank { rank ≡ pos (count_below n (shown (sets.words_for n) s.now).must) }
    requires inside { number < n }
    ensures open { is_some result ≡ is_open (shown (sets.words_for n) s.now) number }
    ensures left { IfSome result (λ left. left ≡ pos (count_below n (without (shown (sets.words_for n) s.now).must number))) }
{
    let state = parts_of(n, s);
    if contains(state.must, number) {
        return Some(rank - 1);
    }
    if contains(state.may, number) {
        return Some(rank);
    }
    None
}
