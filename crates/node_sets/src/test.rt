//! What can be asked of sets.

ghost use Rattle.std.specs.Prelude.{◌≡◌, ℕ, ◌+◌, ◌*◌, ◌/◌, ◌^◌, ◌<◌, ◌≤◌, ◌↔◌, ◌&&◌, ◌||◌, not, true, false, length, IsTrue, IfSome, IfNone};
ghost use Rattle.node_sets.specs.Pairs.{made};
ghost use Rattle.node_sets.specs.Sums.{count_below};
ghost use Rattle.node_sets.specs.Sets as sets;
ghost use Rattle.node_sets.specs.Sets.{AreWords, IsLeastFrom, has};

use crate::iter::Members;
use crate::pairing::Pairing;
use crate::word::word;

/// How many cells hold the numbers below `n`.
pub fn words_for(n: usize) -> usize
    requires { n < 2 ^ 32 }
    ensures { result ≡ sets.words_for n }
{
    (n + 31) / 32
}

/// Whether the row has one cell for each 32 numbers below `n`, each a word, and no member at or above `n`.
pub fn is_set(row: &[i64], n: usize) -> bool
    requires { n < 2 ^ 32 }
    ensures { result ≡ sets.is_set n row.now }
{
    if row.len() != words_for(n) {
        return false;
    }
    if !are_words(row) {
        return false;
    }
    is_below(row, n)
}

fn are_words(row: &[i64]) -> bool
    ensures { result ≡ sets.are_words row.now }
{
    for cell in row {
        if *cell < 0 || *cell >= 1 << 32 {
            return false;
        }
    }
    true
}

// Only the last word can have a bit at or above `n`.
fn is_below(row: &[i64], n: usize) -> bool
    requires cells { AreWords row.now }
    requires words { length row.now ≡ sets.words_for n }
    ensures { IsTrue result ↔ ((v : ℕ) → n ≤ v → has row.now v ≡ false) }
{
    if n % 32 == 0 {
        return true;
    }
    word(row, n / 32) >> (n % 32) == 0
}

/// Whether there is no member.
pub fn is_empty(row: &[i64]) -> bool
    requires { AreWords row.now }
    ensures { IsTrue result ↔ ((v : ℕ) → has row.now v ≡ false) }
{
    for i in 0..row.len() {
        if word(row, i) != 0 {
            return false;
        }
    }
    true
}

/// Whether each member of `part` is a member of `whole`.
pub fn is_subset(part: &[i64], whole: &[i64]) -> bool
    requires part_cells { AreWords part.now }
    requires whole_cells { AreWords whole.now }
    requires same { length part.now ≡ length whole.now }
    ensures { IsTrue result ↔ ((v : ℕ) → has part.now v ≡ true → has whole.now v ≡ true) }
{
    is_none(part, whole, Pairing::Difference)
}

/// Whether no number is a member of both.
pub fn is_disjoint(left: &[i64], right: &[i64]) -> bool
    requires left_cells { AreWords left.now }
    requires right_cells { AreWords right.now }
    requires same { length left.now ≡ length right.now }
    ensures { IsTrue result ↔ ((v : ℕ) → has left.now v ≡ true → has right.now v ≡ false) }
{
    is_none(left, right, Pairing::Intersection)
}

// Whether no number is in what is made of both.
#[inline]
fn is_none(left: &[i64], right: &[i64], how: Pairing) -> bool
    requires left_cells { AreWords left.now }
    requires right_cells { AreWords right.now }
    requires same { length left.now ≡ length right.now }
    ensures { IsTrue result ↔ ((v : ℕ) → made how (has left.now v) (has right.now v) ≡ false) }
{
    for i in 0..left.len() {
        if how.words(word(left, i), word(right, i)) != 0 {
            return false;
        }
    }
    true
}

/// Whether each member of `one` or of `two` is a member of `wide` or of `more`.
pub fn is_union_subset(one: &[i64], two: &[i64], wide: &[i64], more: &[i64]) -> bool
    requires one_cells { AreWords one.now }
    requires two_cells { AreWords two.now }
    requires wide_cells { AreWords wide.now }
    requires more_cells { AreWords more.now }
    requires two_same { length one.now ≡ length two.now }
    requires wide_same { length one.now ≡ length wide.now }
    requires more_same { length one.now ≡ length more.now }
    ensures { IsTrue result
        ↔ ((v : ℕ) → (has one.now v || has two.now v) ≡ true → (has wide.now v || has more.now v) ≡ true) }
{
    for i in 0..one.len() {
        let part = word(one, i) | word(two, i);
        let whole = word(wide, i) | word(more, i);
        if part & !whole != 0 {
            return false;
        }
    }
    true
}

/// How many members there are.
pub fn count(row: &[i64]) -> usize
    requires cells { AreWords row.now }
    requires short { length row.now < 2 ^ 32 }
    ensures { result ≡ count_below (32 * length row.now) (has row.now) }
{
    let mut total: usize = 0;
    'words: for i in 0..row.len() {
        total += word(row, i).count_ones() as usize;
    }
    total
}

/// The least number at or above `from` that is a member of one of the two sets, or none where there is none.
#[inline]
pub fn next_of_either(one: &[i64], two: &[i64], from: usize) -> Option<usize>
    requires one_cells { AreWords one.now }
    requires two_cells { AreWords two.now }
    requires same { length one.now ≡ length two.now }
    requires short { length one.now < 2 ^ 32 }
    ensures some { IfSome result (λ v. v < 32 * length one.now) }
    ensures next { IfSome result (IsLeastFrom (λ v. has one.now v || has two.now v) from) }
    ensures none { IfNone result ((v : ℕ) → from ≤ v → (has one.now v || has two.now v) ≡ false) }
{
    if from / 32 >= one.len() {
        return None;
    }
    let rest = (word(one, from / 32) | word(two, from / 32)) >> (from % 32);
    if rest != 0 {
        return Some(from + rest.trailing_zeros() as usize);
    }
    for i in from / 32 + 1..one.len() {
        let all = word(one, i) | word(two, i);
        if all != 0 {
            return Some(32 * i + all.trailing_zeros() as usize);
        }
    }
    None
}

/// The least member, or none where there is no member.
pub fn least(row: &[i64]) -> Option<usize>
    requires cells { AreWords row.now }
    requires short { length row.now < 2 ^ 32 }
    ensures some { IfSome result (λ v. v < 32 * length row.now) }
    ensures next { IfSome result (IsLeastFrom (has row.now) 0) }
    ensures none { IfNone result ((v : ℕ) → has row.now v ≡ false) }
{
    Members::of(row).next()
}
