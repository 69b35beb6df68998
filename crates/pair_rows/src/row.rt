//! One pass over a row of benefits and a row of shifts.

ghost use Rattle.std.specs.Prelude.{◌≡◌, suc, ◌+◌, ◌^◌, ℤ, pos, ◌+ℤ◌, ◌-ℤ◌, ◌≤ℤ◌, false, None, List, ◌++◌, length, replicate, slice_index_or, take, drop, IsTrue};
ghost use Rattle.std.specs.Int.{int_min};
ghost use Rattle.benefit_rows.specs.Benefits.{choice_gain, differences, gap_of, rank_of, size_of, sums_of, where_at_most};
ghost use Rattle.pair_rows.specs.Shifts.{half_lost};
ghost use Rattle.pair_rows.specs.Instance.{unit_most, units_most};
ghost use Rattle.pair_rows.specs.Limits.{UnitFits, units_fit};
ghost use Rattle.pair_rows.specs.Program.{all_zero, is_within, lesser_units, root_of, words_of};

use crate::values::UnitValues;
use benefit_rows::{above_zero, below_zero, rank, size, write_sums, write_zeros};
use dp_model::Extended;

/// Writes the root state: how much more each variable gives by 1 than by 0.
pub(crate) fn write_root(units: &[UnitValues], out: &mut [i64])
    requires cells { length out.old ≡ words_of (length units.now) }
    requires positive { IsTrue (units_fit units.now) }
    requires weight { units_most units.now ≤ℤ pos (2 ^ 48) }
    ensures { out.new ≡ root_of units.now }
{
    if units.is_empty() {
        out[0] = 0;
        return;
    }
    for i in 0..units.len() {
        out[i] = unit_benefit(units[i]);
    }
}

/// How much more a variable gives by 1 than by 0.
fn unit_benefit(unit: UnitValues) -> i64
    requires positive { UnitFits unit }
    requires weight { unit_most unit ≤ℤ pos (2 ^ 48) }
    ensures { result ≡ unit.if_yes -ℤ unit.if_no }
{
    unit.if_yes - unit.if_no
}

/// The sum of the lesser of the two numbers of each variable.
pub(crate) fn lesser_sum(units: &[UnitValues]) -> i64
    requires positive { IsTrue (units_fit units.now) }
    requires weight { units_most units.now ≤ℤ pos (2 ^ 48) }
    ensures { result ≡ lesser_units units.now }
{
    let mut total = 0;
    for unit in units {
        total += lesser_of(unit.if_no, unit.if_yes);
    }
    total
}

fn lesser_of(a: i64, b: i64) -> i64
    ensures { result ≡ int_min a b }
{
    if b < a { b } else { a }
}

/// Writes the state after a decision, by how far this shifts the later benefits. As many first cells as `done` are zero
/// already. Answers its rank.
pub(crate) fn write_step(shifts: &[i64], k: usize, s: &[i64], done: usize, out: &mut [i64]) -> i64
    requires cells { length out.old ≡ length s.now }
    requires done { take done out.old ≡ replicate done (pos 0) }
    requires entries { length shifts.now + suc k ≡ length s.now }
    requires sizes { rank_of shifts.now ≤ℤ pos (2 ^ 48) }
    requires benefits { rank_of (drop k s.now) ≤ℤ pos (2 ^ 48) }
    ensures row { out.new ≡ replicate (k + 1) (pos 0) ++ sums_of (drop (k + 1) s.now) shifts.now }
    ensures rank { result ≡ rank_of (sums_of (drop (k + 1) s.now) shifts.now) }
{
    let (decided, later) = out.split_at_mut(k + 1);
    write_zeros(decided, done);
    write_sums(later, &s[k + 1..], shifts)
}

/// Writes the state after a decision, where as many first cells as `done` are zero already. Answers its gain and its
/// rank, by the rank of the state and the stakes of the decision: with the later variables it gains half of the stakes
/// and of what their benefits lose in size.
pub(crate) fn extend_row(
    shifts: &[i64],
    stakes: i64,
    k: usize,
    s: &[i64],
    rank: i64,
    d: u32,
    done: usize,
    out: &mut [i64],
) -> Extended
    requires cells { length out.old ≡ length s.now }
    requires done { take done out.old ≡ replicate done (pos 0) }
    requires entries { length shifts.now + suc k ≡ length s.now }
    requires sizes { rank_of shifts.now ≤ℤ pos (2 ^ 48) }
    requires benefits { rank_of (drop k s.now) ≤ℤ pos (2 ^ 48) }
    requires rank { rank ≡ rank_of (drop k s.now) }
    requires stakes_low { pos 0 ≤ℤ stakes }
    requires stakes_high { stakes ≤ℤ pos (2 ^ 49) }
    ensures row { out.new ≡ replicate (k + 1) (pos 0) ++ sums_of (drop (k + 1) s.now) shifts.now }
    ensures gain { result.gain ≡ choice_gain (slice_index_or s.now k (pos 0)) d +ℤ half_lost stakes (drop (k + 1) s.now) shifts.now }
    ensures rank { result.rank ≡ rank_of (sums_of (drop (k + 1) s.now) shifts.now) }
{
    let benefit = s[k];
    let next = write_step(shifts, k, s, done, out);
    let shared = (rank - size(benefit) + stakes - next) / 2;
    Extended {
        gain: side_gain(benefit, d) + shared,
        rank: next,
    }
}

/// What a decision gains: the decided variable's side, and half of the stakes and of what the later benefits lose in size.
pub(crate) fn step_gain(shifts: &[i64], stakes: i64, k: usize, s: &[i64], d: u32) -> i64
    requires entries { length shifts.now + suc k ≡ length s.now }
    requires sizes { rank_of shifts.now ≤ℤ pos (2 ^ 48) }
    requires benefits { rank_of (drop k s.now) ≤ℤ pos (2 ^ 48) }
    requires stakes_low { pos 0 ≤ℤ stakes }
    requires stakes_high { stakes ≤ℤ pos (2 ^ 49) }
    ensures { result ≡ choice_gain (slice_index_or s.now k (pos 0)) d +ℤ half_lost stakes (drop (k + 1) s.now) shifts.now }
{
    let benefit = s[k];
    let before = rank(&s[k..]);
    let next = rank_of_sums(&s[k + 1..], shifts);
    let shared = (before - size(benefit) + stakes - next) / 2;
    side_gain(benefit, d) + shared
}

/// The rank of the sums of two rows of the same length.
fn rank_of_sums(row: &[i64], added: &[i64]) -> i64
    requires lengths { length row.now ≡ length added.now }
    requires row_size { rank_of row.now ≤ℤ pos (2 ^ 60) }
    requires added_size { rank_of added.now ≤ℤ pos (2 ^ 60) }
    ensures { result ≡ rank_of (sums_of row.now added.now) }
{
    let mut total = 0;
    for i in 0..row.len() {
        let sum = row[i] + added[i];
        total += size(sum);
    }
    total
}

/// What a variable gains from its benefit.
fn side_gain(benefit: i64, d: u32) -> i64
    requires size { size_of benefit ≤ℤ pos (2 ^ 48) }
    ensures { result ≡ choice_gain benefit d }
{
    if d == 0 {
        below_zero(benefit)
    } else {
        above_zero(benefit)
    }
}

/// Whether each number of the row is zero.
pub(crate) fn is_zero_row(row: &[i64]) -> bool
    ensures { result ≡ all_zero row.now }
{
    for i in 0..row.len() {
        if !is_at_most(row[i], 0) {
            return false;
        }
    }
    true
}

/// Whether the number is at most the limit in size.
pub(crate) fn is_at_most(number: i64, limit: i64) -> bool
    requires low { pos 0 ≤ℤ limit }
    ensures { result ≡ is_within number limit }
{
    -limit <= number && number <= limit
}

/// Whether the gap between two rows of one length may be at most `most`, by the ranks of both and a distance that they have at least.
pub(crate) fn may_be_within(from_rank: i64, to_rank: i64, least_distance: i64, most: i64) -> bool
    requires from_low { pos 0 ≤ℤ from_rank }
    requires from_high { from_rank ≤ℤ pos (2 ^ 60) }
    requires to_low { pos 0 ≤ℤ to_rank }
    requires to_high { to_rank ≤ℤ pos (2 ^ 60) }
    ensures { (from to : List ℤ) → length from ≡ length to → from_rank ≡ rank_of from → to_rank ≡ rank_of to
        → least_distance ≤ℤ rank_of (differences from to) → result ≡ false → where_at_most most (gap_of from to) ≡ None }
{
    // A gap is half of how much greater the second rank is and the distance. So it is at least the former, and it is at most the second rank.
    let more = to_rank - from_rank;
    more <= most && least_distance <= 2 * most.min(to_rank) - more
}
