//! Comparisons of bounds and of sums.

ghost use Rattle.std.specs.Prelude.{◌≡◌, ◌+ℤ◌, int_le};
ghost use Rattle.bound_cover.specs.Tests.{is_at_most};

/// Whether a bound is at most another, where none is less than every number.
pub fn is_at_most(one: Option<i64>, other: Option<i64>) -> bool
    ensures { result ≡ is_at_most one other }
{
    let Some(one) = one else {
        return true;
    };
    let Some(other) = other else {
        return false;
    };
    one <= other
}

/// Whether the sum of two numbers is at most another. No sum wraps.
pub fn is_sum_within(one: i64, other: i64, most: i64) -> bool
    ensures { result ≡ int_le (one +ℤ other) most }
{
    i128::from(one) + i128::from(other) <= i128::from(most)
}

/// Whether the sum of three numbers is at most another. No sum wraps.
pub(crate) fn is_triple_within(gain: i64, gap: i64, bound: i64, most: i64) -> bool
    ensures { result ≡ int_le ((gain +ℤ gap) +ℤ bound) most }
{
    i128::from(gain) + i128::from(gap) + i128::from(bound) <= i128::from(most)
}
