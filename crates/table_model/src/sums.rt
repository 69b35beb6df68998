//! Comparisons of sums, without overflow.

ghost use Rattle.std.specs.Prelude.{◌≡◌, ◌+ℤ◌, int_le};

/// Whether the sum of two numbers is at most another number.
pub(crate) fn is_sum_at_most(x: i64, y: i64, most: i64) -> bool
    ensures { result ≡ int_le (x +ℤ y) most }
{
    i128::from(x) + i128::from(y) <= i128::from(most)
}

/// Whether a number is at most the sum of two others.
pub(crate) fn is_at_most_sum(number: i64, x: i64, y: i64) -> bool
    ensures { result ≡ int_le number (x +ℤ y) }
{
    i128::from(number) <= i128::from(x) + i128::from(y)
}

/// Whether the sum of the first two numbers is at most that of the others.
pub(crate) fn are_sums_ordered(x: i64, y: i64, z: i64, t: i64) -> bool
    ensures { result ≡ int_le (x +ℤ y) (z +ℤ t) }
{
    i128::from(x) + i128::from(y) <= i128::from(z) + i128::from(t)
}
