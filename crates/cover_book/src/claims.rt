//! What rows claim: numbers of 128 bits, so that no sum leaves its type.

ghost use Rattle.std.specs.Prelude.{◌≡◌, ◌-ℤ◌, not, cond};
ghost use Rattle.dp_model.specs.Numbers.{add_some};
ghost use Rattle.bound_cover.specs.Exploring.{rest_of, greater_of};
ghost use Rattle.bound_cover.specs.Tests.{is_at_most};

use bound_cover::is_sum_within;

/// A number in more bits.
fn wide(z: i64) -> i128
    ensures { result ≡ z }
{
    i128::from(z)
}

/// What is left of a claim beside a value.
fn difference(claim: i64, value: i64) -> i128
    ensures { result ≡ claim -ℤ value }
{
    i128::from(claim) - i128::from(value)
}

/// What is left of a claim beside a value; none where the claim is none.
pub(crate) fn rest_of(claim: Option<i64>, value: i64) -> Option<i128>
    ensures { result ≡ rest_of claim value }
{
    let claim = claim?;
    Some(difference(claim, value))
}

/// The greater of two bounds, where none is less than every number.
pub(crate) fn greater_of(suffix: Option<i64>, rest: Option<i128>) -> Option<i128>
    ensures { result ≡ greater_of suffix rest }
{
    let Some(suffix) = suffix else {
        return rest;
    };
    let suffix = wide(suffix);
    let Some(rest) = rest else {
        return Some(suffix);
    };
    if suffix <= rest {
        Some(rest)
    } else {
        Some(suffix)
    }
}

/// Whether a value with a suffix leads above the claim.
pub(crate) fn leads_above(claim: Option<i64>, value: i64, suffix: Option<i64>) -> bool
    ensures { result ≡ not (is_at_most (add_some value suffix) claim) }
{
    let Some(suffix) = suffix else {
        return false;
    };
    let Some(claim) = claim else {
        return true;
    };
    !is_sum_within(value, suffix, claim)
}
