//! The greatest value of an incumbent and of settled prefixes.

ghost use Rattle.std.specs.Prelude.{◌≡◌};
ghost use Rattle.bound_cover.specs.Tests.{is_at_most};
ghost use Rattle.frontier_parts.specs.Settled.{better, is_same, joined, joined_place, place_from};

use bound_cover::is_at_most;

/// The greatest value, and which one it is.
#[derive(Clone, Copy)]
pub struct JoinedValue {
    /// The greatest value; none where there is no value at all.
    pub value: Option<i64>,
    /// The first place with this value; none where the incumbent has it.
    pub place: Option<usize>,
}

/// The greater of two numbers, where none is less than every number.
fn better(one: Option<i64>, other: Option<i64>) -> Option<i64>
    ensures { result ≡ better one other }
{
    let Some(a) = one else {
        return other;
    };
    let Some(b) = other else {
        return one;
    };
    if a <= b { Some(b) } else { Some(a) }
}

/// Whether both are the same number, or both are none.
fn is_same(one: Option<i64>, other: Option<i64>) -> bool
    ensures { result ≡ is_same one other }
{
    is_at_most(one, other) && is_at_most(other, one)
}

/// The greatest of an incumbent and of values.
fn greatest(incumbent: Option<i64>, settled: &[Option<i64>]) -> Option<i64>
    ensures { result ≡ joined incumbent settled.now }
{
    let mut best = incumbent;
    let mut rest = settled;
    while let [value, after @ ..] = rest {
        best = better(best, *value);
        rest = after;
    }
    best
}

/// The first place of a value.
fn place_of(value: Option<i64>, settled: &[Option<i64>]) -> Option<usize>
    ensures { result ≡ place_from value 0 settled.now }
{
    let mut rest = settled;
    let mut place = 0;
    while let [first, after @ ..] = rest {
        if is_same(*first, value) {
            return Some(place);
        }
        place += 1;
        rest = after;
    }
    None
}

/// The greatest of an incumbent and of the values of settled prefixes, with its place among these.
///
/// Where the prefixes and the incumbent cover all solutions of a problem, and each prefix is settled with its value, it is the best value of
/// the problem (`parts_join`, clause `best`).
pub fn join_values(incumbent: Option<i64>, settled: &[Option<i64>]) -> JoinedValue
    ensures joined { result.value ≡ joined incumbent settled.now }
    ensures place { result.place ≡ joined_place incumbent settled.now }
{
    let value = greatest(incumbent, settled);
    if is_same(incumbent, value) {
        return JoinedValue { value, place: None };
    }
    let place = place_of(value, settled);
    JoinedValue { value, place }
}
