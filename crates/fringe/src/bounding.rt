//! The greatest bound.

ghost use Rattle.std.specs.Prelude.{◌≡◌, map};
ghost use Rattle.dp_model.specs.Numbers.{greatest};
ghost use Rattle.fringe.specs.Bounds.{raised};
ghost use Rattle.fringe.specs.Slots.{opened, raised_one};

use crate::listed::Listed;

/// The greater of the two. `None` is less than every number.
pub fn raised(most: Option<i64>, bound: i64) -> Option<i64>
    ensures { result ≡ raised most bound }
{
    match most {
        Some(most) if most >= bound => Some(most),
        _ => Some(bound),
    }
}

/// The greater of `most` and the bound of the subproblem in a slot.
fn raised_one(most: Option<i64>, one: &Option<Listed>) -> Option<i64>
    ensures { result ≡ raised_one most one.now }
{
    match one {
        Some(one) => raised(most, one.sub.bound),
        None => most,
    }
}

/// The greatest bound of an open subproblem, or `None` exactly if nothing is open.
pub fn best_of(slots: &[Option<Listed>]) -> Option<i64>
    ensures { result ≡ greatest (map (λ o. o.subproblem.bound) (opened slots.now)) }
{
    let mut most = None;
    for one in slots {
        most = raised_one(most, one);
    }
    most
}
