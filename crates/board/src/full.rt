//! The full slots, and the greatest of bounds.

ghost use Rattle.std.specs.Prelude.{◌≡◌, length};
ghost use Rattle.board_laws.specs.Board.{full_slots};
ghost use Rattle.board_laws.specs.Bound.{raised_by};

use crate::checked_out::CheckedOut;
use fringe::{Fringe, raised};

/// How many slots are full.
pub fn count_full(slots: &[Option<CheckedOut>]) -> usize
    ensures { result ≡ length (full_slots slots.now) }
{
    let mut count: usize = 0;
    for slot in slots {
        if slot.is_some() {
            count += 1;
        }
    }
    count
}

/// The greatest of `most` and the bounds of what the slots have; `None` is less than every number.
pub fn raised_by_slots(most: Option<i64>, slots: &[Option<CheckedOut>]) -> Option<i64>
    ensures { result ≡ raised_by most (full_slots slots.now) }
{
    let mut most = most;
    for slot in slots {
        if let Some(one) = slot {
            most = raised(most, one.sub.bound);
        }
    }
    most
}

/// The greatest of `most` and the bounds of what is open; `None` is less than every number.
#[tactic(auto, using(crate::proofs::Bounds::raised_none, crate::proofs::Bounds::raised_some))]
pub fn raised_by_fringe(most: Option<i64>, fringe: &Fringe) -> Option<i64>
    ensures { result ≡ raised_by most fringe.now.open_ones }
{
    match fringe.best_bound() {
        Some(bound) => raised(most, bound),
        None => most,
    }
}
