//! What a slot has.

ghost use Rattle.std.specs.Prelude.{◌≡◌, option_copied};
ghost use Rattle.fringe.specs.Fringe.{is_same};
ghost use Rattle.fringe.specs.Slots.{in_slot, is_low, has_rank, is_same_in};

use crate::listed::Listed;
use crate::rank::Rank;
use dp_model::row_same;

/// The open subproblem in the slot, or `None` if there is none.
pub fn in_slot(slots: &[Option<Listed>], slot: u32) -> Option<&Listed>
    ensures { option_copied result ≡ in_slot slots.now slot }
{
    slots.get(slot as usize)?.as_ref()
}

/// Whether the rank belongs to the subproblem in its slot. If not, it is stale.
pub fn has_rank(slots: &[Option<Listed>], rank: &Rank) -> bool
    ensures { result ≡ has_rank rank.now (in_slot slots.now rank.now.slot) }
{
    match in_slot(slots, rank.slot) {
        Some(one) => {
            one.ticket == rank.ticket && one.sub.value == rank.value && one.sub.bound == rank.bound
        }
        None => false,
    }
}

/// Whether the slot has a subproblem whose bound is at most the value.
pub fn is_low(slots: &[Option<Listed>], slot: u32, value: i64) -> bool
    ensures { result ≡ is_low value (in_slot slots.now slot) }
{
    match in_slot(slots, slot) {
        Some(one) => one.sub.bound <= value,
        None => false,
    }
}

/// Whether the subproblem has the depth and the state.
fn is_same(one: &Listed, depth: usize, row: &[i64]) -> bool
    ensures { result ≡ is_same depth row.now one.now }
{
    one.sub.decisions.len() == depth && row_same(one.sub.row.as_slice(), row)
}

/// Whether the slot has a subproblem with the depth and the state.
pub fn is_same_in(slots: &[Option<Listed>], slot: u32, depth: usize, row: &[i64]) -> bool
    ensures { result ≡ is_same_in depth row.now (in_slot slots.now slot) }
{
    match in_slot(slots, slot) {
        Some(one) => is_same(one, depth, row),
        None => false,
    }
}
