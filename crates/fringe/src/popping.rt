//! The slot of the subproblem that is taken first.

ghost use Rattle.std.specs.Prelude.{◌≡◌, ◌≢◌, ◌+◌, ◌≤◌, ℕ, Some, None, IfSome, IfNone, OnSome, Contains};
ghost use Rattle.fringe.specs.Tickets.{Ticketed};
ghost use Rattle.fringe.specs.Slots.{AreRanked, in_slot, rank_of, IsFirstSlot};

use crate::listed::Listed;
use crate::ranks::Ranks;
use crate::slots::has_rank;

/// Pops ranks until one belongs to an open subproblem, and answers its slot, or `None` exactly if nothing is open.
pub fn first_slot(slots: &[Option<Listed>], ranks: &mut Ranks) -> Option<u32>
    requires ranked { AreRanked slots.now ranks.old.ranks }
    ensures none { IfNone result ((s : ℕ) → in_slot slots.now s ≡ None) }
    ensures best { IfSome result (λ s. IsFirstSlot slots.now s) }
    ensures ranked { (s : ℕ) (o : Ticketed) → in_slot slots.now s ≡ Some o → IfSome result (λ first. s ≢ first → Contains ranks.new.ranks (rank_of s o)) }
    ensures room { ranks.new.room ≡ ranks.old.room }
    ensures len { ranks.new.len ≤ ranks.old.len }
    ensures less { OnSome result (ranks.new.len + 1 ≤ ranks.old.len) }
{
    while let Some(rank) = ranks.pop() {
        if has_rank(slots, &rank) {
            return Some(rank.slot);
        }
    }
    None
}
