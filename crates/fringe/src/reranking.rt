//! Rebuilding the heap.

ghost use Rattle.std.specs.Prelude.{◌≡◌, ◌+◌, ◌^◌, ◌<◌, ◌≤◌, length, Some, None, Contains};
ghost use Rattle.fringe.specs.Slots.{AreRanked, in_slot, opened, rank_of};
ghost use Rattle.fringe.specs.Tickets.{Ticketed};
ghost use Rattle.fringe.specs.declared.rank.Rank.{Rank};

use crate::listed::Listed;
use crate::rank::Rank;
use crate::ranks::Ranks;
use crate::slots::in_slot;

/// The rank of the subproblem in a slot.
pub fn rank_of(one: &Listed, slot: u32) -> Rank
    ensures { result ≡ rank_of slot one.now }
{
    Rank {
        bound: one.sub.bound,
        value: one.sub.value,
        ticket: one.ticket,
        slot,
    }
}

/// Adds the rank of the subproblem in the slot, if there is one. It takes no memory.
fn rank_slot(slots: &[Option<Listed>], slot: u32, ranks: &mut Ranks)
    requires { (o : Ticketed) → in_slot slots.now slot ≡ Some o → ranks.old.len < ranks.old.room }
    ensures ranked { (o : Ticketed) → in_slot slots.now slot ≡ Some o → Contains ranks.new.ranks (rank_of slot o) }
    ensures kept { (r : Rank) → Contains ranks.old.ranks r → Contains ranks.new.ranks r }
    ensures more { (o : Ticketed) → in_slot slots.now slot ≡ Some o → ranks.new.len ≡ ranks.old.len + 1 }
    ensures none { in_slot slots.now slot ≡ None → ranks.new.len ≡ ranks.old.len }
    ensures room { ranks.old.room ≤ ranks.new.room }
{
    if let Some(one) = in_slot(slots, slot) {
        ranks.push(rank_of(one, slot));
    }
}

/// Drops all ranks, and adds those of the open subproblems only. It takes no memory.
pub fn rerank(slots: &[Option<Listed>], ranks: &mut Ranks)
    requires room { length (opened slots.now) ≤ ranks.old.room }
    requires most { length slots.now ≤ 2 ^ 32 }
    ensures ranked { AreRanked slots.now ranks.new.ranks }
    ensures len { ranks.new.len ≡ length (opened slots.now) }
    ensures room { ranks.old.room ≤ ranks.new.room }
{
    ranks.clear();
    for slot in 0..slots.len() {
        rank_slot(slots, slot as u32, ranks);
    }
}
