//! The order in which open subproblems are taken.

ghost use Rattle.std.proofs.Common.{rules};
ghost use Rattle.std.specs.Cmp.{partial_order_from_agreeing_total};
ghost use Rattle.std.specs.Cmp.Rules.{comparing};
ghost use Rattle.std.specs.Ordering.{as_partial_cmp};
ghost use Rattle.fringe.specs.Ranks.{rank_cmp};
ghost use Rattle.std.specs.Prelude.{refl};

use std::cmp::Ordering;

/// What decides when an open subproblem is taken, and its slot. The subproblem with the greatest rank is taken first.
#[derive(Clone, Copy, Debug, PartialEq, Eq)]
pub struct Rank {
    /// Its bound. The greater one is taken first.
    pub bound: i64,
    /// Its value. Of equal bounds the greater value is taken first.
    pub value: i64,
    /// Its ticket. Of equal bounds and values the lesser ticket is taken first.
    pub ticket: u64,
    /// Its slot.
    pub slot: u32,
}

impl Ord for Rank {
    ghost cmp = { rank_cmp };

    ghost total = { Prim.search (comparing, rules) };

    ghost matches_partial_cmp = { λ x y. refl };

    ghost matches_eq = { Prim.search (comparing, rules) };

    fn cmp(&self, other: &Rank) -> Ordering {
        self.bound
            .cmp(&other.bound)
            .then(self.value.cmp(&other.value))
            .then(other.ticket.cmp(&self.ticket))
            .then(self.slot.cmp(&other.slot))
    }
}

impl PartialOrd for Rank {
    ghost partial_cmp = { as_partial_cmp rank_cmp };

    ghost laws = { partial_order_from_agreeing_total rank_cmp (Prim.search (comparing, rules)) (λ x y. refl) (Prim.search (comparing, rules)) };

    fn partial_cmp(&self, other: &Rank) -> Option<Ordering> {
        Some(self.cmp(other))
    }
}
