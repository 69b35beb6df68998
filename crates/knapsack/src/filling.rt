//! The greedy fill.

ghost use Rattle.std.specs.Prelude.{◌≡◌, ◌*◌, ◌<◌, ◌≤◌, true, false, nat_le, List, length};
ghost use Rattle.std.specs.List.Sorted.{IsNonDecreasing, IsPartitionPoint};
ghost use Rattle.knapsack.specs.Order.{fill};
ghost use Rattle.knapsack.specs.Limits.{AreSmall};
ghost use Rattle.knapsack.specs.Runs.{part_of, IsPart, AreRunsOf, AreRuns};
ghost use Rattle.knapsack.specs.declared.item.Item.{Item};

use crate::running::{Begun, Runs};

/// What so much weight of an item is worth, rounded down; nothing where the items end.
#[tactic(auto, using(crate::proofs::Fills::part_small, crate::proofs::Fills::two_divisions))]
fn part(begun: Begun, rest: u64) -> u64
    requires { IsPart begun rest }
    ensures value { result ≡ part_of begun rest }
    ensures small { result ≤ 1000000000000 }
{
    if begun.weight == 0 {
        return 0;
    }
    let weight = u64::from(begun.weight);
    let profit = u64::from(begun.profit);
    if rest <= u64::from(u32::MAX) {
        return rest * profit / weight;
    }
    let copies = rest / weight;
    copies * profit + (rest - copies * weight) * profit / weight
}

/// How many of the weights are within the room.
fn count_within(weights: &[u64], room: u64) -> usize
    requires { IsNonDecreasing weights.now }
    ensures within { result ≤ length weights.now }
    ensures point { IsPartitionPoint (λ w. nat_le w room ≡ true) (λ w. nat_le w room ≡ false) weights.now result }
{
    weights.partition_point(|weight| *weight <= room)
}

/// The greedy fill of what is left by the items that the runs are made of: all before the last one that begins within
/// the room, and of this one what fits.
pub(crate) fn filled(runs: &Runs, room: u64) -> u64
    requires { AreRuns runs.now }
    ensures { (items : List Item) → AreSmall items → AreRunsOf items runs.now → result ≡ fill items room }
{
    let place = count_within(&runs.weights, room) - 1;
    let begun = runs.begun[place];
    begun.before + part(begun, room - runs.weights[place])
}
