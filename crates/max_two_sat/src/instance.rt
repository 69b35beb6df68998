ghost use Rattle.max_two_sat.specs.Limits.{IsWithinLimits};

use crate::draft::Draft;
use crate::weights::{PairWeights, UnitWeights};

/// An instance of weighted MAX-2SAT.
///
/// It has at most 1024 variables, no negative weight, and a total weight of at most `2^48`.
#[derive(Drop)]
pub struct MaxTwoSat {
    pub(crate) tautologies: i64,
    pub(crate) units: Vec<UnitWeights>,
    /// The pairs of variables by the first, then by the second.
    pub(crate) pairs: Vec<PairWeights>,
    ghost kept: { IsWithinLimits (record { tautologies = tautologies; units = units.items; pairs = pairs.items }) },
}

impl MaxTwoSat {
    ghost use Rattle.std.specs.Prelude.{◌≡◌, ◌^◌, ◌≤◌};
    ghost use Rattle.max_two_sat.specs.Drafted.{gathered_in, instance_gathered};
    ghost use Rattle.max_two_sat.specs.Shown.{instance_in};
    ghost use Rattle.max_two_sat.specs.Room.{IsGathered};

    /// The problem that a draft holds.
    pub(crate) fn of_draft(draft: Draft) -> MaxTwoSat
        requires gathered { IsGathered (gathered_in draft) }
        requires few { draft.clauses ≤ 2 ^ 20 }
        ensures { instance_in result ≡ instance_gathered draft }
    {
        let Draft {
            tautologies,
            units,
            pairs,
            total: _,
            clauses: _,
        } = draft;
        MaxTwoSat {
            tautologies,
            units,
            pairs,
        }
    }
}
