//! The variables and pairs of an instance, with what their clauses give.

ghost use Rattle.std.specs.Prelude.{◌≡◌, ◌^◌, pos, ◌≤ℤ◌, map, IfOk};
ghost use Rattle.dp_model.specs.Lists.{Each};
ghost use Rattle.pair_rows.specs.Shown.{instance_of, instance_in as rows_shown};
ghost use Rattle.max_two_sat.specs.Instance.{pair_total, unit_total};
ghost use Rattle.max_two_sat.specs.Limits.{IsWithinLimits, PairIsPositive, UnitIsPositive};
ghost use Rattle.max_two_sat.specs.Program.{pair_values, rows_in, unit_values};
ghost use Rattle.max_two_sat.specs.Shown.{instance_in};

use crate::instance::MaxTwoSat;
use crate::value::{pair_sum, value_of_pair, value_of_unit};
use crate::weights::{PairWeights, UnitWeights};
use pair_rows::{PairInstance, PairRows, PairValues, UnitValues};
use std::alloc::{AllocError, Global};

/// The rows of an instance.
pub(crate) fn rows_of(alloc: Global, model: &MaxTwoSat) -> Result<PairRows, AllocError>
    ensures { IfOk result (λ rows. rows_shown rows ≡ rows_in (instance_in model.now)) }
{
    let list = listed(alloc, model.tautologies, &model.units, &model.pairs)?;
    PairRows::prepared(alloc, &list)
}

/// The variables and pairs of an instance.
fn listed(
    alloc: Global,
    tautologies: i64,
    units: &[UnitWeights],
    pairs: &[PairWeights],
) -> Result<PairInstance, AllocError>
    requires { IsWithinLimits (record { tautologies = tautologies; units = units.now; pairs = pairs.now }) }
    ensures { IfOk result (λ p. instance_of p ≡ rows_in (record { tautologies = tautologies; units = units.now; pairs = pairs.now })) }
{
    let units = values_of(alloc, units)?;
    let pairs = values_of(alloc, pairs)?;
    Ok(PairInstance {
        constant: tautologies,
        first: 2,
        units,
        pairs,
    })
}

/// The weights of the clauses on one variable, or on two.
trait ClauseWeights: Copy {
    type Values: Drop;

    /// That no weight is negative, and all of them together are at most 2^48.
    ghost fits: { Self → Type 0 };

    /// What each value of the variables gives, and what none of them exceeds.
    ghost given: { Self → Self.Values };

    /// What the clauses give, by the values of their variables.
    fn values(self) -> Self::Values
        requires { fits self }
        ensures { result ≡ given self };
}

impl ClauseWeights for UnitWeights {
    type Values = UnitValues;

    ghost fits = { λ u. UnitIsPositive u × (unit_total u ≤ℤ pos (2 ^ 48)) };

    ghost given = { unit_values };

    fn values(self) -> UnitValues {
        UnitValues {
            if_no: value_of_unit(self, 0),
            if_yes: value_of_unit(self, 1),
            most: self.positive + self.negative,
        }
    }
}

impl ClauseWeights for PairWeights {
    type Values = PairValues;

    ghost fits = { λ p. PairIsPositive p × (pair_total p ≤ℤ pos (2 ^ 48)) };

    ghost given = { pair_values };

    fn values(self) -> PairValues {
        PairValues {
            no_no: value_of_pair(self, 0, 0),
            no_yes: value_of_pair(self, 0, 1),
            yes_no: value_of_pair(self, 1, 0),
            yes_yes: value_of_pair(self, 1, 1),
            most: pair_sum(self),
        }
    }
}

/// What the clauses of each entry give.
fn values_of<W: ClauseWeights>(alloc: Global, entries: &[W]) -> Result<Vec<W::Values>, AllocError>
    requires { Each W.fits entries.now }
    ensures { IfOk result (λ v. v.items ≡ map W.given entries.now) }
{
    let mut values = Vec::with_capacity(alloc, entries.len())?;
    for i in 0..entries.len() {
        let entry = entries[i];
        values.push(entry.values())?;
    }
    Ok(values)
}
