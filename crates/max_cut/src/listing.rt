//! The vertices and pairs of a graph, with what their sides give.

ghost use Rattle.std.specs.Prelude.{◌≡◌, ◌^◌, pos, ◌≤ℤ◌, map, IfOk};
ghost use Rattle.benefit_rows.specs.Benefits.{rank_of, size_of};
ghost use Rattle.pair_rows.specs.Shown.{instance_of, instance_in as rows_shown};
ghost use Rattle.max_cut.specs.Graph.{negatives_of};
ghost use Rattle.max_cut.specs.Program.{pair_values, rows_in};
ghost use Rattle.max_cut.specs.Shown.{instance_in};

use crate::instance::MaxCut;
use benefit_rows::{above_zero, below_zero, size};
use pair_rows::{PairInstance, PairRows, PairValues, UnitValues};
use std::alloc::{AllocError, Global};

/// The rows of a graph.
pub(crate) fn rows_of(alloc: Global, model: &MaxCut) -> Result<PairRows, AllocError>
    ensures { IfOk result (λ rows. rows_shown rows ≡ rows_in (instance_in model.now)) }
{
    let list = listed(alloc, model.vertices, &model.weights)?;
    PairRows::prepared(alloc, &list)
}

/// The vertices and pairs of a graph.
fn listed(alloc: Global, vertices: usize, weights: &[i64]) -> Result<PairInstance, AllocError>
    requires { rank_of weights.now ≤ℤ pos (2 ^ 50) }
    ensures { IfOk result (λ p. instance_of p ≡ rows_in (record { vertices = vertices; weights = weights.now })) }
{
    let units = vec![in alloc; UnitValues::NONE; vertices]?;
    let pairs = values_of_pairs(alloc, weights)?;
    Ok(PairInstance {
        constant: sum_of_negatives(weights),
        first: 1,
        units,
        pairs,
    })
}

/// What the sides of each two vertices give.
fn values_of_pairs(alloc: Global, weights: &[i64]) -> Result<Vec<PairValues>, AllocError>
    requires { rank_of weights.now ≤ℤ pos (2 ^ 50) }
    ensures { IfOk result (λ v. v.items ≡ map pair_values weights.now) }
{
    let mut values = Vec::with_capacity(alloc, weights.len())?;
    for i in 0..weights.len() {
        values.push(values_of_pair(weights[i]))?;
    }
    Ok(values)
}

/// What the sides of two vertices give, by the weight between them.
fn values_of_pair(weight: i64) -> PairValues
    requires { size_of weight ≤ℤ pos (2 ^ 50) }
    ensures { result ≡ pair_values weight }
{
    PairValues {
        no_no: below_zero(weight),
        no_yes: above_zero(weight),
        yes_no: above_zero(weight),
        yes_yes: below_zero(weight),
        most: size(weight),
    }
}

/// The sum of the negative weights.
fn sum_of_negatives(weights: &[i64]) -> i64
    requires { rank_of weights.now ≤ℤ pos (2 ^ 50) }
    ensures { result ≡ negatives_of weights.now }
{
    let mut total = 0;
    for weight in weights {
        total += (*weight).min(0);
    }
    total
}
