//! How large the benefits of a state may be.

ghost use Rattle.std.specs.Prelude.{◌≡◌, ◌^◌, ◌+◌, ◌<◌, ◌≤◌, ◌≤ℤ◌, length, pos, get_or, slice_index_or, IfOk, IsTrue};
ghost use Rattle.pair_rows.specs.Pairs.{row_at, rows_of};
ghost use Rattle.pair_rows.specs.Instance.{of_entries, pair_most, unit_most, units_most};
ghost use Rattle.pair_rows.specs.Limits.{IsInstance, units_fit};
ghost use Rattle.pair_rows.specs.Program.{are_within, first_limits, limits_at};
ghost use Rattle.pair_rows.specs.Table.{limits_through};
ghost use Rattle.pair_rows.specs.Laws.Totals.{none_negative};

use crate::row::is_at_most;
use crate::rows::row_of;
use crate::values::{PairValues, UnitValues};
use std::alloc::{AllocError, Global};
use std::marker::Model;

/// How large the benefits of a layer's states may be, from the layer's variable on.
#[derive(Drop)]
pub(crate) struct LayerLimits {
    pub(crate) cells: Vec<i64>,
}

impl Model for LayerLimits {
    ghost use Rattle.std.specs.Prelude.{List, ℤ};

    ghost Value = { List ℤ };

    ghost view = { λ l. l.cells.items };
}

/// Whether each benefit is within its limit.
pub(crate) fn are_within(benefits: &[i64], limits: &[i64]) -> bool
    requires positive { IsTrue (none_negative limits.now) }
    requires cells { length benefits.now ≤ length limits.now }
    ensures { result ≡ are_within benefits.now limits.now }
{
    for i in 0..benefits.len() {
        if !is_at_most(benefits[i], limits[i]) {
            return false;
        }
    }
    true
}

/// The limits of each layer, and of the end.
pub(crate) fn limits_of_layers(
    alloc: Global,
    units: &[UnitValues],
    pairs: &[PairValues],
) -> Result<Vec<LayerLimits>, AllocError>
    requires kept { IsInstance (of_entries units.now pairs.now) }
    ensures { IfOk result (λ v. v.items ≡ limits_through units.now pairs.now (length units.now)) }
{
    let mut layers = Vec::with_capacity(alloc, units.len() + 1)?;
    let first = limits_of_units(alloc, units)?;
    layers.push(first)?;
    for k in 0..units.len() {
        let next = limits_after(alloc, units, pairs, k, limits_in(layers.as_slice(), k))?;
        layers.push(next)?;
    }
    Ok(layers)
}

/// The limits of layer `k`, which is among these layers.
pub(crate) fn limits_in(layers: &[LayerLimits], k: usize) -> &[i64]
    requires { k < length layers.now }
    ensures { result.now ≡ get_or layers.now k result.now }
{
    let limits = &layers[k];
    limits.cells.as_slice()
}

/// The limits of the first layer: what each variable gives at most, and 0 where there is none.
fn limits_of_units(alloc: Global, units: &[UnitValues]) -> Result<LayerLimits, AllocError>
    requires positive { IsTrue (units_fit units.now) }
    requires weight { units_most units.now ≤ℤ pos (2 ^ 48) }
    ensures { IfOk result (λ limits. limits ≡ first_limits units.now) }
{
    let count = count_of_limits(units);
    let mut cells = Vec::with_capacity(alloc, count)?;
    for i in 0..count {
        cells.push(limit_of_unit(units, i))?;
    }
    Ok(LayerLimits { cells })
}

/// How many limits the first layer has.
fn count_of_limits(units: &[UnitValues]) -> usize
    ensures { result ≡ length (first_limits units.now) }
{
    units.len().max(1)
}

/// How large the benefit of a variable may be in the first layer.
fn limit_of_unit(units: &[UnitValues], i: usize) -> i64
    requires positive { IsTrue (units_fit units.now) }
    requires weight { units_most units.now ≤ℤ pos (2 ^ 48) }
    ensures { result ≡ slice_index_or (first_limits units.now) i (pos 0) }
{
    if i >= units.len() {
        return 0;
    }
    unit_limit(units[i])
}

/// The limits of the layer after layer `k`, whose limits are given: each is raised by what its variable
/// and variable `k` give at most.
fn limits_after(
    alloc: Global,
    units: &[UnitValues],
    pairs: &[PairValues],
    k: usize,
    before: &[i64],
) -> Result<LayerLimits, AllocError>
    requires kept { IsInstance (of_entries units.now pairs.now) }
    requires layer { k < length units.now }
    requires before { before.now ≡ limits_at units.now pairs.now k }
    ensures { IfOk result (λ limits. limits ≡ limits_at units.now pairs.now (k + 1)) }
{
    let row = row_of(pairs, units.len(), k);
    let mut cells = Vec::with_capacity(alloc, row.len())?;
    for i in 0..row.len() {
        cells.push(limit_after(units, pairs, k, before, row, i))?;
    }
    Ok(LayerLimits { cells })
}

/// How large the benefit at an index may be after layer `k`, whose limits and entries are given.
fn limit_after(
    units: &[UnitValues],
    pairs: &[PairValues],
    k: usize,
    before: &[i64],
    row: &[PairValues],
    i: usize,
) -> i64
    requires kept { IsInstance (of_entries units.now pairs.now) }
    requires layer { k < length units.now }
    requires before { before.now ≡ limits_at units.now pairs.now k }
    requires row { row.now ≡ row_at (rows_of (length units.now) pairs.now) k }
    requires entry { i < length row.now }
    ensures { result ≡ slice_index_or (limits_at units.now pairs.now (k + 1)) i (pos 0) }
{
    let next = i + 1;
    let limit = before[next];
    limit + pair_limit(row[i])
}

/// What two variables give at most.
pub(crate) fn pair_limit(pair: PairValues) -> i64
    ensures { result ≡ pair_most pair }
{
    pair.most
}

/// What a variable gives at most.
fn unit_limit(unit: UnitValues) -> i64
    ensures { result ≡ unit_most unit }
{
    unit.most
}
