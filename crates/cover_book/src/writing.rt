//! A cover under way becomes a `Cover`, whose bounds are within the range that its text can hold.

ghost use Rattle.std.specs.Prelude.{◌≡◌, ◌+◌, ◌-◌, ◌^◌, ◌<◌, ◌≤◌, ◌≤ℤ◌, ◌++◌, ◌∷◌, [], IfOk, OnOk, map, length, option_map, Option};
ghost use Rattle.bound_cover.specs.Clamping.{lowest, highest, clamped, clamped_row, clamped_layers};
ghost use Rattle.bound_cover.specs.Stored.{last_layer, with_row};

use crate::drafting::{DraftLayer, DraftRow};
use bound_cover::{Cover, MOST_ROWS};
use dp_model::{DpModel, OutOfMemory};
use std::alloc::Global;

/// The unit of the range of bounds: the greatest gain of an arc, with its gap, is twice this.
const UNIT: i64 = 1 << 50;

/// How many units the least bound of the first layer lies below 0.
const LEAST_UNITS: i64 = 1027;

/// The least bound of a layer.
pub(crate) fn lowest(k: usize) -> i64
    requires { k ≤ 1024 }
    ensures { result ≡ lowest k }
{
    -((LEAST_UNITS + 2 * k as i64) * UNIT)
}

/// The greatest bound of a layer.
pub(crate) fn highest<M: DpModel>(model: &M, k: usize) -> i64
    requires { k ≤ (M.meaning (M.numbers model.now)).vars }
    ensures { result ≡ highest (M.meaning (M.numbers model.now)) k }
{
    (2 * (model.vars() - k) as i64 + 1) * UNIT
}

/// A number that is brought between two others.
fn clamped(low: i64, high: i64, bound: i128) -> i64
    ensures { result ≡ clamped low high bound }
{
    if bound <= i128::from(low) {
        return low;
    }
    if i128::from(high) <= bound {
        return high;
    }
    bound as i64
}

/// A bound that is brought between two numbers; none stays.
pub(crate) fn clamped_bound(low: i64, high: i64, bound: Option<i128>) -> Option<i64>
    ensures { result ≡ option_map (clamped low high) bound }
{
    let bound = bound?;
    Some(clamped(low, high, bound))
}

/// Adds a layer with the rows of one under way, at depth `k`.
fn add_layer<M: DpModel>(
    model: &M,
    k: usize,
    layer: &DraftLayer,
    cover: &mut Cover,
) -> Result<(), OutOfMemory>
    requires { k ≤ (M.meaning (M.numbers model.now)).vars }
    ensures { OnOk result (cover.new ≡ cover.old ++ map (clamped_row (M.meaning (M.numbers model.now)) k) layer.now ∷ []) }
{
    let low = lowest(k);
    let high = highest(model, k);
    let count = layer.len();
    cover.add_layer()?;
    'rows: for i in 0..count {
        if i >= MOST_ROWS {
            return Err(OutOfMemory);
        }
        let row = layer.row(i);
        add_row(low, high, row, cover)?;
    }
    Ok(())
}

/// Adds a row to the last layer, its bound brought between two numbers.
fn add_row(low: i64, high: i64, row: &DraftRow, cover: &mut Cover) -> Result<(), OutOfMemory>
    requires layer { 0 < length cover.old }
    requires few { length (last_layer cover.old) < 2 ^ 32 - 1 }
    ensures { OnOk result (cover.new ≡ with_row cover.old (record { bound = option_map (clamped low high) row.now.bound; words = row.now.words; arcs = row.now.arcs })) }
{
    let bound = clamped_bound(low, high, row.bound);
    match &row.arcs {
        None => cover.add_row(bound, row.words.as_slice(), None),
        Some(arcs) => cover.add_row(bound, row.words.as_slice(), Some(arcs.as_slice())),
    }
}

/// The cover of the rows.
pub(crate) fn write_cover<M: DpModel>(
    alloc: Global,
    model: &M,
    rows: &[DraftLayer],
) -> Result<Cover, OutOfMemory>
    requires { length rows.now ≡ (M.meaning (M.numbers model.now)).vars + 1 }
    ensures { IfOk result (λ cover. cover ≡ clamped_layers (M.meaning (M.numbers model.now)) 0 rows.now) }
{
    let mut cover = Cover::new(alloc);
    'layers: for k in 0..rows.len() {
        add_layer(model, k, &rows[k], &mut cover)?;
    }
    Ok(cover)
}
