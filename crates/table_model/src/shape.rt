//! The limits of a layer.

ghost use Rattle.std.specs.Prelude.{◌≡◌, ◌-ℤ◌, pos, map};
ghost use Rattle.std.specs.List.{list_all};
ghost use Rattle.table_model.specs.Shape.{is_small, is_row, is_grid, is_count, has_gaps, has_merges, has_rough_bounds, are_states, are_alike, alike_at, row_alike, are_all_alike, has_nexts, has_gains, are_decisions, is_last, is_layer};

use crate::cells::Cell;
use crate::layer::Layer;

/// The most states of a layer, and the most decisions of a state.
pub(crate) const MOST_STATES: u32 = 32;

// Numbers are at most 2^50 in size.
const MOST: i64 = 1 << 50;

const LEAST: i64 = -(1 << 50);

/// Whether a number is at most 2^50 in size.
pub(crate) fn is_small(number: i64) -> bool
    ensures { result ≡ is_small number }
{
    LEAST <= number && number <= MOST
}

/// Whether each cell is null or between the two numbers.
#[tactic(auto, using(crate::proofs::Grids::all_next, crate::proofs::Grids::all_not))]
fn are_between<T: Cell>(row: &[T], least: i64, most: i64) -> bool
    ensures { result ≡ list_all (T.between least most) row.now }
{
    'cells: for cell in row {
        if !cell.is_between(least, most) {
            return false;
        }
    }
    true
}

/// Whether there are this many cells, each of them null or between the two numbers.
fn is_row<T: Cell>(row: &[T], width: u32, least: i64, most: i64) -> bool
    ensures { result ≡ is_row (T.between least most) width row.now }
{
    row.len() == width as usize && are_between(row, least, most)
}

/// Whether each row has this many cells, each of them null or between the two numbers.
#[tactic(auto, using(crate::proofs::Grids::pass_next, crate::proofs::Grids::pass_not, crate::proofs::Grids::pass_end))]
fn are_rows<T: Cell>(rows: &[Vec<T>], width: u32, least: i64, most: i64) -> bool
    ensures { result ≡ list_all (is_row (T.between least most) width) (map (λ r. r.items) rows.now) }
{
    'rows: for row in rows {
        if !is_row(row.as_slice(), width, least, most) {
            return false;
        }
    }
    true
}

/// Whether there are this many rows of this many cells, each of them null or between the two numbers.
fn is_grid<T: Cell>(rows: &[Vec<T>], height: u32, width: u32, least: i64, most: i64) -> bool
    ensures { result ≡ is_grid (T.between least most) height width (map (λ r. r.items) rows.now) }
{
    rows.len() == height as usize && are_rows(rows, width, least, most)
}

/// Whether a number is from 1 to 32.
fn is_count(number: u32) -> bool
    ensures { result ≡ is_count number }
{
    1 <= number && number <= MOST_STATES
}

/// The number of the last of this many states.
fn last_of(states: u32) -> i64
    ensures { result ≡ pos states -ℤ pos 1 }
{
    i64::from(states) - 1
}

/// Whether the layer has a gap from 0 to 2^50, or null, for each two of its states.
fn has_gaps(layer: &Layer) -> bool
    ensures { result ≡ has_gaps layer.now }
{
    is_grid(layer.gap.as_slice(), layer.states, layer.states, 0, MOST)
}

/// Whether the layer has one of its states for each two of them.
fn has_merges(layer: &Layer) -> bool
    ensures { result ≡ has_merges layer.now }
{
    let last = last_of(layer.states);
    is_grid(layer.merge.as_slice(), layer.states, layer.states, 0, last)
}

/// Whether the layer has a small rough bound, or null, for each of its states.
fn has_rough_bounds(layer: &Layer) -> bool
    ensures { result ≡ has_rough_bounds layer.now }
{
    is_row(layer.rough.as_slice(), layer.states, LEAST, MOST)
}

/// Whether the layer has gaps, merges and rough bounds for its states.
fn are_states(layer: &Layer) -> bool
    ensures { result ≡ are_states layer.now }
{
    is_count(layer.states) && has_gaps(layer) && has_merges(layer) && has_rough_bounds(layer)
}

/// Whether both or none of the two are null.
fn are_alike(next: Option<u32>, gain: Option<i64>) -> bool
    ensures { result ≡ are_alike next gain }
{
    match (next, gain) {
        (None, None) | (Some(_), Some(_)) => true,
        _ => false,
    }
}

/// Whether the decision has a gain exactly where it has a next state.
fn is_alike(layer: &Layer, s: u32, d: u32) -> bool
    ensures { result ≡ alike_at layer.now s d }
{
    let next = layer.next(s as usize, d as usize);
    let gain = layer.gain(s as usize, d as usize);
    are_alike(next, gain)
}

/// Whether each decision of the state has a gain exactly where it has a next state.
#[tactic(auto, using(crate::proofs::Firsts::holds_next, crate::proofs::Firsts::holds_not))]
fn is_row_alike(layer: &Layer, s: u32) -> bool
    ensures { result ≡ row_alike layer.now s }
{
    let choices = layer.choices;
    'choices: for d in 0..choices {
        if !is_alike(layer, s, d) {
            return false;
        }
    }
    true
}

/// Whether each decision has a gain exactly where it has a next state.
#[tactic(auto, using(crate::proofs::Firsts::holds_next, crate::proofs::Firsts::holds_not))]
fn are_all_alike(layer: &Layer) -> bool
    ensures { result ≡ are_all_alike layer.now }
{
    let states = layer.states;
    'states: for s in 0..states {
        if !is_row_alike(layer, s) {
            return false;
        }
    }
    true
}

/// Whether the layer has one of this many next states, or null, for each decision.
fn has_nexts(after: u32, layer: &Layer) -> bool
    ensures { result ≡ has_nexts after layer.now }
{
    let last = last_of(after);
    is_grid(layer.next.as_slice(), layer.states, layer.choices, 0, last)
}

/// Whether the layer has a small gain, or null, for each decision.
fn has_gains(layer: &Layer) -> bool
    ensures { result ≡ has_gains layer.now }
{
    is_grid(
        layer.gain.as_slice(),
        layer.states,
        layer.choices,
        LEAST,
        MOST,
    )
}

/// Whether the layer has next states, among this many, and gains for its decisions.
fn are_decisions(after: u32, layer: &Layer) -> bool
    ensures { result ≡ are_decisions after layer.now }
{
    is_count(layer.choices) && has_nexts(after, layer) && has_gains(layer) && are_all_alike(layer)
}

/// Whether the layer has no decisions.
fn is_last(layer: &Layer) -> bool
    ensures { result ≡ is_last layer.now }
{
    layer.choices == 0 && layer.next.is_empty() && layer.gain.is_empty()
}

/// Whether the layer is within the limits, where the next one has this many states, and 0 says that there is none.
pub(crate) fn is_layer(after: u32, layer: &Layer) -> bool
    ensures { result ≡ is_layer after layer.now }
{
    are_states(layer)
        && if after == 0 {
            is_last(layer)
        } else {
            are_decisions(after, layer)
        }
}
