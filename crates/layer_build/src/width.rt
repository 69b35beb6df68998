//! How wide a layer may be, so that one worker's layers stay within their memory.

ghost use Rattle.std.specs.Prelude.{◌≡◌, ◌*◌, ◌≤◌};
ghost use Rattle.dp_laws.specs.Width.{cost_below, IsGreatestWidth};

use dp_model::{DpModel, MOST_COST, MOST_WIDTH};

/// What one node of each layer costs, in units of 8 bytes: four for each arc, and its row.
fn cost<M: DpModel>(model: &M) -> u64
    ensures { result ≡ cost_below (M.meaning (M.numbers model.now)) (M.meaning (M.numbers model.now)).vars }
{
    let words = model.words() as u64;
    let mut cost = 0;
    'layers: for k in 0..model.vars() {
        cost += 4 * u64::from(model.choices(k)) + words;
    }
    cost
}

/// The greatest width for the cost of the model.
fn width_within<M: DpModel>(model: &M) -> u32
    ensures { IsGreatestWidth (M.meaning (M.numbers model.now)) result }
{
    match MOST_COST.checked_div(cost(model)) {
        Some(width) => width.min(u64::from(MOST_WIDTH)) as u32,
        None => MOST_WIDTH,
    }
}

/// The greatest width of a diagram of the model: at most `MOST_WIDTH`, and the width times the sum over the layers of 4 times the
/// choices plus the words is at most `MOST_COST`. It is at least 1. The cost is a measure, and not the memory itself.
pub fn greatest_width<M: DpModel>(model: &M) -> u32
    ensures greatest { IsGreatestWidth (M.meaning (M.numbers model.now)) result }
    ensures some { 1 ≤ result }
{
    width_within(model)
}
