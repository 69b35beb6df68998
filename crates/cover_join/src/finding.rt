//! The greatest value of the parts, and the root rows of their covers.

ghost use Rattle.std.specs.Prelude.{◌≡◌, ◌<◌, ◌+ℤ◌, int_le, cond, length, slice_get, Some, option_map, IfOk};
ghost use Rattle.dp_model.specs.Rows.{row_same};
ghost use Rattle.bound_cover.specs.Tests.{is_at_most};
ghost use Rattle.bound_cover.specs.Exploring.{layer_of, rest_of};
ghost use Rattle.cover_text.specs.Texts.{text_in};
ghost use Rattle.cover_join.specs.Joined.{best_answer, is_root_row, root_arcs, have_arcs};
ghost use Rattle.cover_join.specs.Joining.{answer_of, answers_in};

use crate::arcs::rows_of;
use bound_cover::{CoverArc, is_at_most, is_sum_within};
use cover_text::CoverText;
use dp_model::{DpModel, OutOfMemory, row_same};

/// The text with the greater value; the first one of two that have the same value.
fn better<'t>(one: &'t CoverText, other: &'t CoverText) -> &'t CoverText
    ensures { answer_of (text_in result.now) ≡ cond (is_at_most other.now.best one.now.best) (answer_of (text_in one.now)) (answer_of (text_in other.now)) }
{
    if is_at_most(other.best, one.best) {
        one
    } else {
        other
    }
}

/// The first of the texts with the greatest value.
pub(crate) fn best_of<'t>(first: &'t CoverText, more: &'t [CoverText]) -> &'t CoverText
    ensures { answer_of (text_in result.now) ≡ best_answer (answer_of (text_in first.now)) (answers_in more.now) }
{
    let mut best = first;
    let mut rest = more;
    while let [next, after @ ..] = rest {
        best = better(best, next);
        rest = after;
    }
    best
}

/// Whether a bound is at most what the value leaves above that of the root.
#[tactic(auto, using(crate::proofs::RootRows::within_rest))]
fn is_within(bound: Option<i64>, best: Option<i64>, root_value: i64) -> bool
    ensures { result ≡ is_at_most bound (rest_of best root_value) }
{
    let Some(bound) = bound else {
        return true;
    };
    let Some(best) = best else {
        return false;
    };
    is_sum_within(bound, root_value, best)
}

/// Whether the row of the first layer is the root, with a bound within what the value leaves.
#[tactic(auto, using(crate::proofs::RootRows::root_seen))]
fn is_root_row<M: DpModel>(model: &M, root: &[i64], text: &CoverText, row: usize) -> bool
    requires root { root.now ≡ (M.meaning (M.numbers model.now)).root }
    requires there { row < length (layer_of text.now.cover 0) }
    ensures { option_map (is_root_row (M.meaning (M.numbers model.now)) text.now.best) (slice_get (layer_of text.now.cover 0) row) ≡ Some result }
{
    row_same(text.cover.words(0, row), root)
        && is_within(text.cover.bound(0, row), text.best, model.root_value())
}

/// The arcs of the first row that is the root within the value; none where it has no arc part, or there is no such row.
#[tactic(auto, using(crate::proofs::RootRows::root_steps))]
pub(crate) fn root_arcs<'t, M: DpModel>(
    model: &M,
    root: &[i64],
    text: &'t CoverText,
) -> Option<&'t [CoverArc]>
    requires { root.now ≡ (M.meaning (M.numbers model.now)).root }
    ensures { option_map (λ a. a.now) result ≡ root_arcs (M.meaning (M.numbers model.now)) (answer_of (text_in text.now)) }
{
    for row in 0..rows_of(&text.cover, 0) {
        if is_root_row(model, root, text, row) {
            return text.cover.arcs(0, row);
        }
    }
    None
}

/// Whether the root row of each part has arcs.
pub(crate) fn have_arcs<M: DpModel>(model: &M, root: &[i64], texts: &[CoverText]) -> bool
    requires { root.now ≡ (M.meaning (M.numbers model.now)).root }
    ensures { result ≡ have_arcs (M.meaning (M.numbers model.now)) (answers_in texts.now) }
{
    let mut rest = texts;
    while let [text, after @ ..] = rest {
        if root_arcs(model, root, text).is_none() {
            return false;
        }
        rest = after;
    }
    true
}

/// What the value leaves above that of the root, where it is a number of 64 bits.
pub(crate) fn rest_of(best: Option<i64>, root_value: i64) -> Result<Option<i64>, OutOfMemory>
    ensures { IfOk result (λ rest. rest ≡ rest_of best root_value) }
{
    match best {
        None => Ok(None),
        Some(best) => match best.checked_sub(root_value) {
            Some(rest) => Ok(Some(rest)),
            None => Err(OutOfMemory),
        },
    }
}
