//! The arcs of the joined root.

ghost use Rattle.std.specs.Prelude.{◌≡◌, ◌<◌, ◌+◌, ◌%◌, ◌^◌, [], length, unwrap_or, IfOk, IsTrue, OnOk};
ghost use Rattle.bound_cover.specs.Exploring.{layer_of};
ghost use Rattle.cover_text.specs.Texts.{text_in};
ghost use Rattle.cover_join.specs.Joined.{joined_arcs, joined_target, root_arcs, shifted, target_for};
ghost use Rattle.cover_join.specs.Joining.{answer_of, answers_in, arcs_below};

use crate::finding::root_arcs;
use bound_cover::{Cover, CoverArc};
use cover_text::CoverText;
use dp_model::{DpModel, OutOfMemory};
use std::alloc::Global;

/// The target of the first arc of the decision; none where there is no such arc.
fn target_for(decision: u32, arcs: &[CoverArc]) -> Option<u32>
    ensures { result ≡ target_for decision arcs.now }
{
    let mut rest = arcs;
    while let [arc, after @ ..] = rest {
        if arc.decision == decision {
            return arc.target;
        }
        rest = after;
    }
    None
}

/// The target after this number of further rows, where it is a number of 32 bits.
pub(crate) fn shifted(before: u32, target: Option<u32>) -> Result<Option<u32>, OutOfMemory>
    ensures { IfOk result (λ t. t ≡ shifted before target) }
{
    match target {
        None => Ok(None),
        Some(row) => match before.checked_add(row) {
            Some(row) => Ok(Some(row)),
            None => Err(OutOfMemory),
        },
    }
}

/// How many rows a layer has; 0 where the layer does not exist.
#[tactic(auto, using(crate::proofs::Rows::no_rows))]
pub(crate) fn rows_of(cover: &Cover, layer: usize) -> usize
    ensures count { result ≡ length (layer_of cover.now layer) }
    ensures small { result < 2 ^ 32 }
{
    if layer >= cover.layers() {
        return 0;
    }
    cover.rows(layer)
}

/// This number of rows and those of the layer, where it is a number of 32 bits.
pub(crate) fn with_rows(before: u32, cover: &Cover, layer: usize) -> Result<u32, OutOfMemory>
    ensures { IfOk result (λ count. count ≡ before + length (layer_of cover.now layer)) }
{
    match before.checked_add(rows_of(cover, layer) as u32) {
        Some(count) => Ok(count),
        None => Err(OutOfMemory),
    }
}

/// The target of the decision in the part of the text, after this number of further rows.
fn part_target<M: DpModel>(
    model: &M,
    root: &[i64],
    decision: u32,
    before: u32,
    text: &CoverText,
) -> Result<Option<u32>, OutOfMemory>
    requires { root.now ≡ (M.meaning (M.numbers model.now)).root }
    ensures { IfOk result (λ t. t ≡ shifted before (target_for decision (unwrap_or (root_arcs (M.meaning (M.numbers model.now)) (answer_of (text_in text.now))) []))) }
{
    match root_arcs(model, root, text) {
        None => Ok(None),
        Some(arcs) => shifted(before, target_for(decision, arcs)),
    }
}

/// The target of the decision in the joined cover: that of its part, after the rows of the parts before it.
#[tactic(auto, using(crate::proofs::ArcSteps::target_steps))]
fn joined_target<M: DpModel>(
    model: &M,
    root: &[i64],
    decision: u32,
    of: u32,
    texts: &[CoverText],
) -> Result<Option<u32>, OutOfMemory>
    requires root { root.now ≡ (M.meaning (M.numbers model.now)).root }
    requires some { 0 < of }
    ensures { IfOk result (λ t. t ≡ joined_target (M.meaning (M.numbers model.now)) decision (decision % of) 0 (answers_in texts.now)) }
{
    let mut rest = texts;
    let mut left = decision % of;
    let mut before = 0;
    while let [text, after @ ..] = rest {
        if left == 0 {
            return part_target(model, root, decision, before, text);
        }
        left -= 1;
        before = with_rows(before, &text.cover, 1)?;
        rest = after;
    }
    Ok(None)
}

/// Adds the arc of the decision, where the root allows it.
#[tactic(auto, using(crate::proofs::ArcSteps::arc_steps))]
fn push_arc<M: DpModel>(
    model: &M,
    root: &[i64],
    decision: u32,
    of: u32,
    texts: &[CoverText],
    arcs: &mut Vec<CoverArc>,
) -> Result<(), OutOfMemory>
    requires root { root.now ≡ (M.meaning (M.numbers model.now)).root }
    requires state { IsTrue ((M.meaning (M.numbers model.now)).is_state 0 root.now) }
    requires some { 0 < of }
    requires parts { length texts.now ≡ of }
    requires layer { 0 < (M.meaning (M.numbers model.now)).vars }
    requires choice { decision < (M.meaning (M.numbers model.now)).choices 0 }
    requires before { arcs.old.items ≡ arcs_below (M.meaning (M.numbers model.now)) (answers_in texts.now) decision }
    ensures { OnOk result (arcs.new.items ≡ arcs_below (M.meaning (M.numbers model.now)) (answers_in texts.now) (decision + 1)) }
{
    if model.allowed(0, root, decision) {
        let target = joined_target(model, root, decision, of, texts)?;
        arcs.push(CoverArc { decision, target })?;
    }
    Ok(())
}

/// The arcs of the joined root, in order of decisions.
pub(crate) fn joined_arcs<M: DpModel>(
    alloc: Global,
    model: &M,
    root: &[i64],
    of: u32,
    texts: &[CoverText],
) -> Result<Vec<CoverArc>, OutOfMemory>
    requires root { root.now ≡ (M.meaning (M.numbers model.now)).root }
    requires state { IsTrue ((M.meaning (M.numbers model.now)).is_state 0 root.now) }
    requires some { 0 < of }
    requires parts { length texts.now ≡ of }
    requires layer { 0 < (M.meaning (M.numbers model.now)).vars }
    ensures { IfOk result (λ arcs. arcs.items ≡ joined_arcs (M.meaning (M.numbers model.now)) (answers_in texts.now)) }
{
    let mut arcs = Vec::new(alloc);
    for decision in 0..model.choices(0) {
        push_arc(model, root, decision, of, texts, &mut arcs)?;
    }
    Ok(arcs)
}
