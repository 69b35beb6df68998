//! Texts of the parts of a problem, joined to the text of the whole problem.

ghost use Rattle.std.specs.Prelude.{◌≡◌, ℕ, ◌<◌, ◌≤◌, ◌^◌, [], ◌∷◌, length, map, pos, None, Some, option_map, IfOk, IfErr, OnOk, IsTrue};
ghost use Rattle.std.specs.Arc.{arc_value};
ghost use Rattle.dp_model.specs.Laws.{IsLawful};
ghost use Rattle.bound_cover.specs.Exploring.{layer_of};
ghost use Rattle.bound_cover.specs.Verdicts.{verdict};
ghost use Rattle.bound_cover.specs.declared.cover.Verdict.TheVariants.{Accepted};
ghost use Rattle.cover_text.specs.Texts.{text_in};
ghost use Rattle.cover_join.specs.Joined.{AreAccepted, best_answer, joined_cover, joined_root, rough_cover, shifted_row, whole_cover};
ghost use Rattle.cover_join.specs.Joining.{Fails, IsJoined, answer_of, answers_in, first_fault, join_fault, joined_text, parts_told, texts_in};

use crate::adding::{push_empty, push_layers, push_rows};
use crate::arcs::joined_arcs;
use crate::checking::checks_fault;
use crate::finding::{best_of, have_arcs, rest_of};
use crate::join_error::JoinError;
use crate::places::{parts_told, places_fault};
use bound_cover::{Cover, CoverArc};
use cover_text::CoverText;
use dp_model::{DpModel, OutOfMemory};
use std::alloc::Global;
use std::sync::Arc;

/// The laws of the problem. The call does nothing; a proof uses its clause.
fn laws_of<M: DpModel>(model: &M)
    ensures { IsLawful (M.meaning (M.numbers model.now)) }
{
    let _words = model.words();
}

/// The root of the problem.
fn root_of<M: DpModel>(alloc: Global, model: &M) -> Result<Vec<i64>, OutOfMemory>
    ensures { IfOk result (λ root. root.items ≡ (M.meaning (M.numbers model.now)).root) }
{
    let mut root = vec![in alloc; 0; model.words()]?;
    model.root(&mut root);
    Ok(root)
}

/// A cover of the root alone, with what the value leaves as its bound.
fn root_cover<M: DpModel>(
    alloc: Global,
    model: &M,
    root: &[i64],
    best: Option<i64>,
    arcs: Option<&[CoverArc]>,
) -> Result<Cover, OutOfMemory>
    requires { root.now ≡ (M.meaning (M.numbers model.now)).root }
    ensures { IfOk result (λ c. c ≡ (joined_root (M.meaning (M.numbers model.now)) best (option_map (λ a. a.now) arcs.entry) ∷ []) ∷ []) }
{
    let mut cover = Cover::new(alloc);
    cover.add_layer()?;
    let bound = rest_of(best, model.root_value())?;
    cover.add_row(bound, root, arcs)?;
    Ok(cover)
}

/// The cover with the arcs of all parts at the root, and below it the rows of all parts.
fn whole_cover<M: DpModel>(
    alloc: Global,
    model: &M,
    root: &[i64],
    best: Option<i64>,
    of: u32,
    texts: &[CoverText],
) -> Result<Cover, OutOfMemory>
    requires root { root.now ≡ (M.meaning (M.numbers model.now)).root }
    requires state { IsTrue ((M.meaning (M.numbers model.now)).is_state 0 root.now) }
    requires some { 0 < of }
    requires parts { length texts.now ≡ of }
    requires layer { 0 < (M.meaning (M.numbers model.now)).vars }
    requires few { (M.meaning (M.numbers model.now)).vars < 2 ^ 31 }
    ensures { IfOk result (λ c. c ≡ whole_cover (M.meaning (M.numbers model.now)) best (answers_in texts.now)) }
{
    let arcs = joined_arcs(alloc, model, root, of, texts)?;
    let mut cover = root_cover(alloc, model, root, best, Some(arcs.as_slice()))?;
    push_layers(alloc, &mut cover, model.vars(), texts)?;
    Ok(cover)
}

/// The cover with the root as a rough row, and further layers without rows.
fn rough_cover<M: DpModel>(
    alloc: Global,
    model: &M,
    root: &[i64],
    best: Option<i64>,
) -> Result<Cover, OutOfMemory>
    requires { root.now ≡ (M.meaning (M.numbers model.now)).root }
    ensures { IfOk result (λ c. c ≡ rough_cover (M.meaning (M.numbers model.now)) best) }
{
    let mut cover = root_cover(alloc, model, root, best, None)?;
    push_empty(&mut cover, model.vars())?;
    Ok(cover)
}

/// The cover of the first layer alone.
#[tactic(auto, using(crate::proofs::Rows::first_added))]
fn first_layer(alloc: Global, part: &Cover) -> Result<Cover, OutOfMemory>
    ensures { IfOk result (λ c. c ≡ map (shifted_row 0) (layer_of part.now 0) ∷ []) }
{
    let mut cover = Cover::new(alloc);
    cover.add_layer()?;
    push_rows(alloc, &mut cover, part, 0, 0)?;
    Ok(cover)
}

/// The joined cover of texts that are accepted, one for each part.
#[tactic(auto, using(crate::proofs::Faultless::joined_of_none, crate::proofs::Faultless::root_is_state, crate::proofs::Faultless::few_vars))]
fn joined_cover<M: DpModel>(
    alloc: Global,
    model: &M,
    best: Option<i64>,
    of: u32,
    texts: &[CoverText],
    first: &CoverText,
    more: &[CoverText],
) -> Result<Cover, OutOfMemory>
    requires texts { texts.now ≡ first.now ∷ more.now }
    requires parts { length texts.now ≡ of }
    requires best { best ≡ (best_answer (answer_of (text_in first.now)) (answers_in more.now)).best }
    requires accepted { AreAccepted (M.meaning (M.numbers model.now)) of 0 (answers_in texts.now) }
    ensures { IfOk result (λ c. c ≡ joined_cover (M.meaning (M.numbers model.now)) (answer_of (text_in first.now)) (answers_in more.now)) }
{
    laws_of(model);
    if model.vars() == 0 {
        let cover = first_layer(alloc, &first.cover)?;
        return Ok(cover);
    }
    let root = root_of(alloc, model)?;
    if have_arcs(model, root.as_slice(), texts) {
        whole_cover(alloc, model, root.as_slice(), best, of, texts)
    } else {
        rough_cover(alloc, model, root.as_slice(), best)
    }
}

/// The first fault of the texts. It fails only for want of memory.
#[tactic(auto, unfolding(crate::specs::Joining::first_fault), using(crate::proofs::Faultless::texts_long))]
fn fault_of<M: DpModel>(
    alloc: Global,
    model: &Arc<M>,
    first: &CoverText,
    parts: &[CoverText],
) -> Result<Option<JoinError>, OutOfMemory>
    ensures { IfOk result (λ fault. fault ≡ first_fault (M.meaning (M.numbers (arc_value model.now))) (text_in first.now) (texts_in parts.now)) }
{
    let of = parts_told(first);
    match places_fault(first, of, parts) {
        Some(fault) => Ok(Some(fault)),
        None => checks_fault(alloc, model, of, parts),
    }
}

/// The text of the whole problem, made of texts without a fault.
#[tactic(auto, using(crate::proofs::Faultless::told_long, crate::proofs::Faultless::told_accepted))]
fn join_checked<M: DpModel>(
    alloc: Global,
    model: &M,
    parts: &[CoverText],
    first: &CoverText,
    more: &[CoverText],
) -> Result<CoverText, OutOfMemory>
    requires texts { parts.now ≡ first.now ∷ more.now }
    requires none { first_fault (M.meaning (M.numbers model.now)) (text_in first.now) (texts_in parts.now) ≡ None }
    ensures { IfOk result (λ t. text_in t ≡ joined_text (M.meaning (M.numbers model.now)) (text_in first.now) (texts_in more.now)) }
{
    let best = best_of(first, more);
    let cover = joined_cover(
        alloc,
        model,
        best.best,
        parts_told(first),
        parts,
        first,
        more,
    )?;
    let assignment = best.assignment.as_slice().to_vec(alloc)?;
    let instance = first.instance.as_slice().to_vec(alloc)?;
    Ok(CoverText {
        model: first.model,
        part: None,
        best: best.best,
        within: 0,
        assignment,
        instance,
        cover,
    })
}

/// The text of the whole problem, made of texts without a fault, which the check accepts.
#[tactic(auto, using(crate::proofs::Faultless::joined_is_accepted))]
fn join_accepted<M: DpModel>(
    alloc: Global,
    model: &M,
    parts: &[CoverText],
    first: &CoverText,
    more: &[CoverText],
) -> Result<CoverText, OutOfMemory>
    requires texts { parts.now ≡ first.now ∷ more.now }
    requires none { first_fault (M.meaning (M.numbers model.now)) (text_in first.now) (texts_in parts.now) ≡ None }
    ensures joined { IfOk result (λ t. text_in t ≡ joined_text (M.meaning (M.numbers model.now)) (text_in first.now) (texts_in more.now)) }
    ensures accepted { IfOk result (λ t. verdict (M.meaning (M.numbers model.now)) t.best (pos 0) t.assignment.items t.cover ≡ Accepted) }
{
    let text = join_checked(alloc, model, parts, first, more)?;
    laws_of(model);
    Ok(text)
}

/// The text of the whole problem, made of one text for each of its parts, in order. The model is that of the first text's instance.
///
/// The first fault is answered: for each place from 0 on `Order` and then `Instance`, and then, from the part 0 on, `Refused`. The joined text
/// has the greatest value of the parts, and the assignment of the first part with that value; it has none where all parts are infeasible.
/// The check on the whole problem accepts it, so the value is the greatest one of the whole problem.
#[tactic(auto, using(crate::proofs::Faultless::fails_some))]
pub fn join<M: DpModel>(
    alloc: Global,
    model: &Arc<M>,
    parts: &[CoverText],
) -> Result<CoverText, JoinError>
    ensures refused { IfErr result (λ e. Fails e (join_fault (M.meaning (M.numbers (arc_value model.now))) (texts_in parts.now))) }
    ensures none { OnOk result (join_fault (M.meaning (M.numbers (arc_value model.now))) (texts_in parts.now) ≡ None) }
    ensures joined { IfOk result (λ t. IsJoined (M.meaning (M.numbers (arc_value model.now))) (texts_in parts.now) (text_in t)) }
    ensures accepted { IfOk result (λ t. verdict (M.meaning (M.numbers (arc_value model.now))) t.best (pos 0) t.assignment.items t.cover ≡ Accepted) }
{
    let [first, more @ ..] = parts else {
        return Err(JoinError::Order { index: 0 });
    };
    if let Some(fault) = fault_of(alloc, model, first, parts)? {
        return Err(fault);
    }
    Ok(join_accepted(alloc, &**model, parts, first, more)?)
}
