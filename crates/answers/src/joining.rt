//! The outputs of the parts of a problem, joined to one.

ghost use Rattle.std.specs.Prelude.{◌≡◌, ℕ, ℤ, ◌<◌, ◌≤◌, ◌-◌, ◌^◌, [], ◌∷◌, true, pos, length, vec_len, List, Option, None, Ok, IfOk, MatchResult};
ghost use Rattle.bound_cover.specs.Clamping.{AreWritable, IsWritable};
ghost use Rattle.bound_cover.specs.Exploring.{layer_of};
ghost use Rattle.bound_cover.specs.Verdicts.{verdict};
ghost use Rattle.bound_cover.specs.declared.cover.Verdict.TheVariants.{Accepted};
ghost use Rattle.cover_join.specs.Joining.{Fails, join_fault, texts_in};
ghost use Rattle.cover_text.specs.Outputs.{printed_whole};
ghost use Rattle.cover_text.specs.Texts.{CoverTextView, text_in};
ghost use Rattle.cover_text.specs.Written.{IsWritten};
ghost use Rattle.dp_model.specs.Dp.{Dp};
ghost use Rattle.dp_model.specs.Lists.{Each};
ghost use Rattle.problems.specs.Theories.{theory_of};
ghost use Rattle.answers.specs.Checks.{RefusesInstance};
ghost use Rattle.answers.specs.Joins.{IsClaimOf, IsJoined, JoinsIn, JoinsTexts, TellsWhole};

use crate::checking::refused;
use crate::covering::{Subject, push_head};
use bound_cover::{Cover, MOST_BOUND};
use cover_join::{JoinError, join};
use cover_text::{CoverText, push_cover, read_covers};
use dp_model::{DpModel, Found, OutOfMemory};
use problem_theory::{Problem, ReadInstanceError};
use problems::by_name;
use solver_report::{Answer, JoinRefusal, Outcome, Solution};
use std::alloc::Global;
use std::sync::Arc;

/// The answer to outputs of the parts of a problem, one after another: the output of the whole problem, or the first fault: of a text, or
/// else of the first instance, or else of the parts.
pub fn join_texts(alloc: Global, bytes: &[u8]) -> Answer
    requires { length bytes.now < 2 ^ 32 - 1 }
    ensures { IsJoined bytes.now result }
{
    match read_covers(alloc, bytes) {
        Ok(texts) => join_read(alloc, texts.as_slice(), bytes.len()),
        Err(fault) => refused(fault),
    }
}

/// The answer to texts, of which the first one names the problem.
fn join_read(alloc: Global, texts: &[CoverText], most: usize) -> Answer
    requires most { most < 2 ^ 32 - 1 }
    requires inside { Each (λ t. vec_len t.instance ≤ most) texts.now }
    ensures { JoinsTexts (texts_in texts.now) result }
{
    let [first, more @ ..] = texts else {
        return Answer::PartsRefused(JoinRefusal::Order { index: 0 });
    };
    by_name!(first.model, join_instance(alloc, texts, first, more))
}

/// The answer to texts for this problem.
fn join_instance<P: Problem>(
    alloc: Global,
    texts: &[CoverText],
    first: &CoverText,
    more: &[CoverText],
) -> Answer
    requires texts { texts.now ≡ first.now ∷ more.now }
    requires named { theory_of first.now.model ≡ P.theory }
    requires instance { vec_len first.now.instance < 2 ^ 32 - 1 }
    ensures { MatchResult (P.theory.spelled first.now.instance.items) (λ numbers. JoinsIn (P.theory.program numbers) (P.theory.own_value numbers) (text_in first.now) (texts_in texts.now) result) (λ e. RefusesInstance e result) }
{
    match P::read(alloc, first.instance.as_slice()) {
        Ok(model) => join_model(alloc, model, texts, first, more),
        Err(ReadInstanceError::Refused(refusal)) => Answer::Refused(refusal),
        Err(ReadInstanceError::OutOfMemory) => Answer::OutOfMemory,
    }
}

/// The answer to texts for this instance.
fn join_model<P: Problem>(
    alloc: Global,
    model: P,
    texts: &[CoverText],
    first: &CoverText,
    more: &[CoverText],
) -> Answer
    requires texts { texts.now ≡ first.now ∷ more.now }
    requires named { theory_of first.now.model ≡ P.theory }
    requires spelled { P.theory.spelled first.now.instance.items ≡ Ok (P.numbers model) }
    requires instance { vec_len first.now.instance < 2 ^ 32 - 1 }
    ensures { JoinsIn (P.meaning (P.numbers model)) (P.theory.own_value (P.numbers model)) (text_in first.now) (texts_in texts.now) result }
{
    let Ok(model) = Arc::new(alloc, model) else {
        return Answer::OutOfMemory;
    };
    match join(alloc, &model, texts) {
        Ok(whole) => told_whole(alloc, &*model, &whole),
        Err(error) => join_refused(error),
    }
}

/// The answer to a fault of the parts.
fn join_refused(error: JoinError) -> Answer
    ensures { (dp : Dp) (own : List ℕ → Option ℤ) (first : CoverTextView) (texts : List CoverTextView) → Fails error (join_fault dp texts) → JoinsIn dp own first texts result }
{
    match error {
        JoinError::Order { index } => Answer::PartsRefused(JoinRefusal::Order { index }),
        JoinError::Instance { index } => Answer::PartsRefused(JoinRefusal::Instance { index }),
        JoinError::Refused { index, why } => Answer::PartsRefused(JoinRefusal::Refused {
            index,
            why,
        }),
        JoinError::OutOfMemory => Answer::OutOfMemory,
    }
}

/// The answer with the text of a whole problem, which the check accepts.
fn told_whole<P: Problem>(alloc: Global, model: &P, whole: &CoverText) -> Answer
    requires named { theory_of whole.now.model ≡ P.theory }
    requires spelled { P.theory.spelled whole.now.instance.items ≡ Ok (P.numbers model.now) }
    requires instance { vec_len whole.now.instance < 2 ^ 32 - 1 }
    requires accepted { verdict (P.meaning (P.numbers model.now)) whole.now.best (pos 0) whole.now.assignment.items whole.now.cover ≡ Accepted }
    ensures { TellsWhole (P.meaning (P.numbers model.now)) (P.theory.own_value (P.numbers model.now)) whole.now.model whole.now.instance.items result }
{
    let Ok(outcome) = outcome_of(alloc, whole) else {
        return Answer::OutOfMemory;
    };
    match whole_text(alloc, model, whole) {
        Ok(text) => Answer::Covered(outcome, None, Some(text)),
        Err(_) => Answer::OutOfMemory,
    }
}

/// What the text tells, with the distance 0. Fails only for want of memory.
fn outcome_of(alloc: Global, whole: &CoverText) -> Result<Outcome, OutOfMemory>
    ensures { IfOk result (λ outcome. IsClaimOf whole.now.best whole.now.assignment.items outcome) }
{
    let Some(value) = whole.best else {
        return Ok(Outcome::Infeasible);
    };
    let decisions = whole.assignment.as_slice();
    let best = Solution::copy_of(alloc, Found { value, decisions })?;
    Ok(Outcome::Proved { best, within: 0 })
}

/// The cover of the text, printed. Fails only for want of memory, or for a bound that a text cannot hold.
fn whole_text<P: Problem>(
    alloc: Global,
    model: &P,
    whole: &CoverText,
) -> Result<Vec<u8>, OutOfMemory>
    requires { vec_len whole.now.instance < 2 ^ 32 - 1 }
    ensures written { IfOk result (λ _. IsWritten whole.now.cover) }
    ensures printed { IfOk result (λ text. text.items ≡ printed_whole whole.now.model None whole.now.instance.items whole.now.cover) }
{
    if !are_writable(&whole.cover) {
        return Err(OutOfMemory);
    }
    let mut text = Vec::new(alloc);
    let subject = Subject {
        name: whole.model,
        part: None,
    };
    push_head(&mut text, subject, whole.instance.len())?;
    text.extend_from_slice(whole.instance.as_slice())?;
    push_cover(&mut text, model, &whole.cover)?;
    Ok(text)
}

/// Whether a text can hold the bound.
fn is_writable(bound: Option<i64>) -> bool
    ensures { result ≡ true → IsWritable bound }
{
    match bound {
        None => true,
        Some(bound) => -MOST_BOUND <= bound && bound <= MOST_BOUND,
    }
}

/// Whether a text can hold the bounds of a layer.
#[tactic(auto, using(crate::proofs::Writable::row_steps))]
fn is_layer_writable(cover: &Cover, layer: usize) -> bool
    requires { layer < length cover.now }
    ensures { result ≡ true → Each (λ row. IsWritable row.bound) (layer_of cover.now layer) }
{
    for row in 0..cover.rows(layer) {
        if !is_writable(cover.bound(layer, row)) {
            return false;
        }
    }
    true
}

/// Whether a text can hold all bounds of a cover.
#[tactic(auto, using(crate::proofs::Writable::layer_steps))]
fn are_writable(cover: &Cover) -> bool
    ensures { result ≡ true → AreWritable cover.now }
{
    for layer in 0..cover.layers() {
        if !is_layer_writable(cover, layer) {
            return false;
        }
    }
    true
}
