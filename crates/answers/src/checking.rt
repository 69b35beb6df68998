ghost use Rattle.std.specs.Prelude.{◌^◌, ◌-◌, ◌<◌, ℕ, ℤ, List, Option, length};
ghost use Rattle.dp_model.specs.Distances.{IsDistance};
ghost use Rattle.cover_text.specs.Texts.{held_with, opened_in};
ghost use Rattle.problem_names.specs.Parts.{MayBePart};
ghost use Rattle.problem_theory.specs.Theory.{Agrees};
ghost use Rattle.problems.specs.Theories.{theory_of};
ghost use Rattle.answers.specs.Checks.{IsChecked, Checks, ChecksOpened, RefusesCover, RefusesInstance, ToSections};
ghost use Rattle.answers.specs.Parts.{own_in, program_in};

use crate::parting::part_of;
use cover_text::{CoverError, OpenCover, open_cover};
use dp_model::DpModel;
use problem_theory::{InstanceRefusal, Problem, ReadInstanceError};
use problems::by_name;
use solver_report::Answer;
use std::alloc::Global;
use tokens::{InstanceError, InstanceFault};

/// The answer to a whole output with a cover: the verdict, or the first fault of its text, or else that of its instance. It tests the
/// sections as it reads them, two layers at a time, so that it needs little memory.
pub fn check(alloc: Global, text: &[u8]) -> Answer
    requires { length text.now < 2 ^ 32 - 1 }
    ensures { IsChecked text.now result }
{
    match open_cover(alloc, text) {
        Ok(text) => check_open(alloc, &text),
        Err(fault) => refused(fault),
    }
}

/// The answer to a fault of the text.
pub(crate) fn refused(fault: CoverError) -> Answer
    ensures { RefusesCover fault result }
{
    match fault {
        CoverError::Text(fault) => Answer::CoverRefused(InstanceError::from(fault)),
        CoverError::Word(place) => Answer::CoverRefused(InstanceError {
            fault: InstanceFault::Word,
            place,
        }),
        CoverError::OutOfMemory => Answer::OutOfMemory,
    }
}

/// The answer to a text up to its sections, which names its problem.
fn check_open(alloc: Global, text: &OpenCover<'_>) -> Answer
    requires part { MayBePart text.now.part }
    requires distance { IsDistance text.now.within }
    requires instance { length text.now.instance.now < 2 ^ 32 - 1 }
    requires before { length text.now.before.now < 2 ^ 32 - 1 }
    requires following { length text.now.following.now < 2 ^ 32 - 1 }
    ensures { ChecksOpened (theory_of text.now.model) (opened_in text.now) result }
{
    by_name!(text.model, check_instance(alloc, text))
}

/// The verdict on a text up to its sections, for this problem.
fn check_instance<P: Problem>(alloc: Global, text: &OpenCover<'_>) -> Answer
    requires part { MayBePart text.now.part }
    requires distance { IsDistance text.now.within }
    requires instance { length text.now.instance.now < 2 ^ 32 - 1 }
    requires before { length text.now.before.now < 2 ^ 32 - 1 }
    requires following { length text.now.following.now < 2 ^ 32 - 1 }
    ensures { ChecksOpened P.theory (opened_in text.now) result }
{
    match P::read(alloc, text.instance) {
        Ok(model) => check_meant(alloc, model, text),
        Err(ReadInstanceError::Refused(refusal)) => refuse_instance(alloc, refusal, text),
        Err(ReadInstanceError::OutOfMemory) => Answer::OutOfMemory,
    }
}

/// The fault of the instance, where the sections have none.
fn refuse_instance(alloc: Global, refusal: InstanceRefusal, text: &OpenCover<'_>) -> Answer
    requires before { length text.now.before.now < 2 ^ 32 - 1 }
    requires following { length text.now.following.now < 2 ^ 32 - 1 }
    ensures { ToSections (opened_in text.now) (λ _. RefusesInstance refusal) result }
{
    match text.read(alloc) {
        Ok(_) => Answer::Refused(refusal),
        Err(fault) => refused(fault),
    }
}

/// The verdict on the sections, for the instance, or for the part of it that is meant.
fn check_meant<P: Problem>(alloc: Global, model: P, text: &OpenCover<'_>) -> Answer
    requires part { MayBePart text.now.part }
    requires distance { IsDistance text.now.within }
    requires before { length text.now.before.now < 2 ^ 32 - 1 }
    requires following { length text.now.following.now < 2 ^ 32 - 1 }
    ensures { ToSections (opened_in text.now) (λ cover. Checks (program_in text.now.part (P.meaning (P.numbers model))) (own_in text.now.part (P.theory.own_value (P.numbers model))) (held_with (opened_in text.now) cover)) result }
{
    let Some(number) = text.part else {
        return check_sections(alloc, &model, text);
    };
    match part_of(alloc, model, number) {
        Ok((_, part)) => check_sections(alloc, &part, text),
        Err(_) => Answer::OutOfMemory,
    }
}

/// The verdict on the sections, for this program, in any own words that agree with it.
fn check_sections<M: DpModel>(alloc: Global, model: &M, text: &OpenCover<'_>) -> Answer
    requires distance { IsDistance text.now.within }
    requires before { length text.now.before.now < 2 ^ 32 - 1 }
    requires following { length text.now.following.now < 2 ^ 32 - 1 }
    ensures { (own : List ℕ → Option ℤ) → Agrees (M.meaning (M.numbers model.now)) own → ToSections (opened_in text.now) (λ cover. Checks (M.meaning (M.numbers model.now)) own (held_with (opened_in text.now) cover)) result }
{
    match text.check(alloc, model) {
        Ok(verdict) => Answer::Checked(verdict),
        Err(fault) => refused(fault),
    }
}
