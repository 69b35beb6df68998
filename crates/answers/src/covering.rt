ghost use Rattle.std.specs.Prelude.{◌≡◌, ◌^◌, ◌<◌, ◌++◌, Ok, IfOk, OnOk};
ghost use Rattle.bound_cover.specs.Clamping.{IsReachable};
ghost use Rattle.bound_cover.specs.Exploring.{HoldsAll};
ghost use Rattle.cover_text.specs.Outputs.{cover_lines, part_lines, printed_lines};
ghost use Rattle.problem_names.specs.Parts.{MayBePart};
ghost use Rattle.problems.specs.Theories.{theory_of};
ghost use Rattle.solver_report.specs.Report.{AreSized};
ghost use Rattle.answers.specs.Answers.{IsReport};
ghost use Rattle.answers.specs.Covers.{IsCoverText, IsCoveredIn};
ghost use Rattle.answers.specs.Outcomes.{IsTrueOf};
ghost use Rattle.answers.specs.Parts.{own_in, program_in};

use crate::concluding::Conclusion;
use bound_cover::claim_of;
use cover_book::settle;
use cover_pages::CoverBook;
use cover_text::push_cover;
use dp_model::{DpModel, OutOfMemory};
use problem_names::{ModelName, PartNumber};
use problem_theory::Problem;
use solver_report::Answer;
use solver_words::JobSettings;
use std::alloc::Global;
use tokens::{push_number, push_text};

/// What is searched: an instance of the named problem, or a part of it.
#[derive(Clone, Copy, Debug, PartialEq, Eq)]
pub struct Subject {
    /// The problem.
    pub name: ModelName,
    /// The part of the instance. `None` if the whole is meant.
    pub part: Option<PartNumber>,
}

/// The answer to a search of an instance, or of a part of it, whose outcome is true: its report, followed by a cover if one is asked for and
/// the search went to its end. `model` is the instance, and `program` is what was searched. The cover is made of the diagrams in the books,
/// where they are diagrams of `program`; the answer is right whatever the books hold.
pub fn told<P: Problem, M: DpModel>(
    alloc: Global,
    subject: Subject,
    model: &P,
    program: &M,
    ended: Conclusion,
    search: JobSettings,
    books: &[CoverBook],
) -> Answer
    requires named { theory_of subject.name ≡ P.theory }
    requires part { MayBePart subject.part }
    requires program { M.meaning (M.numbers program.now) ≡ program_in subject.part (P.theory.program (P.numbers model.now)) }
    requires true_told { IsTrueOf (M.meaning (M.numbers program.now)) (own_in subject.part (P.theory.own_value (P.numbers model.now))) search.budget ended.outcome }
    requires sized { AreSized ended.counts }
    ensures report { IsReport search ended.outcome ended.counts result }
    ensures covered { IsCoveredIn subject.name subject.part (P.theory.canonical (P.numbers model.now)) result }
{
    let Conclusion { outcome, counts } = ended;
    if search.cover_words.is_none() || !outcome.is_final() {
        return Answer::Searched(outcome, counts);
    }
    let claim = claim_of(outcome.value(), outcome.distance());
    match cover_text(alloc, subject, model, program, claim, books) {
        Ok(text) => Answer::Covered(outcome, counts, Some(text)),
        Err(_) => Answer::Covered(outcome, counts, None),
    }
}

/// The text of a cover for a claim that no feasible solution exceeds, or for `None` if there is no feasible solution. It is made of the
/// diagrams in the books as far as they serve. Fails only for want of memory.
fn cover_text<P: Problem, M: DpModel>(
    alloc: Global,
    subject: Subject,
    model: &P,
    program: &M,
    claim: Option<i64>,
    books: &[CoverBook],
) -> Result<Vec<u8>, OutOfMemory>
    requires holds { HoldsAll (M.meaning (M.numbers program.now)) claim }
    requires reachable { IsReachable claim }
    ensures text { IfOk result (λ text. IsCoverText (M.meaning (M.numbers program.now)) subject.name subject.part (P.theory.canonical (P.numbers model.now)) claim text.items) }
    ensures reads_back { IfOk result (λ text. P.theory.spelled (P.theory.canonical (P.numbers model.now)) ≡ Ok (P.numbers model.now)) }
{
    let cover = settle(alloc, program, claim, books)?;
    let instance = P::print(alloc, model)?;
    let mut text = Vec::new(alloc);
    push_head(&mut text, subject, instance.len())?;
    text.extend_from_slice(instance.as_slice())?;
    push_cover(&mut text, program, &cover)?;
    Ok(text)
}

/// Appends the lines of a cover before its instance, which has `size` bytes.
#[tactic(auto, using(crate::proofs::Covered::head_made))]
pub(crate) fn push_head(out: &mut Vec<u8>, subject: Subject, size: usize) -> Result<(), OutOfMemory>
    requires { size < 2 ^ 63 }
    ensures { OnOk result (out.new.items ≡ out.old.items ++ printed_lines (cover_lines subject.name subject.part size)) }
{
    push_text(out, "cover ")?;
    push_text(out, subject.name.text())?;
    push_text(out, "\n")?;
    push_part(out, subject.part)?;
    push_text(out, "instance ")?;
    push_number(out, size as i64)?;
    push_text(out, "\n")
}

/// Appends the line of the part that is meant, if one is.
fn push_part(out: &mut Vec<u8>, part: Option<PartNumber>) -> Result<(), OutOfMemory>
    ensures { OnOk result (out.new.items ≡ out.old.items ++ printed_lines (part_lines part)) }
{
    let Some(part) = part else {
        return Ok(());
    };
    push_text(out, "part ")?;
    push_number(out, i64::from(part.index))?;
    push_text(out, " ")?;
    push_number(out, i64::from(part.of))?;
    push_text(out, "\n")
}
