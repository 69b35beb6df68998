//! The answer to a search that has ended.

ghost use Rattle.std.specs.Prelude.{◌≡◌, IfOk};
ghost use Rattle.problem_names.specs.Parts.{MayBePart};
ghost use Rattle.problems.specs.Theories.{theory_of};
ghost use Rattle.solver_report.specs.Report.{AreSized};
ghost use Rattle.answers.specs.Covers.{IsCoveredIn};
ghost use Rattle.answers.specs.Outcomes.{IsTrueOf};
ghost use Rattle.answers.specs.Parts.{own_in, program_in};
ghost use Rattle.commands.specs.Desks.{HaveBooksOf};
ghost use Rattle.commands.specs.Searches.{IsAnswerTo};

use crate::books::books_of;
use answers::{Conclusion, Subject, told};
use dp_model::{DpModel, OutOfMemory};
use problem_theory::Problem;
use search_workers::Desk;
use solver_report::Answer;
use solver_words::JobSettings;
use std::alloc::Global;

/// The answer to a search of an instance of the named problem, or of a part of it: its report, followed by a cover if one is asked for and
/// the search went to its end; or that memory ran out. `model` is the instance, and `program` is what was searched. The cover is made from
/// the books of the desks, which are those of the search.
pub fn answer_of<P: Problem, M: DpModel>(
    alloc: Global,
    subject: Subject,
    model: &P,
    program: &M,
    ended: Result<Conclusion, OutOfMemory>,
    search: JobSettings,
    desks: Vec<Desk>,
) -> Answer
    requires named { theory_of subject.name ≡ P.theory }
    requires part { MayBePart subject.part }
    requires program { M.meaning (M.numbers program.now) ≡ program_in subject.part (P.theory.program (P.numbers model.now)) }
    requires true_told { IfOk ended (λ told. IsTrueOf (M.meaning (M.numbers program.now)) (own_in subject.part (P.theory.own_value (P.numbers model.now))) search.budget told.outcome) }
    requires sized { IfOk ended (λ told. AreSized told.counts) }
    requires books { HaveBooksOf (M.meaning (M.numbers program.now)) desks.items }
    ensures answers { IsAnswerTo search ended result }
    ensures covered { IsCoveredIn subject.name subject.part (P.theory.canonical (P.numbers model.now)) result }
{
    match ended {
        Ok(ended) => {
            let books = books_of(alloc, desks).unwrap_or(Vec::new(alloc));
            told(
                alloc,
                subject,
                model,
                program,
                ended,
                search,
                books.as_slice(),
            )
        }
        Err(_) => Answer::OutOfMemory,
    }
}
