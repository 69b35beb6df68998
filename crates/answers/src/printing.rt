ghost use Rattle.answers.specs.Answers.{Prints};

use problem_theory::Problem;
use solver_report::Answer;
use std::alloc::Global;

/// The answer with the canonical text of the instance, or that there was no memory for it.
pub fn printed<P: Problem>(alloc: Global, model: &P) -> Answer
    ensures { Prints (P.theory.canonical (P.numbers model.now)) result }
{
    match P::print(alloc, model) {
        Ok(text) => Answer::Drawn(text),
        Err(_) => Answer::OutOfMemory,
    }
}
