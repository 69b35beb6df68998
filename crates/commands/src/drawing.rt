ghost use Rattle.std.specs.Prelude.{◌≡◌, ◌^◌, ◌<◌, IsSome};
ghost use Rattle.problem_theory.specs.Theory.{CanDraw};
ghost use Rattle.problems.specs.Theories.{theory_of};
ghost use Rattle.answers.specs.Answers.{Draws};

use crate::runner::Runner;
use crate::solving::solve;
use answers::{Subject, printed};
use disk::Disk;
use dp_model::CutKind;
use problem_names::ModelName;
use problem_theory::Problem;
use search_workers::Gate;
use solver_report::Answer;
use solver_words::JobSettings;
use std::sync::Wait;
use std::thread::Threads;

/// How a drawn instance is searched.
const BY_DEFAULT: JobSettings = JobSettings {
    width: None,
    workers: 1,
    budget: u64::MAX,
    cutset: CutKind::LastExactLayer,
    stats: true,
    within: 0,
    cover_words: None,
    parts: 1,
};

/// Draws an instance of the named problem, of size `n`, from the seed. The answer is its canonical text. If `solved`, the answer is how a
/// search of it ended, with its counts: for a best solution, with the default width, one worker and the greatest budget. The disk comes
/// back unchanged.
pub fn draw<P: Problem, D: Disk + Send, G: Gate + Sync, R: Threads + Wait + Sync>(
    run: &Runner<'_, G, R>,
    name: ModelName,
    n: u32,
    seed: u32,
    solved: bool,
    disk: D,
) -> (Answer, D)
    requires named { theory_of name ≡ P.theory }
    requires drawn { IsSome P.theory.drawing }
    requires size { CanDraw P.theory.drawing n }
    requires seed { seed < 2 ^ 31 }
    ensures draws { Draws P.theory n seed solved result.0 }
    ensures disk { result.1 ≡ disk }
{
    match P::generate(run.alloc, n, seed) {
        Ok(Some(model)) if solved => {
            let whole = Subject { name, part: None };
            solve(run, whole, model, BY_DEFAULT, disk)
        }
        Ok(Some(model)) => (printed(run.alloc, &model), disk),
        Ok(None) => unreachable!(),
        Err(_) => (Answer::OutOfMemory, disk),
    }
}
