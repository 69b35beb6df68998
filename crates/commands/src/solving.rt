//! Searches that keep no journal.

ghost use Rattle.std.specs.Prelude.{◌≡◌, ◌^◌, ◌-◌, ◌<◌, Some, length};
ghost use Rattle.std.specs.Arc.{arc_value};
ghost use Rattle.parts.specs.Part.{part_program};
ghost use Rattle.problem_names.specs.Parts.{IsPart, MayBePart};
ghost use Rattle.problems.specs.Theories.{theory_of};
ghost use Rattle.solver_words.specs.Possible.{MaySearch};
ghost use Rattle.answers.specs.Answers.{Solves, SolvesText};
ghost use Rattle.answers.specs.Covers.{IsCovered, IsCoveredIn};
ghost use Rattle.answers.specs.Parts.{own_in, part_own, program_in};
ghost use Rattle.commands.specs.Starts.{HasBegun};

use crate::ending::answer_of;
use crate::limits::SNAPSHOT_EVERY;
use crate::runner::Runner;
use crate::searching::search_from;
use crate::starting::{Start, begin_search};
use answers::{Subject, part_of};
use disk::Disk;
use dp_model::DpModel;
use kept_board::Kept;
use problem_names::{ModelName, PartNumber};
use problem_theory::{Problem, ReadInstanceError};
use search_workers::Gate;
use solver_report::Answer;
use solver_words::JobSettings;
use std::sync::{Arc, Wait};
use std::thread::Threads;

/// Searches the instance that the text spells, or a part of it, and answers how the search ended. If the text spells none, answers its
/// first fault. No journal is kept, and the disk comes back unchanged.
pub fn solve_text<P: Problem, D: Disk + Send, G: Gate + Sync, R: Threads + Wait + Sync>(
    run: &Runner<'_, G, R>,
    subject: Subject,
    search: JobSettings,
    text: &[u8],
    disk: D,
) -> (Answer, D)
    requires short { length text.now < 2 ^ 32 - 1 }
    requires may { MaySearch search }
    requires part { MayBePart subject.part }
    requires named { theory_of subject.name ≡ P.theory }
    ensures reply { SolvesText P.theory subject.name subject.part search text.now result.0 }
    ensures disk { result.1 ≡ disk }
{
    match P::read(run.alloc, text) {
        Ok(model) => solve(run, subject, model, search, disk),
        Err(ReadInstanceError::Refused(refusal)) => (Answer::Refused(refusal), disk),
        Err(ReadInstanceError::OutOfMemory) => (Answer::OutOfMemory, disk),
    }
}

/// Searches an instance of the named problem, or a part of it, by the workers that are asked for. The width is refused if it is 0 or above
/// the greatest width of what is searched. No journal is kept, and the disk comes back unchanged.
pub fn solve<P: Problem, D: Disk + Send, G: Gate + Sync, R: Threads + Wait + Sync>(
    run: &Runner<'_, G, R>,
    subject: Subject,
    model: P,
    search: JobSettings,
    disk: D,
) -> (Answer, D)
    requires may { MaySearch search }
    requires part { MayBePart subject.part }
    requires named { theory_of subject.name ≡ P.theory }
    ensures solves { Solves (program_in subject.part (P.theory.program (P.numbers model))) (own_in subject.part (P.theory.own_value (P.numbers model))) search result.0 }
    ensures covered { IsCoveredIn subject.name subject.part (P.theory.canonical (P.numbers model)) result.0 }
    ensures disk { result.1 ≡ disk }
{
    match subject.part {
        None => solve_whole(run, subject.name, model, search, disk),
        Some(part) => solve_part(run, subject.name, part, model, search, disk),
    }
}

/// The same for the whole instance.
fn solve_whole<P: Problem, D: Disk + Send, G: Gate + Sync, R: Threads + Wait + Sync>(
    run: &Runner<'_, G, R>,
    name: ModelName,
    model: P,
    search: JobSettings,
    disk: D,
) -> (Answer, D)
    requires may { MaySearch search }
    requires named { theory_of name ≡ P.theory }
    ensures solves { Solves (P.theory.program (P.numbers model)) (P.theory.own_value (P.numbers model)) search result.0 }
    ensures covered { IsCovered name (P.theory.canonical (P.numbers model)) result.0 }
    ensures disk { result.1 ≡ disk }
{
    match begin_search(run.alloc, model, search) {
        Ok(start) => {
            let Ok(whole) = Arc::try_clone(&start.model) else {
                return (Answer::OutOfMemory, disk);
            };
            let subject = Subject { name, part: None };
            search_program(run, subject, &*whole, start, search, disk)
        }
        Err(answer) => (answer, disk),
    }
}

/// The same for a part of it.
fn solve_part<P: Problem, D: Disk + Send, G: Gate + Sync, R: Threads + Wait + Sync>(
    run: &Runner<'_, G, R>,
    name: ModelName,
    part: PartNumber,
    model: P,
    search: JobSettings,
    disk: D,
) -> (Answer, D)
    requires may { MaySearch search }
    requires part { IsPart part }
    requires named { theory_of name ≡ P.theory }
    ensures solves { Solves (part_program (P.theory.program (P.numbers model)) part.index part.of) (part_own part.index part.of (P.theory.own_value (P.numbers model))) search result.0 }
    ensures covered { IsCoveredIn name (Some part) (P.theory.canonical (P.numbers model)) result.0 }
    ensures disk { result.1 ≡ disk }
{
    let Ok((whole, program)) = part_of(run.alloc, model, part) else {
        return (Answer::OutOfMemory, disk);
    };
    let subject = Subject {
        name,
        part: Some(part),
    };
    match begin_search(run.alloc, program, search) {
        Ok(start) => search_program(run, subject, &*whole, start, search, disk),
        Err(answer) => (answer, disk),
    }
}

/// Searches a program of the instance from its start on, and keeps no journal: the disk comes back unchanged.
fn search_program<P: Problem, M: DpModel, D: Disk + Send, G: Gate + Sync, R: Threads + Wait + Sync>(
    run: &Runner<'_, G, R>,
    subject: Subject,
    whole: &P,
    start: Start<M>,
    search: JobSettings,
    disk: D,
) -> (Answer, D)
    requires named { theory_of subject.name ≡ P.theory }
    requires part { MayBePart subject.part }
    requires program { M.meaning (M.numbers (arc_value start.model)) ≡ program_in subject.part (P.theory.program (P.numbers whole.now)) }
    requires numbers { start.board.numbers ≡ M.numbers (arc_value start.model) }
    requires begun { HasBegun (M.meaning (M.numbers (arc_value start.model))) search start.board start.desks }
    ensures solves { Solves (program_in subject.part (P.theory.program (P.numbers whole.now))) (own_in subject.part (P.theory.own_value (P.numbers whole.now))) search result.0 }
    ensures covered { IsCoveredIn subject.name subject.part (P.theory.canonical (P.numbers whole.now)) result.0 }
    ensures disk { result.1 ≡ disk }
{
    let Start {
        model,
        board,
        mut desks,
    } = start;
    let program = &*model;
    let kept = Kept::new(board, disk, None, SNAPSHOT_EVERY);
    let (ended, disk) = search_from(run, kept, &mut desks, program, search);
    let answer = answer_of(run.alloc, subject, whole, program, ended, search, desks);
    (answer, disk)
}
