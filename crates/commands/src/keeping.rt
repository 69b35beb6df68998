//! Searches that begin a journal.

ghost use Rattle.std.specs.Prelude.{◌≡◌, ◌⊎◌, ℕ, ◌^◌, ◌-◌, ◌<◌, length};
ghost use Rattle.std.specs.Arc.{arc_value};
ghost use Rattle.problems.specs.Theories.{theory_of};
ghost use Rattle.solver_words.specs.Possible.{MaySearch};
ghost use Rattle.answers.specs.Covers.{IsCovered};
ghost use Rattle.answers.specs.Journals.{HasLeftBegun, StaysAttached};
ghost use Rattle.answers.specs.Kept.{RepliesKept, SolvesKept, head_of};
ghost use Rattle.commands.specs.Journals.{EndsKept, HasBegunOn, LeavesNamed, LeavesOfText};
ghost use Rattle.commands.specs.Starts.{HasBegun};

use crate::ending::answer_of;
use crate::limits::SNAPSHOT_EVERY;
use crate::runner::Runner;
use crate::searching::search_from;
use crate::starting::{Start, begin_search};
use answers::{Subject, begin_journal};
use disk::Disk;
use journal_file::Tail;
use kept_board::Kept;
use problem_names::ModelName;
use problem_theory::{Problem, ReadInstanceError};
use search_workers::Gate;
use solver_report::Answer;
use solver_words::JobSettings;
use std::sync::Wait;
use std::thread::Threads;

/// Searches the instance of the named problem that the text spells, and keeps the journal of the search in the named file. If the text
/// spells none, answers its first fault, and the disk is unchanged.
pub fn read_kept<P: Problem, D: Disk + Send, G: Gate + Sync, R: Threads + Wait + Sync>(
    run: &Runner<'_, G, R>,
    name: ModelName,
    search: JobSettings,
    path: &str,
    text: &[u8],
    disk: D,
) -> (Answer, D)
    requires short { length text.now < 2 ^ 32 - 1 }
    requires may { MaySearch search }
    requires named { theory_of name ≡ P.theory }
    ensures reply { RepliesKept D.Disk name search disk result.1 text.now result.0 }
    ensures left { LeavesOfText D.Disk name search.within path.now text.now disk result.1 }
{
    match P::read(run.alloc, text) {
        Ok(model) => solve_kept(run, name, model, search, path, disk),
        Err(ReadInstanceError::Refused(refusal)) => (Answer::Refused(refusal), disk),
        Err(ReadInstanceError::OutOfMemory) => (Answer::OutOfMemory, disk),
    }
}

/// Searches the instance of the named problem by the workers that are asked for, and keeps the journal of the search in the named file. The
/// width is refused where it is 0 or above the greatest one of the instance, before the disk is touched.
fn solve_kept<P: Problem, D: Disk + Send, G: Gate + Sync, R: Threads + Wait + Sync>(
    run: &Runner<'_, G, R>,
    name: ModelName,
    model: P,
    search: JobSettings,
    path: &str,
    disk: D,
) -> (Answer, D)
    requires may { MaySearch search }
    requires named { theory_of name ≡ P.theory }
    ensures solves { SolvesKept D.Disk (P.meaning (P.numbers model)) (P.theory.own_value (P.numbers model)) (head_of P.theory name search.within (P.numbers model)) search disk result.1 result.0 }
    ensures covered { IsCovered name (P.theory.canonical (P.numbers model)) result.0 }
    ensures left { (result.1 ≡ disk) ⊎ LeavesNamed D.Disk path.now (P.meaning (P.numbers model)) (head_of P.theory name search.within (P.numbers model)) disk result.1 }
{
    match begin_search(run.alloc, model, search) {
        Ok(start) => search_kept(run, name, start, search, path, disk),
        Err(answer) => (answer, disk),
    }
}

/// Begins the journal in the named file, and searches from the start on.
fn search_kept<P: Problem, D: Disk + Send, G: Gate + Sync, R: Threads + Wait + Sync>(
    run: &Runner<'_, G, R>,
    name: ModelName,
    start: Start<P>,
    search: JobSettings,
    path: &str,
    mut disk: D,
) -> (Answer, D)
    requires named { theory_of name ≡ P.theory }
    requires numbers { start.board.numbers ≡ P.numbers (arc_value start.model) }
    requires may { MaySearch search }
    requires begun { HasBegun (P.meaning (P.numbers (arc_value start.model))) search start.board start.desks }
    ensures solves { SolvesKept D.Disk (P.meaning (P.numbers (arc_value start.model))) (P.theory.own_value (P.numbers (arc_value start.model))) (head_of P.theory name search.within (P.numbers (arc_value start.model))) search disk result.1 result.0 }
    ensures covered { IsCovered name (P.theory.canonical (P.numbers (arc_value start.model))) result.0 }
    ensures left { LeavesNamed D.Disk path.now (P.meaning (P.numbers (arc_value start.model))) (head_of P.theory name search.within (P.numbers (arc_value start.model))) disk result.1 }
{
    match begin_journal(run.alloc, &mut disk, path, name, &*start.model, search) {
        Ok(tail) => search_begun(run, name, start, tail, search, disk),
        Err(error) => (Answer::Journal(error), disk),
    }
}

/// Searches from the start on, with the journal that was begun.
fn search_begun<P: Problem, D: Disk + Send, G: Gate + Sync, R: Threads + Wait + Sync>(
    run: &Runner<'_, G, R>,
    name: ModelName,
    start: Start<P>,
    tail: Tail,
    search: JobSettings,
    disk: D,
) -> (Answer, D)
    requires named { theory_of name ≡ P.theory }
    requires numbers { start.board.numbers ≡ P.numbers (arc_value start.model) }
    requires may { MaySearch search }
    requires begun { HasBegun (P.meaning (P.numbers (arc_value start.model))) search start.board start.desks }
    requires ready { HasBegunOn D.Disk (head_of P.theory name search.within (P.numbers (arc_value start.model))) disk tail }
    ensures ends { EndsKept D.Disk (P.meaning (P.numbers (arc_value start.model))) (P.theory.own_value (P.numbers (arc_value start.model))) (head_of P.theory name search.within (P.numbers (arc_value start.model))) search result.1 result.0 }
    ensures covered { IsCovered name (P.theory.canonical (P.numbers (arc_value start.model))) result.0 }
    ensures left { HasLeftBegun D.Disk (P.meaning (P.numbers (arc_value start.model))) (head_of P.theory name search.within (P.numbers (arc_value start.model))) result.1 }
    ensures attached { StaysAttached D.Disk disk result.1 }
{
    let Start {
        model,
        board,
        mut desks,
    } = start;
    let whole = &*model;
    let kept = Kept::new(board, disk, Some(tail), SNAPSHOT_EVERY);
    let (ended, disk) = search_from(run, kept, &mut desks, whole, search);
    let subject = Subject { name, part: None };
    let answer = answer_of(run.alloc, subject, whole, whole, ended, search, desks);
    (answer, disk)
}
