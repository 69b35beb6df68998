ghost use Rattle.std.specs.Prelude.{◌≡◌, None, map, option_map, string_bytes};
ghost use Rattle.problem_names.specs.Parts.{IsPart, MayBePart};
ghost use Rattle.problems.specs.Theories.{theory_of};
ghost use Rattle.solver_words.specs.Possible.{IsPossible, MayDraw, MaySearch};
ghost use Rattle.solver_words.specs.Words.{job_view, solve};
ghost use Rattle.answers.specs.Answers.{DigestsText, Draws, SolvesText};
ghost use Rattle.answers.specs.Covers.{cover_limit};
ghost use Rattle.answers.specs.Ended.{IsInputAnswer, IsJobAnswer, IsRight, LeavesAfterReports, LeavesOfSearch, readings, text_limit};
ghost use Rattle.answers.specs.Journals.{Attaches, IsUnwritten};
ghost use Rattle.answers.specs.Kept.{LeavesAfterResume, MayFollow, RepliesKept, ResumesOffered};
ghost use Rattle.answers.specs.ReportsJoined.{JoinsReports};
ghost use Rattle.answers.specs.Splits.{Splits};

use crate::drawing::draw;
use crate::keeping::read_kept;
use crate::resuming::resume;
use crate::runner::Runner;
use crate::solving::solve_text;
use answers::{
    Subject, answer_cover, answer_parts, answer_reports, digest_text, read_offers, split_journal,
    unread,
};
use disk::Disk;
use problem_names::{ModelName, PartNumber};
use problems::by_name;
use search_workers::Gate;
use solver_report::Answer;
use solver_words::{Job, JobSettings, read_words};
use std::alloc::Global;
use std::sync::Wait;
use std::thread::Threads;
use streams::{Source, read_all};

/// How many bytes the text of an instance has at most.
const TEXT_LIMIT: usize = 1 << 26;

/// The answer to the words and the input, which is read only where the words ask for a job on it, and the disk, which is touched only
/// where they ask for a journal.
pub fn answer<S: Source, D: Disk + Send, G: Gate + Sync, R: Threads + Wait + Sync>(
    run: &Runner<'_, G, R>,
    words: &[String],
    input: &mut S,
    disk: D,
) -> (Answer, D)
    ensures { IsRight D.Disk (map string_bytes words.now) (readings S.left S.faults input.old input.new) disk result.1 result.0 }
{
    match read_words(run.alloc, words) {
        Ok(job) => answer_job(run, job, input, disk),
        Err(error) => (Answer::Words(error), disk),
    }
}

/// The answer to a job that words ask for.
fn answer_job<S: Source, D: Disk + Send, G: Gate + Sync, R: Threads + Wait + Sync>(
    run: &Runner<'_, G, R>,
    job: Job,
    input: &mut S,
    disk: D,
) -> (Answer, D)
    requires { IsPossible (job_view job) }
    ensures { IsJobAnswer D.Disk (job_view job) (readings S.left S.faults input.old input.new) disk result.1 result.0 }
{
    match job {
        Job::Solve {
            model,
            settings,
            journal,
            part,
        } => {
            let subject = Subject { name: model, part };
            solve_job(run, subject, settings, journal, input, disk)
        }
        Job::Resume {
            path,
            settings,
            incumbent: false,
        } => resume(run, path.as_str(), settings, &[], disk),
        Job::Resume {
            path,
            settings,
            incumbent: true,
        } => resume_input(run, path.as_str(), settings, input, disk),
        Job::Split { path, part } => split_named(run, path.as_str(), part, disk),
        Job::Check => (answer_cover(run.alloc, input), disk),
        Job::Join => (answer_parts(run.alloc, input), disk),
        Job::JoinReports { path } => join_named(run, path.as_str(), input, disk),
        Job::Digest { model } => (digest_input(run.alloc, model, input), disk),
        Job::Generate {
            model,
            n,
            seed,
            solve,
        } => draw_named(run, model, n, seed, solve, disk),
    }
}

/// The answer to a search of the instance in the input, or of a part of it. Only a search of the whole keeps a journal.
fn solve_job<S: Source, D: Disk + Send, G: Gate + Sync, R: Threads + Wait + Sync>(
    run: &Runner<'_, G, R>,
    subject: Subject,
    search: JobSettings,
    journal: Option<String>,
    input: &mut S,
    disk: D,
) -> (Answer, D)
    requires { IsPossible (solve subject.name search (option_map string_bytes journal) subject.part) }
    ensures { IsJobAnswer D.Disk (solve subject.name search (option_map string_bytes journal) subject.part) (readings S.left S.faults input.old input.new) disk result.1 result.0 }
{
    match journal {
        None => solve_input(run, subject, search, input, disk),
        Some(path) => keep_input(run, subject.name, search, path.as_str(), input, disk),
    }
}

/// The answer to a search of the instance in the input, or of a part of it, that keeps no journal.
fn solve_input<S: Source, D: Disk + Send, G: Gate + Sync, R: Threads + Wait + Sync>(
    run: &Runner<'_, G, R>,
    subject: Subject,
    search: JobSettings,
    input: &mut S,
    disk: D,
) -> (Answer, D)
    requires may { MaySearch search }
    requires part { MayBePart subject.part }
    ensures answer { IsInputAnswer text_limit (SolvesText (theory_of subject.name) subject.name subject.part search) (readings S.left S.faults input.old input.new) result.0 }
    ensures disk { result.1 ≡ disk }
{
    match read_all(run.alloc, input, TEXT_LIMIT) {
        Ok(text) => {
            let text = text.as_slice();
            by_name!(
                subject.name,
                solve_text::<D, G, R>(run, subject, search, text, disk)
            )
        }
        Err(error) => (unread(error), disk),
    }
}

/// The answer to a search of the instance in the input that keeps a journal in the named file.
#[tactic(auto, using(crate::proofs::Left::left_search))]
fn keep_input<S: Source, D: Disk + Send, G: Gate + Sync, R: Threads + Wait + Sync>(
    run: &Runner<'_, G, R>,
    name: ModelName,
    search: JobSettings,
    path: &str,
    input: &mut S,
    disk: D,
) -> (Answer, D)
    requires { MaySearch search }
    ensures answer { IsInputAnswer text_limit (RepliesKept D.Disk name search disk result.1) (readings S.left S.faults input.old input.new) result.0 }
    ensures left { LeavesOfSearch D.Disk name search.within path.now (readings S.left S.faults input.old input.new) disk result.1 }
{
    match read_all(run.alloc, input, TEXT_LIMIT) {
        Ok(text) => {
            let text = text.as_slice();
            by_name!(
                name,
                read_kept::<D, G, R>(run, name, search, path, text, disk)
            )
        }
        Err(error) => (unread(error), disk),
    }
}

/// The answer to a search that goes on from the journal in the named file, after the solutions of the reports in the input were offered to
/// it.
fn resume_input<S: Source, D: Disk + Send, G: Gate + Sync, R: Threads + Wait + Sync>(
    run: &Runner<'_, G, R>,
    path: &str,
    search: JobSettings,
    input: &mut S,
    disk: D,
) -> (Answer, D)
    requires may { MaySearch search }
    requires coverless { search.cover_words ≡ None }
    ensures answer { IsInputAnswer cover_limit (ResumesOffered D.Disk search disk result.1) (readings S.left S.faults input.old input.new) result.0 }
    ensures left { LeavesAfterReports (readings S.left S.faults input.old input.new) (LeavesAfterResume D.Disk MayFollow path.now disk result.1) disk result.1 }
{
    match read_offers(run.alloc, input) {
        Ok(offers) => resume(run, path, search, offers.as_slice(), disk),
        Err(answer) => (answer, disk),
    }
}

/// The answer with a part of the stopped search whose journal is in the named file.
fn split_named<D: Disk, G: Gate + Sync, R: Threads + Wait + Sync>(
    run: &Runner<'_, G, R>,
    path: &str,
    part: PartNumber,
    mut disk: D,
) -> (Answer, D)
    requires { IsPart part }
    ensures { Splits D.Disk part path.now disk result.1 result.0 }
{
    let answer = split_journal(run.alloc, &mut disk, path, part);
    (answer, disk)
}

/// The answer to an input that is the reports of all parts of the stopped search whose journal is in the named file.
fn join_named<S: Source, D: Disk, G: Gate + Sync, R: Threads + Wait + Sync>(
    run: &Runner<'_, G, R>,
    path: &str,
    input: &mut S,
    mut disk: D,
) -> (Answer, D)
    ensures answer { IsInputAnswer cover_limit (JoinsReports D.Disk path.now disk result.1) (readings S.left S.faults input.old input.new) result.0 }
    ensures left { LeavesAfterReports (readings S.left S.faults input.old input.new) (Attaches D.Disk path.now disk result.1 × IsUnwritten D.Disk result.1) disk result.1 }
{
    let answer = answer_reports(run.alloc, input, path, &mut disk);
    (answer, disk)
}

/// The digest of the instance in the input.
fn digest_input<S: Source>(alloc: Global, name: ModelName, input: &mut S) -> Answer
    ensures { IsInputAnswer text_limit (DigestsText (theory_of name)) (readings S.left S.faults input.old input.new) result }
{
    match read_all(alloc, input, TEXT_LIMIT) {
        Ok(text) => {
            let text = text.as_slice();
            by_name!(name, digest_text(alloc, text))
        }
        Err(error) => unread(error),
    }
}

/// The answer to an instance that is to be drawn.
#[tactic(auto, using(crate::proofs::Drawn::can_draw, crate::proofs::Drawn::some_drawn))]
fn draw_named<D: Disk + Send, G: Gate + Sync, R: Threads + Wait + Sync>(
    run: &Runner<'_, G, R>,
    name: ModelName,
    n: u32,
    seed: u32,
    solved: bool,
    disk: D,
) -> (Answer, D)
    requires { MayDraw name n seed }
    ensures draws { Draws (theory_of name) n seed solved result.0 }
    ensures disk { result.1 ≡ disk }
{
    by_name!(name, draw::<D, G, R>(run, name, n, seed, solved, disk))
}
