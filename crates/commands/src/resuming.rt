//! Searches that go on from a journal.

ghost use Rattle.std.specs.Prelude.{◌≡◌, ◌⊎◌, ℕ, ◌^◌, ◌-◌, ◌<◌, None, length, map, IfErr, IfOk, OnOk};
ghost use Rattle.dp_model.specs.Distances.{IsDistance};
ghost use Rattle.journal_bytes.specs.Journal.{head_view, journal_view};
ghost use Rattle.problems.specs.Theories.{theory_of};
ghost use Rattle.std.specs.Arc.{arc_value};
ghost use Rattle.solver_words.specs.Possible.{MaySearch};
ghost use Rattle.part_reports.specs.Reports.{AreTested, report_view};
ghost use Rattle.answers.specs.Kept.{going_on, LeavesAfterResume, MayBeAdded, MayFollow, Resumes, ResumesIn, ResumesJournal};
ghost use Rattle.commands.specs.Journals.{IsOpened, LeavesOpened, TouchesNothing};
ghost use Rattle.commands.specs.Searches.{IsToldOn, or_memory, report_in};
ghost use Rattle.commands.specs.Starts.{DoesNotTake, GoesOnFrom};

use crate::limits::SNAPSHOT_EVERY;
use crate::offering::search_offered;
use crate::runner::Runner;
use crate::starting::{Start, go_on};
use answers::{Conclusion, has_starts, open_journal, part_outcome, searched_part};
use disk::Disk;
use dp_model::{DpModel, OutOfMemory};
use journal_bytes::{Head, Records};
use journal_file::{JournalError, Tail};
use kept_board::Kept;
use part_reports::{PartReport, first_untested};
use problem_theory::{Problem, ReadInstanceError};
use problems::by_name;
use search_workers::Gate;
use solver_report::{Answer, ReportRefusal};
use solver_words::JobSettings;
use std::alloc::Global;
use std::sync::Wait;
use std::thread::Threads;

/// What is asked of a search that goes on.
#[derive(Clone, Copy)]
struct Asked<'a> {
    /// Its settings. No cover is asked for.
    search: JobSettings,
    /// The reports whose solutions are offered to it first.
    offers: &'a [PartReport],
}

/// Goes on with the search whose journal is in the named file, within the distance of the journal, after the solutions of the reports were
/// offered to it. Otherwise answers why it does not go on: the file is no journal, its head spells no instance, the width is refused, a
/// record may not follow, or an offered solution is none with its value. No cover is asked for.
pub fn resume<D: Disk + Send, G: Gate + Sync, R: Threads + Wait + Sync>(
    run: &Runner<'_, G, R>,
    path: &str,
    search: JobSettings,
    offers: &[PartReport],
    mut disk: D,
) -> (Answer, D)
    requires may { MaySearch search }
    requires coverless { search.cover_words ≡ None }
    ensures resumes { Resumes D.Disk (map report_view offers.now) search disk result.1 result.0 }
    ensures left { LeavesAfterResume D.Disk MayFollow path.now disk result.1 }
{
    match open_journal(run.alloc, &mut disk, path) {
        Ok((head, records, tail)) => {
            let asked = Asked { search, offers };
            resume_journal(run, &head, &records, tail, asked, disk)
        }
        Err(error) => (Answer::Journal(error), disk),
    }
}

/// The same for a journal that was read, by the problem in its head.
fn resume_journal<D: Disk + Send, G: Gate + Sync, R: Threads + Wait + Sync>(
    run: &Runner<'_, G, R>,
    head: &Head,
    records: &Records,
    tail: Tail,
    asked: Asked<'_>,
    disk: D,
) -> (Answer, D)
    requires may { MaySearch asked.search }
    requires coverless { asked.search.cover_words ≡ None }
    requires text { length head.now.text.items < 2 ^ 32 - 1 }
    requires distance { IsDistance head.now.within }
    requires within { records.now.within ≡ head.now.within }
    requires opened { IsOpened D.Disk (head_view tail.version head.now) records.now.records disk tail }
    ensures resumes { (result.0 ≡ Answer.OutOfMemory) ⊎ ResumesJournal D.Disk (map report_view asked.entry.offers.now) asked.entry.search result.1 (journal_view (head.now, records.now, tail)) records.now.first result.0 }
    ensures refused { TouchesNothing disk result.1 result.0 }
    ensures left { LeavesOpened D.Disk (MayFollow (head_view tail.version head.now) records.now.records) (head_view tail.version head.now) records.now.records disk result.1 }
{
    by_name!(
        head.model,
        resume_on::<D, G, R>(run, head, records, tail, asked, disk)
    )
}

/// Goes on with the search of a journal of this problem.
fn resume_on<P: Problem, D: Disk + Send, G: Gate + Sync, R: Threads + Wait + Sync>(
    run: &Runner<'_, G, R>,
    head: &Head,
    records: &Records,
    tail: Tail,
    asked: Asked<'_>,
    disk: D,
) -> (Answer, D)
    requires may { MaySearch asked.search }
    requires coverless { asked.search.cover_words ≡ None }
    requires named { theory_of head.now.model ≡ P.theory }
    requires text { length head.now.text.items < 2 ^ 32 - 1 }
    requires distance { IsDistance head.now.within }
    requires within { records.now.within ≡ head.now.within }
    requires opened { IsOpened D.Disk (head_view tail.version head.now) records.now.records disk tail }
    ensures resumes { (result.0 ≡ Answer.OutOfMemory) ⊎ ResumesJournal D.Disk (map report_view asked.entry.offers.now) asked.entry.search result.1 (journal_view (head.now, records.now, tail)) records.now.first result.0 }
    ensures refused { TouchesNothing disk result.1 result.0 }
    ensures left { LeavesOpened D.Disk (MayFollow (head_view tail.version head.now) records.now.records) (head_view tail.version head.now) records.now.records disk result.1 }
{
    match P::read(run.alloc, head.text.as_slice()) {
        Ok(model) => resume_model(run, head, model, records, tail, asked, disk),
        Err(ReadInstanceError::Refused(_)) => {
            let refused = JournalError::Malformed { offset: 0 };
            (Answer::Journal(refused), disk)
        }
        Err(ReadInstanceError::OutOfMemory) => (Answer::OutOfMemory, disk),
    }
}

/// Goes on with the search of the instance in the head, or of the part of it of which the journal is. That of a part is refused at its first
/// record if it does not begin with a snapshot.
fn resume_model<P: Problem, D: Disk + Send, G: Gate + Sync, R: Threads + Wait + Sync>(
    run: &Runner<'_, G, R>,
    head: &Head,
    model: P,
    records: &Records,
    tail: Tail,
    asked: Asked<'_>,
    disk: D,
) -> (Answer, D)
    requires may { MaySearch asked.search }
    requires coverless { asked.search.cover_words ≡ None }
    requires distance { IsDistance head.now.within }
    requires within { records.now.within ≡ head.now.within }
    requires opened { IsOpened D.Disk (head_view tail.version head.now) records.now.records disk tail }
    ensures resumes { ResumesIn D.Disk (P.meaning (P.numbers model)) (P.theory.own_value (P.numbers model)) head.now.part (head_view tail.version head.now) records.now.records records.now.first (map report_view asked.entry.offers.now) asked.entry.search result.1 result.0 }
    ensures refused { TouchesNothing disk result.1 result.0 }
    ensures left { LeavesOpened D.Disk (MayBeAdded (P.meaning (P.numbers model)) head.now.within records.now.records) (head_view tail.version head.now) records.now.records disk result.1 }
{
    if !has_starts(head, records) {
        let refused = JournalError::Malformed {
            offset: records.first(),
        };
        return (Answer::Journal(refused), disk);
    }
    let (ended, disk) = resume_search(run, head, model, records, tail, asked, disk);
    (report_in(head, ended), disk)
}

/// Goes on with the search from what the records make of it, after the offers, and gives how it ended, or the answer where it does not go on.
fn resume_search<P: Problem, D: Disk + Send, G: Gate + Sync, R: Threads + Wait + Sync>(
    run: &Runner<'_, G, R>,
    head: &Head,
    model: P,
    records: &Records,
    tail: Tail,
    asked: Asked<'_>,
    disk: D,
) -> (Result<Conclusion, Answer>, D)
    requires may { MaySearch asked.search }
    requires distance { IsDistance head.now.within }
    requires within { records.now.within ≡ head.now.within }
    requires opened { IsOpened D.Disk (head_view tail.version head.now) records.now.records disk tail }
    ensures told { IfOk result.0 (λ told. IsToldOn D.Disk (P.meaning (P.numbers model)) (P.theory.own_value (P.numbers model)) (head_view tail.version head.now) records.now.records (map report_view asked.entry.offers.now) (going_on (head_view tail.version head.now) asked.entry.search) result.1 told.outcome told.counts) }
    ensures refused { IfErr result.0 (λ answer. DoesNotTake (P.meaning (P.numbers model)) (going_on (head_view tail.version head.now) asked.entry.search) records.now (map report_view asked.entry.offers.now) answer × TouchesNothing disk result.1 answer) }
    ensures left { LeavesOpened D.Disk (MayBeAdded (P.meaning (P.numbers model)) head.now.within records.now.records) (head_view tail.version head.now) records.now.records disk result.1 }
{
    let search = going_on(head, asked.search);
    let offers = asked.offers;
    match taking(run.alloc, model, records, search, offers) {
        Ok(
            Start {
                model,
                board,
                mut desks,
            },
        ) => {
            let kept = Kept::new(board, disk, Some(tail), SNAPSHOT_EVERY);
            let (ended, disk) = search_offered(run, kept, offers, &mut desks, &*model, search);
            (or_memory(ended), disk)
        }
        Err(answer) => (Err(answer), disk),
    }
}

/// The start of a search that goes on from the records, as `go_on` says, whose offers are all feasible solutions with their values.
/// Otherwise the answer: that of `go_on`, or the first offer that is none is refused.
fn taking<M: DpModel>(
    alloc: Global,
    model: M,
    records: &Records,
    search: JobSettings,
    offers: &[PartReport],
) -> Result<Start<M>, Answer>
    requires may { MaySearch search }
    requires within { search.within ≡ records.now.within }
    ensures model { IfOk result (λ s. M.numbers (arc_value s.model) ≡ M.numbers model) }
    ensures numbers { IfOk result (λ s. s.board.numbers ≡ M.numbers model) }
    ensures goes_on { IfOk result (λ s. GoesOnFrom (M.meaning (M.numbers model)) search records.now s.board s.desks) }
    ensures tested { OnOk result (AreTested (M.meaning (M.numbers model)) (map report_view offers.now)) }
    ensures refused { IfErr result (DoesNotTake (M.meaning (M.numbers model)) search records.now (map report_view offers.now)) }
{
    let start = go_on(alloc, model, records, search)?;
    match first_untested(alloc, &*start.model, offers) {
        Ok(None) => Ok(start),
        Ok(Some(place)) => Err(Answer::ReportsRefused(ReportRefusal::Value {
            index: place as u64,
        })),
        Err(_) => Err(Answer::OutOfMemory),
    }
}

/// What is asked of a search that goes on: the distance is that of its journal.
fn going_on(head: &Head, search: JobSettings) -> JobSettings
    ensures { (version : ℕ) → result ≡ going_on (head_view version head.now) search }
{
    JobSettings {
        within: head.within,
        ..search
    }
}

/// How a search ended, or the answer that memory ran out.
fn or_memory(ended: Result<Conclusion, OutOfMemory>) -> Result<Conclusion, Answer>
    ensures { result ≡ or_memory ended }
{
    match ended {
        Ok(told) => Ok(told),
        Err(_) => Err(Answer::OutOfMemory),
    }
}

/// The answer to how a search without a cover ended: its report, or that of the part of which the journal is.
fn report_in(head: &Head, ended: Result<Conclusion, Answer>) -> Answer
    ensures { result ≡ report_in head.now.part head.now.within ended }
{
    let Conclusion { outcome, counts } = match ended {
        Ok(told) => told,
        Err(answer) => return answer,
    };
    match head.part {
        None => Answer::Searched(outcome, counts),
        Some(part) => Answer::PartSearched {
            part: searched_part(part),
            outcome: part_outcome(outcome, head.within),
            counts,
        },
    }
}
