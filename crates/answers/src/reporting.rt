//! Reports of the parts of a stopped search, joined to that of the search.

ghost use Rattle.std.specs.Prelude.{◌≡◌, ◌⊎◌, ◌<◌, ◌-◌, ◌^◌, ℕ, ℤ, List, length, map, option_map, IfErr, IfOk, MatchResult, OnOk};
ghost use Rattle.dp_model.specs.Distances.{IsDistance};
ghost use Rattle.dp_model.specs.Dp.{Dp};
ghost use Rattle.board_laws.specs.Board.{value_held};
ghost use Rattle.board_laws.specs.GoodBoard.{IncumbentHolds};
ghost use Rattle.journal_bytes.specs.Journal.{journal_view};
ghost use Rattle.journal_bytes.specs.Views.{incumbent_view};
ghost use Rattle.journal_replay.specs.Following.{incumbent_recorded};
ghost use Rattle.journal_replay.specs.Replay.{best_of};
ghost use Rattle.part_reports.specs.Reports.{report_view, AreReports, Refuses};
ghost use Rattle.part_text.specs.Reports.{SettledView, settled_view};
ghost use Rattle.problems.specs.Theories.{theory_of};
ghost use Rattle.answers.specs.Covers.{cover_limit};
ghost use Rattle.answers.specs.Ended.{IsInputAnswer, LeavesAfterReports, readings};
ghost use Rattle.answers.specs.Journals.{Attaches, IsUnwritten};
ghost use Rattle.answers.specs.Kept.{starts_for};
ghost use Rattle.answers.specs.Opened.{ReadsNamed};
ghost use Rattle.answers.specs.Offers.{parts_told};
ghost use Rattle.answers.specs.ReportsJoined.{AreWithin, DistancesGive, DoesNotJoin, HasBest, HasJoined, JoinsIn, JoinsJournal, JoinsReports, LeavesRead, RefusesReports, joined_answer, joined_of, whole_outcome};

use crate::inputs::{COVER_LIMIT, unread};
use crate::journaling::{has_starts, open_journal};
use crate::settling::searched_part;
use crate::splitting::stopped_board;
use board::Board;
use disk::Disk;
use dp_model::{DpModel, Found, OutOfMemory};
use journal_bytes::{Head, Incumbent, Records};
use journal_file::{JournalError, Tail};
use part_reports::{PartReport, ReportFault, best_of_reports};
use part_text::{ReadReportsError, SettledReport, read_reports};
use problem_theory::{Problem, ReadInstanceError};
use problems::by_name;
use solver_report::{Answer, Outcome, PartOutcome, ReportRefusal, Solution};
use std::alloc::Global;
use std::sync::Arc;
use streams::{Source, read_all};

/// The answer to an input that is the reports of all parts of the stopped search whose journal is in the named file, one after another: the
/// report of that search, or why the input or the journal is refused. Nothing is written.
pub fn answer_reports<S: Source, D: Disk>(
    alloc: Global,
    input: &mut S,
    path: &str,
    disk: &mut D,
) -> Answer
    ensures answer { IsInputAnswer cover_limit (JoinsReports D.Disk path.now disk.old disk.new) (readings S.left S.faults input.old input.new) result }
    ensures left { LeavesAfterReports (readings S.left S.faults input.old input.new) (Attaches D.Disk path.now disk.old disk.new × IsUnwritten D.Disk disk.new) disk.old disk.new }
{
    match read_all(alloc, input, COVER_LIMIT) {
        Ok(text) => join_text(alloc, text.as_slice(), path, disk),
        Err(error) => unread(error),
    }
}

/// The answer to the text of reports.
fn join_text<D: Disk>(alloc: Global, bytes: &[u8], path: &str, disk: &mut D) -> Answer
    requires { length bytes.now < 2 ^ 32 - 1 }
    ensures joins { (result ≡ Answer.OutOfMemory) ⊎ JoinsReports D.Disk path.now disk.old disk.new bytes.now result }
    ensures left { LeavesRead D.Disk path.now bytes.now disk.old disk.new }
{
    match read_reports(alloc, bytes) {
        Ok(reports) => join_named(alloc, reports, path, disk),
        Err(ReadReportsError::Text(fault)) => Answer::ReportRefused(fault),
        Err(ReadReportsError::OutOfMemory) => Answer::OutOfMemory,
    }
}

/// The answer to reports.
fn join_named<D: Disk>(
    alloc: Global,
    reports: Vec<SettledReport>,
    path: &str,
    disk: &mut D,
) -> Answer
    ensures { ReadsNamed D.Disk (JoinsJournal (map settled_view reports.items)) path.now disk.old disk.new result }
{
    match open_journal(alloc, disk, path) {
        Ok((head, records, tail)) => join_opened(alloc, &head, &records, tail, reports),
        Err(error) => Answer::Journal(error),
    }
}

/// The same for a journal that was read, by the problem in its head.
fn join_opened(
    alloc: Global,
    head: &Head,
    records: &Records,
    tail: Tail,
    reports: Vec<SettledReport>,
) -> Answer
    requires text { length head.now.text.items < 2 ^ 32 - 1 }
    requires distance { IsDistance head.now.within }
    requires within { records.now.within ≡ head.now.within }
    ensures { (result ≡ Answer.OutOfMemory) ⊎ JoinsJournal (map settled_view reports.items) (journal_view (head.now, records.now, tail)) records.now.first result }
{
    by_name!(
        head.model,
        join_instance(alloc, head, records, tail, reports)
    )
}

/// The same for a journal of this problem.
fn join_instance<P: Problem>(
    alloc: Global,
    head: &Head,
    records: &Records,
    tail: Tail,
    reports: Vec<SettledReport>,
) -> Answer
    requires named { theory_of head.now.model ≡ P.theory }
    requires text { length head.now.text.items < 2 ^ 32 - 1 }
    requires distance { IsDistance head.now.within }
    requires within { records.now.within ≡ head.now.within }
    ensures { (result ≡ Answer.OutOfMemory) ⊎ JoinsJournal (map settled_view reports.items) (journal_view (head.now, records.now, tail)) records.now.first result }
{
    match P::read(alloc, head.text.as_slice()) {
        Ok(model) => join_model(alloc, model, head, records, tail, reports),
        Err(ReadInstanceError::Refused(_)) => {
            Answer::Journal(JournalError::Malformed { offset: 0 })
        }
        Err(ReadInstanceError::OutOfMemory) => Answer::OutOfMemory,
    }
}

/// The same for the instance in the head. A journal of a part that does not begin with a snapshot is refused at its first record.
fn join_model<P: Problem>(
    alloc: Global,
    model: P,
    head: &Head,
    records: &Records,
    tail: Tail,
    reports: Vec<SettledReport>,
) -> Answer
    requires distance { IsDistance head.now.within }
    requires within { records.now.within ≡ head.now.within }
    ensures { JoinsIn (P.meaning (P.numbers model)) (P.theory.own_value (P.numbers model)) (starts_for head.now.part records.now.records) (map settled_view reports.items) (journal_view (head.now, records.now, tail)) records.now.first result }
{
    if !has_starts(head, records) {
        return Answer::Journal(JournalError::Malformed {
            offset: records.first(),
        });
    }
    match joined_best(alloc, model, records, &tail.digest, reports) {
        Ok(best) => joined_answer(head, best),
        Err(answer) => answer,
    }
}

/// The answer with a best solution, or none, of the search whose journal has this head.
fn joined_answer(head: &Head, best: Option<Solution>) -> Answer
    ensures { result ≡ joined_answer head.now.part head.now.within best }
{
    match head.part {
        None => Answer::Searched(whole_outcome(head.within, best), None),
        Some(part) => Answer::PartSearched {
            part: searched_part(part),
            outcome: PartOutcome::Settled {
                best,
                within: head.within,
            },
            counts: None,
        },
    }
}

/// What is told of a whole search with a best solution, or none, within the distance.
fn whole_outcome(within: i64, best: Option<Solution>) -> Outcome
    ensures { result ≡ whole_outcome within best }
{
    match best {
        Some(best) => Outcome::Proved { best, within },
        None => Outcome::Infeasible,
    }
}

/// The best solution of all reports and of the board that the records make, or none. It fails with the answer: the
/// first record that is refused, or why the reports are refused, or that memory ran out.
fn joined_best<M: DpModel>(
    alloc: Global,
    model: M,
    records: &Records,
    digest: &[u8; 32],
    reports: Vec<SettledReport>,
) -> Result<Option<Solution>, Answer>
    requires { IsDistance records.now.within }
    ensures { MatchResult result (HasJoined (M.meaning (M.numbers model)) records.now.within digest.now records.now.records (map settled_view reports.items))
        (DoesNotJoin (M.meaning (M.numbers model)) records.now.within digest.now records.now.first records.now.records (map settled_view reports.items)) }
{
    let Ok(model) = Arc::new(alloc, model) else {
        return Err(Answer::OutOfMemory);
    };
    match stopped_board(alloc, &model, records) {
        Ok(board) => best_on(alloc, &*model, &board, records.within(), digest, reports),
        Err(error) => Err(Answer::Journal(error)),
    }
}

/// The same for the board.
fn best_on<M: DpModel>(
    alloc: Global,
    model: &M,
    board: &Board<M>,
    within: i64,
    digest: &[u8; 32],
    reports: Vec<SettledReport>,
) -> Result<Option<Solution>, Answer>
    requires { board.now.numbers ≡ M.numbers model.now }
    ensures found { IfOk result (HasBest (M.meaning (M.numbers model.now)) within digest.now board.now.board (map settled_view reports.items)) }
    ensures refused { IfErr result (RefusesReports (M.meaning (M.numbers model.now)) within digest.now (map settled_view reports.items)) }
{
    if reports.is_empty() {
        return Err(Answer::ReportsRefused(ReportRefusal::Order { index: 0 }));
    }
    if let Some(index) = far_report(within, reports.as_slice()) {
        return Err(Answer::ReportsRefused(ReportRefusal::Distance { index }));
    }
    match best_of(alloc, model, board, digest, reports) {
        Ok(best) => Ok(best),
        Err(fault) => Err(refused(fault)),
    }
}

/// The place of the first report with another distance, or none.
fn far_report(within: i64, reports: &[SettledReport]) -> Option<u64>
    ensures { DistancesGive within 0 (map settled_view reports.now) result }
{
    let mut rest = reports;
    let mut place = 0usize;
    while let [report, after @ ..] = rest {
        if report.within != within {
            return Some(place as u64);
        }
        place += 1;
        rest = after;
    }
    None
}

/// The best solution of the board and of reports. It fails as `best_of_reports` does.
fn best_of<M: DpModel>(
    alloc: Global,
    model: &M,
    board: &Board<M>,
    digest: &[u8; 32],
    reports: Vec<SettledReport>,
) -> Result<Option<Solution>, ReportFault>
    requires { board.now.numbers ≡ M.numbers model.now }
    ensures reports { OnOk result (AreReports (M.meaning (M.numbers model.now)) digest.now (length (parts_told (map settled_view reports.items))) 0 (parts_told (map settled_view reports.items))) }
    ensures value { IfOk result (λ best. value_held best ≡ joined_of board.now.board (parts_told (map settled_view reports.items))) }
    ensures holds { IfOk result (IncumbentHolds (M.meaning (M.numbers model.now))) }
    ensures refused { IfErr result (Refuses (M.meaning (M.numbers model.now)) digest.now (length (parts_told (map settled_view reports.items))) (parts_told (map settled_view reports.items))) }
{
    // What the board keeps of its incumbent.
    board.facts();
    let incumbent = incumbent_of(alloc, board)?;
    let parts = parts_of(alloc, reports)?;
    let best = best_of_reports(alloc, model, digest, incumbent, parts)?;
    Ok(solution_of(alloc, best)?)
}

/// The incumbent of a board, as a report has it.
fn incumbent_of<M: DpModel>(
    alloc: Global,
    board: &Board<M>,
) -> Result<Option<Incumbent>, OutOfMemory>
    ensures { IfOk result (λ held. option_map incumbent_view held ≡ option_map incumbent_recorded board.now.board.incumbent) }
{
    match board.incumbent() {
        Some(found) => Ok(Some(Incumbent {
            value: found.value,
            decisions: Vec::from_slice(alloc, found.decisions)?,
        })),
        None => Ok(None),
    }
}

/// What reports tell of their parts.
pub(crate) fn parts_of(
    alloc: Global,
    reports: Vec<SettledReport>,
) -> Result<Vec<PartReport>, OutOfMemory>
    ensures { IfOk result (λ parts. map report_view parts.items ≡ parts_told (map settled_view reports.items)) }
{
    let mut parts = Vec::with_capacity(alloc, reports.len())?;
    for settled in reports {
        parts.push(settled.report)?;
    }
    Ok(parts)
}

/// A solution as it is told.
fn solution_of(alloc: Global, best: Option<Incumbent>) -> Result<Option<Solution>, OutOfMemory>
    ensures { IfOk result (λ told. told ≡ option_map best_of (option_map incumbent_view best)) }
{
    let Some(best) = best else {
        return Ok(None);
    };
    let decisions = best.decisions.as_slice();
    let value = best.value;
    Ok(Some(Solution::copy_of(alloc, Found { value, decisions })?))
}

/// The answer to a fault of reports.
fn refused(fault: ReportFault) -> Answer
    ensures { (dp : Dp) (within : ℤ) (digest : List ℕ) (rs : List SettledView) → AreWithin within rs → Refuses dp digest (length (parts_told rs)) (parts_told rs) fault → RefusesReports dp within digest rs result }
{
    match fault {
        ReportFault::Part { place } => Answer::ReportsRefused(ReportRefusal::Order {
            index: place as u64,
        }),
        ReportFault::Journal { place } => Answer::ReportsRefused(ReportRefusal::Journal {
            index: place as u64,
        }),
        ReportFault::Value { place } => Answer::ReportsRefused(ReportRefusal::Value {
            index: place as u64,
        }),
        ReportFault::OutOfMemory => Answer::OutOfMemory,
    }
}
