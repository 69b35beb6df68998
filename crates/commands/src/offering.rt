//! Solutions of settled parts, which are offered to a search before it goes on.

ghost use Rattle.std.specs.Prelude.{◌≡◌, ◌≢◌, ◌⊎◌, ℕ, ℤ, List, Option, Some, map, is_some, IfOk, IsErrOf, IsSome, OnOk};
ghost use Rattle.board_laws.specs.Board.{incumbent_value};
ghost use Rattle.board_laws.specs.GoodBoard.{IsGood};
ghost use Rattle.board_laws.specs.declared.cause.Cause.TheVariants.{Journal};
ghost use Rattle.disk.specs.Counts.{Rose};
ghost use Rattle.dp_model.specs.Numbers.{OptionAtMost};
ghost use Rattle.part_reports.specs.Reports.{AreTested, IsTested, report_view, value_told};
ghost use Rattle.problem_theory.specs.Theory.{Agrees};
ghost use Rattle.answers.specs.Offers.{AreWorthAtMost, told_value};
ghost use Rattle.answers.specs.Outcomes.{HasSearched};
ghost use Rattle.commands.specs.Offers.{IsAfterOffers};
ghost use Rattle.commands.specs.Searches.{IsKeptOn, KeepsSome};
ghost use Rattle.commands.specs.Starts.{IsReadyFor};

use crate::runner::Runner;
use crate::searching::search_from;
use answers::Conclusion;
use disk::Disk;
use dp_model::{DpModel, OutOfMemory};
use kept_board::{Kept, KeptError};
use part_reports::PartReport;
use search_workers::{Desk, Gate};
use solver_words::JobSettings;
use std::alloc::Global;
use std::sync::Wait;
use std::thread::Threads;

/// Offers the solution of a report, if it has one. A better one becomes a record of the journal, and then the incumbent.
fn offer<M: DpModel, D: Disk>(
    alloc: Global,
    kept: &mut Kept<M, D>,
    report: &PartReport,
) -> Result<(), KeptError>
    requires going { IsSome kept.old.tail → kept.old.board.board.cause ≢ Some Journal }
    requires tested { IsTested (M.meaning kept.old.board.numbers) (report_view report.now).best }
    ensures after { IsAfterOffers (M.meaning kept.old.board.numbers) kept.old kept.new }
    ensures taken { OnOk result (OptionAtMost (value_told (report_view report.now)) (incumbent_value kept.new.board.board)) }
    ensures going { OnOk result (kept.new.board.board.cause ≡ kept.old.board.board.cause) }
    ensures journal { IsErrOf result KeptError.Journal → kept.new.board.board.cause ≡ Some Journal }
{
    let Some(best) = &report.best else {
        return Ok(());
    };
    match kept.improve(alloc, best.decisions.as_slice()) {
        Ok(_) => Ok(()),
        Err(error) => Err(error),
    }
}

/// Offers the solutions of the reports, one after another. It ends with the first one whose record the disk refuses: then the board is halted
/// for its journal. Fails only for want of memory.
fn offer_all<M: DpModel, D: Disk>(
    alloc: Global,
    kept: &mut Kept<M, D>,
    reports: &[PartReport],
) -> Result<(), OutOfMemory>
    requires going { IsSome kept.old.tail → kept.old.board.board.cause ≢ Some Journal }
    requires tested { AreTested (M.meaning kept.old.board.numbers) (map report_view reports.now) }
    ensures after { IsAfterOffers (M.meaning kept.old.board.numbers) kept.old kept.new }
    ensures taken { OnOk result (AreWorthAtMost (map report_view reports.now) (incumbent_value kept.new.board.board) ⊎ (kept.new.board.board.cause ≡ Some Journal)) }
{
    let mut rest = reports;
    while let [report, after @ ..] = rest {
        if let Err(error) = offer(alloc, kept, report) {
            return ended_by(error);
        }
        rest = after;
    }
    Ok(())
}

/// How offers end with one whose record was not written. After a fault of the disk the search goes on, and finds itself halted.
fn ended_by(error: KeptError) -> Result<(), OutOfMemory>
    ensures { OnOk result (error ≡ KeptError.Journal) }
{
    match error {
        KeptError::Journal => Ok(()),
        KeptError::OutOfMemory => Err(OutOfMemory),
    }
}

/// Offers the solutions of the reports to the board, and searches on as `search_from` does. Each solution that is offered is a feasible one
/// with its value. Fails only for want of memory.
pub fn search_offered<M: DpModel, D: Disk + Send, G: Gate + Sync, R: Threads + Wait + Sync>(
    run: &Runner<'_, G, R>,
    mut kept: Kept<M, D>,
    offers: &[PartReport],
    desks: &mut Vec<Desk>,
    model: &M,
    search: JobSettings,
) -> (Result<Conclusion, OutOfMemory>, D)
    requires numbers { kept.board.numbers ≡ M.numbers model.now }
    requires ready { IsReadyFor (M.meaning (M.numbers model.now)) search kept.board desks.old }
    requires going { kept.board.board.cause ≢ Some Journal }
    requires tested { AreTested (M.meaning (M.numbers model.now)) (map report_view offers.now) }
    ensures searched { (own : List ℕ → Option ℤ) → Agrees (M.meaning (M.numbers model.now)) own → IfOk result.0 (λ told. HasSearched (M.meaning (M.numbers model.now)) own (λ _. kept.board.first) (IsGood (M.meaning (M.numbers model.now)) kept.board.first) search (IsKeptOn D.Disk (M.meaning (M.numbers model.now)) (is_some kept.tail) kept.made result.1) told.outcome told.counts) }
    ensures taken { (own : List ℕ → Option ℤ) → Agrees (M.meaning (M.numbers model.now)) own → IfOk result.0 (λ told. AreWorthAtMost (map report_view offers.now) (told_value told.outcome) ⊎ Rose (D.faults kept.made) (D.faults result.1)) }
    ensures keeps { KeepsSome D.Disk (M.meaning (M.numbers model.now)) (is_some kept.tail) kept.made result.1 kept.board.board.settings }
{
    match offer_all(run.alloc, &mut kept, offers) {
        Ok(()) => search_from(run, kept, desks, model, search),
        Err(error) => {
            let (_, disk) = kept.into_parts();
            (Err(error), disk)
        }
    }
}
