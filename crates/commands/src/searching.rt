//! A search from a kept board on, to its conclusion.

ghost use Rattle.std.specs.Prelude.{◌≡◌, ℕ, ℤ, List, [], Option, Some, IfOk, IfErr, is_some, vec_len};
ghost use Rattle.std.specs.List.{All};
ghost use Rattle.board_laws.specs.Board.{full_slots, incumbent_value};
ghost use Rattle.board_laws.specs.GoodBoard.{IsGood};
ghost use Rattle.board_laws.specs.declared.cause.Cause.TheVariants.{Journal};
ghost use Rattle.disk.specs.Counts.{Rose};
ghost use Rattle.dp_model.specs.Numbers.{OptionAtMost};
ghost use Rattle.problem_theory.specs.Theory.{Agrees};
ghost use Rattle.search_workers.specs.Prepared.{IsPreparedDesk};
ghost use Rattle.answers.specs.Offers.{told_value};
ghost use Rattle.answers.specs.Outcomes.{HasSearched, IsConcluded};
ghost use Rattle.answers.specs.Over.{IsOver};
ghost use Rattle.commands.specs.Searches.{HasExplored, IsKeptOn, KeepsSome};
ghost use Rattle.commands.specs.Starts.{IsReadyFor};

use crate::runner::Runner;
use answers::{Conclusion, conclude};
use board::Board;
use disk::Disk;
use dp_model::{DpModel, OutOfMemory};
use kept_board::Kept;
use search_workers::{Desk, Gate, explore_together};
use solver_words::JobSettings;
use std::alloc::Global;
use std::sync::Wait;
use std::thread::Threads;
use turn::NoTurn;

/// Searches from the board on by a worker for each desk, until the search ends, and gives the board and the disk. Fails only for want of
/// memory before the search begins, and then the disk is as it was.
///
/// Board and model are of one instance, nothing is out, there are as many desks as workers of the settings, and each desk was prepared for
/// the model and the width of the settings.
fn explore<M: DpModel, D: Disk + Send, G: Gate + Sync, R: Threads + Wait + Sync>(
    run: &Runner<'_, G, R>,
    kept: Kept<M, D>,
    desks: &mut Vec<Desk>,
    model: &M,
) -> (Result<Board<M>, OutOfMemory>, D)
    requires numbers { kept.board.numbers ≡ M.numbers model.now }
    requires idle { full_slots kept.board.board.slots ≡ [] }
    requires workers { kept.board.board.settings.workers ≡ vec_len desks.old }
    requires prepared { All (IsPreparedDesk (M.meaning (M.numbers model.now)) kept.board.board.settings.width) desks.old.items }
    ensures explored { IfOk result.0 (HasExplored D.Disk (M.meaning (M.numbers model.now)) kept result.1) }
    ensures prepared { All (IsPreparedDesk (M.meaning (M.numbers model.now)) kept.board.board.settings.width) desks.new.items }
    ensures err { IfErr result.0 (λ _. IsKeptOn D.Disk (M.meaning (M.numbers model.now)) (is_some kept.tail) kept.made result.1 kept.board.board) }
{
    match explore_together(run.rt, run.alloc, kept, desks, model, run.gate) {
        Ok(kept) => {
            let (board, disk) = kept.into_parts();
            (Ok(board), disk)
        }
        Err(NoTurn { value, cause }) => {
            let (_, disk) = value.into_parts();
            (Err(cause), disk)
        }
    }
}

/// Searches from the board on by a worker for each desk, and answers how the search ended, with its counts. Fails only for want of memory,
/// before the search or for the copy of its solution. The disk comes back, and the desks are prepared as before, so the book of each has
/// diagrams of the model alone. The model may be any dynamic program, with own words that agree with it.
pub fn search_from<M: DpModel, D: Disk + Send, G: Gate + Sync, R: Threads + Wait + Sync>(
    run: &Runner<'_, G, R>,
    kept: Kept<M, D>,
    desks: &mut Vec<Desk>,
    model: &M,
    search: JobSettings,
) -> (Result<Conclusion, OutOfMemory>, D)
    requires numbers { kept.board.numbers ≡ M.numbers model.now }
    requires ready { IsReadyFor (M.meaning (M.numbers model.now)) search kept.board desks.old }
    ensures searched { (own : List ℕ → Option ℤ) → Agrees (M.meaning (M.numbers model.now)) own → IfOk result.0 (λ told. HasSearched (M.meaning (M.numbers model.now)) own (λ _. kept.board.first) (IsGood (M.meaning (M.numbers model.now)) kept.board.first) search (IsKeptOn D.Disk (M.meaning (M.numbers model.now)) (is_some kept.tail) kept.made result.1) told.outcome told.counts) }
    // A run never lowers the incumbent, and never ends the failure of a journal.
    ensures rises { (own : List ℕ → Option ℤ) → Agrees (M.meaning (M.numbers model.now)) own → IfOk result.0 (λ told. OptionAtMost (incumbent_value kept.board.board) (told_value told.outcome)) }
    ensures failed { kept.board.board.cause ≡ Some Journal → Rose (D.faults kept.made) (D.faults result.1) }
    ensures keeps { KeepsSome D.Disk (M.meaning (M.numbers model.now)) (is_some kept.tail) kept.made result.1 kept.board.board.settings }
    ensures prepared { All (IsPreparedDesk (M.meaning (M.numbers model.now)) kept.board.board.settings.width) desks.new.items }
{
    let (explored, disk) = explore(run, kept, desks, model);
    match explored {
        Ok(board) => (concluded(run.alloc, board, model, search), disk),
        Err(error) => (Err(error), disk),
    }
}

/// How a search that is over ended, and its counts, as `conclude` says. It consumes the board.
fn concluded<M: DpModel>(
    alloc: Global,
    board: Board<M>,
    model: &M,
    search: JobSettings,
) -> Result<Conclusion, OutOfMemory>
    requires numbers { board.numbers ≡ M.numbers model.now }
    requires over { IsOver (M.meaning (M.numbers model.now)) search board.first board.board }
    ensures { (own : List ℕ → Option ℤ) → Agrees (M.meaning (M.numbers model.now)) own → IfOk result (λ told. IsConcluded (M.meaning (M.numbers model.now)) own search board.first board.board told.outcome told.counts) }
{
    conclude(alloc, &board, model, search)
}
