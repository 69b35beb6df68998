ghost use Rattle.std.specs.Prelude.{◌≡◌, ◌≤◌, ℕ, ℤ, List, Option, true, false, None, IsTrue, IfOk};
ghost use Rattle.problem_theory.specs.Theory.{Agrees};
ghost use Rattle.dp_model.specs.Counts.{tree};
ghost use Rattle.board_laws.specs.Board.{is_explored};
ghost use Rattle.board_laws.specs.GoodBoard.{IsBoard, IsGood};
ghost use Rattle.board_laws.specs.Taking.{is_budget_up};
ghost use Rattle.answers.specs.Outcomes.{IsConcluded, IsCounted, IsTold, IsTrueOf, StopHolds};
ghost use Rattle.answers.specs.Over.{IsOver};

use board::Board;
use board_laws::Cause;
use dp_model::{DpModel, OutOfMemory};
use solver_report::{Counts, Outcome, Solution, Stop};
use solver_words::JobSettings;
use std::alloc::Global;

/// How a search that is over ended.
#[derive(Debug, Drop)]
pub struct Conclusion {
    /// Its outcome.
    pub outcome: Outcome,
    /// Its counts, if they are asked for.
    pub counts: Option<Counts>,
}

/// How a search that is over ended, with its counts if they are asked for. The outcome is right in any own words that agree with the dynamic
/// program. Fails only for want of memory.
pub fn conclude<M: DpModel>(
    alloc: Global,
    board: &Board<M>,
    model: &M,
    search: JobSettings,
) -> Result<Conclusion, OutOfMemory>
    requires numbers { board.now.numbers ≡ M.numbers model.now }
    requires over { IsOver (M.meaning (M.numbers model.now)) search board.now.first board.now.board }
    ensures { (own : List ℕ → Option ℤ) → Agrees (M.meaning (M.numbers model.now)) own → IfOk result (λ told. IsConcluded (M.meaning (M.numbers model.now)) own search board.now.first board.now.board told.outcome told.counts) }
{
    let found = held_solution(alloc, board)?;
    let outcome = outcome_of(board, model, found, search);
    let counts = counts_of(board, search.stats);
    Ok(Conclusion { outcome, counts })
}

/// A copy of the incumbent. Fails only for want of memory.
fn held_solution<M: DpModel>(
    alloc: Global,
    board: &Board<M>,
) -> Result<Option<Solution>, OutOfMemory>
    ensures { IfOk result (λ found. found ≡ board.now.board.incumbent) }
{
    match board.incumbent() {
        Some(found) => Ok(Some(Solution::copy_of(alloc, found)?)),
        None => Ok(None),
    }
}

/// The counts of a search, where they are asked for.
fn counts_of<M: DpModel>(board: &Board<M>, stats: bool) -> Option<Counts>
    ensures counts { IsCounted board.now.board stats result }
    ensures kept { IsBoard (M.meaning board.now.numbers) board.now.board }
    ensures good { IsGood (M.meaning board.now.numbers) board.now.first → IsGood (M.meaning board.now.numbers) board.now.board }
    ensures few { IsGood (M.meaning board.now.numbers) board.now.first → board.now.board.finished ≤ tree (M.meaning board.now.numbers) }
{
    // What the board keeps of its counts.
    board.facts();
    let finished = board.finished();
    if !stats {
        return None;
    }
    Some(Counts {
        taken: board.taken(),
        finished,
    })
}

/// How a search that is over ended.
fn outcome_of<M: DpModel>(
    board: &Board<M>,
    model: &M,
    found: Option<Solution>,
    search: JobSettings,
) -> Outcome
    requires numbers { board.now.numbers ≡ M.numbers model.now }
    requires over { IsOver (M.meaning (M.numbers model.now)) search board.now.first board.now.board }
    requires copied { found ≡ board.now.board.incumbent }
    ensures told { (own : List ℕ → Option ℤ) → Agrees (M.meaning (M.numbers model.now)) own → IsTold (M.meaning (M.numbers model.now)) own board.now.board result }
    ensures ends { (own : List ℕ → Option ℤ) → Agrees (M.meaning (M.numbers model.now)) own → IsGood (M.meaning (M.numbers model.now)) board.now.first → IsTrueOf (M.meaning (M.numbers model.now)) own search.budget result }
{
    if board.is_explored() {
        return explored(board, model, found, search.within);
    }
    stopped(board, model, found, search)
}

/// How a search with nothing open or out ended: no feasible solution is further above the incumbent than the distance, or there is none.
fn explored<M: DpModel>(
    board: &Board<M>,
    model: &M,
    found: Option<Solution>,
    within: i64,
) -> Outcome
    requires numbers { board.now.numbers ≡ M.numbers model.now }
    requires nothing_left { is_explored board.now.board ≡ true }
    requires distance { within ≡ board.now.board.settings.within }
    requires copied { found ≡ board.now.board.incumbent }
    ensures told { (own : List ℕ → Option ℤ) → Agrees (M.meaning (M.numbers model.now)) own → IsTold (M.meaning (M.numbers model.now)) own board.now.board result }
    ensures ends { (own : List ℕ → Option ℤ) → Agrees (M.meaning (M.numbers model.now)) own → (budget : ℕ) → IsGood (M.meaning (M.numbers model.now)) board.now.first → IsTrueOf (M.meaning (M.numbers model.now)) own budget result }
{
    // What the board keeps of its incumbent, and that no feasible solution exceeds the reach.
    board.facts();
    let _ = board.is_explored();
    match found {
        Some(best) => Outcome::Proved { best, within },
        None => Outcome::Infeasible,
    }
}

/// How a search ended while something was open.
fn stopped<M: DpModel>(
    board: &Board<M>,
    model: &M,
    found: Option<Solution>,
    search: JobSettings,
) -> Outcome
    requires numbers { board.now.numbers ≡ M.numbers model.now }
    requires over { IsOver (M.meaning (M.numbers model.now)) search board.now.first board.now.board }
    requires left { is_explored board.now.board ≡ false }
    requires copied { found ≡ board.now.board.incumbent }
    ensures told { (own : List ℕ → Option ℤ) → Agrees (M.meaning (M.numbers model.now)) own → IsTold (M.meaning (M.numbers model.now)) own board.now.board result }
    ensures ends { (own : List ℕ → Option ℤ) → Agrees (M.meaning (M.numbers model.now)) own → IsGood (M.meaning (M.numbers model.now)) board.now.first → IsTrueOf (M.meaning (M.numbers model.now)) own search.budget result }
{
    // What the board keeps of its incumbent.
    board.facts();
    let stop = stop_of(board);
    let Some(bound) = board.bound() else {
        unreachable!();
    };
    Outcome::Stopped(stop, found, bound)
}

/// Why a search ended while something was open. The budget is no cause that a board keeps.
fn stop_of<M: DpModel>(board: &Board<M>) -> Stop
    requires { board.now.board.cause ≡ None → IsTrue (is_budget_up board.now.board) }
    ensures { StopHolds board.now.board result }
{
    // What the board keeps of its cause.
    board.facts();
    match board.cause() {
        None => Stop::Budget,
        Some(Cause::Memory) => Stop::Memory,
        Some(Cause::Journal) => Stop::Journal,
        Some(Cause::Budget) => unreachable!(),
    }
}
