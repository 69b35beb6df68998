//! What a restored board starts with.

ghost use Rattle.std.specs.Prelude.{◌≡◌, ◌≤◌, ℤ, ◌+ℤ◌, [], length, IfOk, Some, vec_capacity};
ghost use Rattle.dp_model.specs.Lists.{Each};
ghost use Rattle.dp_model.specs.Numbers.{IsFar};
ghost use Rattle.dp_model.specs.Prefixes.{IsSolution, value_of};
ghost use Rattle.dp_laws.specs.Pairs.{EachTwo};
ghost use Rattle.fringe.specs.Tickets.{IsEarlier};
ghost use Rattle.board_laws.specs.Board.{AreSettings, reach_of, value_held};
ghost use Rattle.board_laws.specs.GoodBoard.{IncumbentHolds};
ghost use Rattle.board_laws.specs.Restoring.{MayRestore, pushed_above};
ghost use Rattle.board.specs.Kept.{best_of};
ghost use Rattle.board.specs.Opened.{solution_in, ticketed};
ghost use Rattle.board.specs.Starting.{IsStart, start_best};

use crate::checked_out::CheckedOut;
use crate::copying::copy_decisions;
use crate::entering::put_back;
use crate::start::Start;
use crate::starting::fringe_for;
use board_laws::Settings;
use dp_model::{DpModel, OutOfMemory, Sub, solution_value};
use fringe::Fringe;
use std::alloc::Global;

/// The sum of the value and the distance, or `None` if there is no value.
pub fn reach_of(within: i64, value: Option<i64>) -> Option<i64>
    requires { (v : ℤ) → value ≡ Some v → IsFar (v +ℤ within) }
    ensures { result ≡ reach_of within value }
{
    match value {
        Some(value) => Some(value + within),
        None => None,
    }
}

/// The value of a feasible solution.
fn worth<M: DpModel>(
    alloc: Global,
    model: &M,
    decisions: &[u32],
) -> Result<Option<i64>, OutOfMemory>
    requires { IsSolution (M.meaning (M.numbers model.now)) decisions.now }
    ensures { IfOk result (λ value. value ≡ Some (value_of (M.meaning (M.numbers model.now)) decisions.now)) }
{
    let mut row = vec![in alloc; 0i64; model.words()]?;
    let mut spare = vec![in alloc; 0i64; model.words()]?;
    Ok(solution_value(model, decisions, row.as_mut_slice(), spare.as_mut_slice()))
}

/// Pushes subproblems under their tickets in order, each unless its bound is at most the reach.
fn push_above(fringe: &mut Fringe, reach: Option<i64>, opened: Vec<(u64, Sub)>)
    requires room { length opened.items ≤ fringe.old.spare }
    requires empty { fringe.old.open_ones ≡ [] }
    requires cells { Each (λ o. length o.subproblem.row ≡ fringe.old.words) (ticketed opened.items) }
    requires ordered { EachTwo IsEarlier (ticketed opened.items) }
    ensures pushed { fringe.new.open_ones ≡ pushed_above reach [] (ticketed opened.items) }
    ensures words { fringe.new.words ≡ fringe.old.words }
{
    for (ticket, sub) in opened {
        put_back(fringe, reach, CheckedOut { ticket, sub });
    }
}

/// Copies the incumbent's decisions and answers its value, or answers `None` exactly if there is no incumbent.
fn copy_incumbent<M: DpModel>(
    alloc: Global,
    model: &M,
    incumbent: Option<&[u32]>,
    best: &mut Vec<u32>,
) -> Result<Option<i64>, OutOfMemory>
    requires holds { IncumbentHolds (M.meaning (M.numbers model.now)) (solution_in (M.meaning (M.numbers model.now)) incumbent) }
    requires room { (M.meaning (M.numbers model.now)).vars ≤ vec_capacity best.old }
    ensures copied { IfOk result (λ value. best_of best.new.items value ≡ solution_in (M.meaning (M.numbers model.now)) incumbent.entry) }
    ensures capacity { vec_capacity best.old ≤ vec_capacity best.new }
{
    let Some(decisions) = incumbent else {
        return Ok(None);
    };
    copy_decisions(best, decisions);
    worth(alloc, model, decisions)
}

/// What a restored board starts with: the incumbent, and the subproblems above the reach. Fails only for want of memory.
pub fn restored_start<M: DpModel>(
    alloc: Global,
    model: &M,
    settings: &Settings,
    incumbent: Option<&[u32]>,
    opened: Vec<(u64, Sub)>,
    next_ticket: u64,
) -> Result<Start, OutOfMemory>
    requires settings { AreSettings settings.now }
    requires may { MayRestore (M.meaning (M.numbers model.now)) (solution_in (M.meaning (M.numbers model.now)) incumbent) (ticketed opened.items) next_ticket }
    ensures best { IfOk result (λ s. start_best s ≡ solution_in (M.meaning (M.numbers model.now)) incumbent.entry) }
    ensures open { IfOk result (λ s. s.fringe.open_ones ≡ pushed_above (reach_of settings.now.within (value_held (start_best s))) [] (ticketed opened.items)) }
    ensures next { IfOk result (λ s. s.next_ticket ≡ next_ticket) }
    ensures of { IfOk result (IsStart (M.meaning (M.numbers model.now))) }
{
    let mut best = Vec::with_capacity(alloc, model.vars())?;
    let best_value = copy_incumbent(alloc, model, incumbent, &mut best)?;
    let reach = reach_of(settings.within, best_value);
    let mut fringe = fringe_for(alloc, model.words(), opened.len())?;
    push_above(&mut fringe, reach, opened);
    Ok(Start {
        best,
        best_value,
        fringe,
        next_ticket,
    })
}
