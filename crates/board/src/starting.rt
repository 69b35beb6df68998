//! The start of a board.

ghost use Rattle.std.specs.Prelude.{◌≡◌, ◌≤◌, [], IfOk, length, option_map, vec_len};
ghost use Rattle.board_laws.specs.Steps.{empty_slots, root_bound, root_subproblem, first_incumbent, first_open};
ghost use Rattle.board.specs.Kept.{best_of};
ghost use Rattle.board.specs.Starting.{IsStart, start_best};

use crate::checked_out::CheckedOut;
use crate::start::Start;
use dp_model::{DpModel, OutOfMemory, Sub};
use fringe::Fringe;
use std::alloc::Global;

/// An empty slot for each of `workers` workers. Fails only for want of memory.
pub fn empty_slots(alloc: Global, workers: u32) -> Result<Vec<Option<CheckedOut>>, OutOfMemory>
    ensures { IfOk result (λ slots. slots.items ≡ empty_slots workers) }
{
    let mut slots = Vec::with_capacity(alloc, workers as usize)?;
    for _made in 0..workers {
        slots.push_reserved(None);
    }
    Ok(slots)
}

/// The value of the empty solution, or `None` if there are variables.
fn first_value<M: DpModel>(model: &M) -> Option<i64>
    ensures { best_of [] result ≡ first_incumbent (M.meaning (M.numbers model.now)) }
{
    if model.vars() == 0 {
        Some(model.root_value())
    } else {
        None
    }
}

/// Writes the root state.
fn write_root<M: DpModel>(model: &M, row: &mut Vec<i64>)
    requires { vec_len row.old ≡ (M.meaning (M.numbers model.now)).words }
    ensures { row.new.items ≡ (M.meaning (M.numbers model.now)).root }
{
    model.root(row.as_mut_slice());
}

/// The bound of the root, or `None` if it is known to have no completion.
fn root_bound<M: DpModel>(model: &M, row: &[i64]) -> Option<i64>
    requires { row.now ≡ (M.meaning (M.numbers model.now)).root }
    ensures { result ≡ root_bound (M.meaning (M.numbers model.now)) }
{
    let Some(rough) = model.rough(0, row) else {
        return None;
    };
    Some(model.root_value() + rough)
}

/// The root as a subproblem, or `None` if it is known to have no completion. Fails only for want of memory.
pub fn root_sub<M: DpModel>(alloc: Global, model: &M) -> Result<Option<Sub>, OutOfMemory>
    ensures root { IfOk result (λ root. option_map (λ s. s.subproblem) root ≡ root_subproblem (M.meaning (M.numbers model.now))) }
{
    let mut sub = Sub::blank(alloc, model.vars(), model.words())?;
    write_root(model, &mut sub.row);
    let Some(bound) = root_bound(model, sub.row.as_slice()) else {
        return Ok(None);
    };
    sub.value = model.root_value();
    sub.bound = bound;
    Ok(Some(sub))
}

/// An empty fringe with room for `count` subproblems of `words` cells. Fails only for want of memory.
pub fn fringe_for(alloc: Global, words: usize, count: usize) -> Result<Fringe, OutOfMemory>
    requires { 1 ≤ words }
    ensures open { IfOk result (λ fringe. fringe.open_ones ≡ []) }
    ensures words { IfOk result (λ fringe. fringe.words ≡ words) }
    ensures room { IfOk result (λ fringe. count ≤ fringe.spare) }
{
    let mut fringe = Fringe::new(alloc, words);
    fringe.reserve(count)?;
    Ok(fringe)
}

/// The fringe with the root, or an empty one if there are no variables or the root has no bound.
fn first_open<M: DpModel>(alloc: Global, model: &M) -> Result<Fringe, OutOfMemory>
    ensures open { IfOk result (λ fringe. fringe.open_ones ≡ first_open (M.meaning (M.numbers model.now))) }
    ensures words { IfOk result (λ fringe. fringe.words ≡ (M.meaning (M.numbers model.now)).words) }
{
    if model.vars() == 0 {
        return Ok(Fringe::new(alloc, model.words()));
    }
    let Some(root) = root_sub(alloc, model)? else {
        return Ok(Fringe::new(alloc, model.words()));
    };
    let mut fringe = fringe_for(alloc, model.words(), 1)?;
    fringe.push(0, root);
    Ok(fringe)
}

/// What the first board starts with: the root is open, or the empty solution is the incumbent. Fails only for want of memory.
pub fn first_start<M: DpModel>(alloc: Global, model: &M) -> Result<Start, OutOfMemory>
    ensures best { IfOk result (λ s. start_best s ≡ first_incumbent (M.meaning (M.numbers model.now))) }
    ensures open { IfOk result (λ s. s.fringe.open_ones ≡ first_open (M.meaning (M.numbers model.now))) }
    ensures next { IfOk result (λ s. s.next_ticket ≡ length (first_open (M.meaning (M.numbers model.now)))) }
    ensures of { IfOk result (IsStart (M.meaning (M.numbers model.now))) }
{
    let best = Vec::with_capacity(alloc, model.vars())?;
    let fringe = first_open(alloc, model)?;
    let next_ticket = fringe.len() as u64;
    Ok(Start {
        best,
        best_value: first_value(model),
        fringe,
        next_ticket,
    })
}
