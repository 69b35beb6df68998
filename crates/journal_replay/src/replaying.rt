//! From the records of a journal to the board that goes on.

ghost use Rattle.std.specs.Prelude.{◌≡◌, IfErr, IfOk, OnOk};
ghost use Rattle.std.specs.Arc.{arc_value};
ghost use Rattle.dp_model.specs.Dp.{Dp};
ghost use Rattle.board_laws.specs.Board.{AreSettings};
ghost use Rattle.board_laws.specs.GoodBoard.{IncumbentHolds};
ghost use Rattle.board.specs.Opened.{solution_in};
ghost use Rattle.journal_replay.specs.Accepting.{AreAccepted, AreRefused};
ghost use Rattle.journal_replay.specs.Replay.{MayRestoreFrom, replay_of, replay_start, restored_from};

use crate::following::follow_all;
use crate::offsets::from_base;
use crate::state::{Best, State};
use crate::walking::Rows;
use board::{Board, Settings, root_sub};
use dp_model::{DpModel, OutOfMemory};
use journal_bytes::Records;
use journal_file::JournalError;
use std::alloc::Global;
use std::sync::Arc;

/// Before the first record: the root is listed, unless it is known to have no completion; without variables the empty solution is
/// the best instead.
fn first_state<M: DpModel>(alloc: Global, model: &M) -> Result<State, OutOfMemory>
    ensures { IfOk result (λ state. state ≡ replay_start (M.meaning (M.numbers model.now))) }
{
    if model.vars() == 0 {
        let best = Best {
            value: model.root_value(),
            decisions: Vec::new(alloc),
        };
        return Ok(State::new(alloc, Some(best)));
    }
    let mut state = State::new(alloc, None);
    let Some(root) = root_sub(alloc, model)? else {
        return Ok(state);
    };
    state.add(root)?;
    Ok(state)
}

/// What the records make of a search.
fn replayed<M: DpModel>(alloc: Global, records: &Records, model: &M) -> Result<State, JournalError>
    ensures accepted { OnOk result (AreAccepted (M.meaning (M.numbers model.now)) records.now.records) }
    ensures state { IfOk result (λ state. state ≡ replay_of (M.meaning (M.numbers model.now)) records.now.records) }
    ensures refused { IfErr result (AreRefused (M.meaning (M.numbers model.now)) records.now.first records.now.records) }
{
    let mut state = first_state(alloc, model)?;
    let mut rows = Rows::new(alloc, model.words())?;
    let Some((first, records)) = from_base(records.first(), records.as_slice()) else {
        return Err(JournalError::OutOfMemory);
    };
    follow_all(alloc, model, first, records, &mut state, &mut rows)?;
    Ok(state)
}

/// The decisions of the best solution.
fn decisions_of(best: &Option<Best>) -> Option<&[u32]>
    ensures { (dp : Dp) → IncumbentHolds dp best.now → solution_in dp result ≡ best.now }
{
    match best {
        Some(best) => Some(best.decisions.as_slice()),
        None => None,
    }
}

/// The board that is restored from it.
fn restore<M: DpModel>(
    alloc: Global,
    model: Arc<M>,
    settings: Settings,
    state: State,
) -> Result<Board<M>, OutOfMemory>
    requires settings { AreSettings settings }
    requires may { MayRestoreFrom (M.meaning (M.numbers (arc_value model))) state }
    ensures numbers { IfOk result (λ b. b.numbers ≡ M.numbers (arc_value model)) }
    ensures board { IfOk result (λ b. b.board ≡ restored_from settings state) }
    ensures first { IfOk result (λ b. b.first ≡ b.board) }
{
    let next = state.next_ticket();
    let (best, opened) = state.into_opened(alloc)?;
    let decisions = decisions_of(&best);
    Board::restore(alloc, model, settings, decisions, opened, next)
}

/// The board that the records of a journal lead to. The base is the last snapshot among them, or the start of a search where there
/// is none. The records after the base are followed from there, and what they list is open again under its own ticket where its
/// bound is above the reach, of those of one depth and state that with the greatest value and of equal ones the earliest. Nothing
/// is out or counted, and the table is empty.
///
/// There are from 1 to 16 workers, the width is at least 1, and the distance is that of the journal's head, from 0 to 2^50.
///
/// # Errors
///
/// The error is for the first record from the base on that is not valid at its place. It has the offset of that record.
///
/// - `NoSolution` exactly if the decisions of an improvement, or of the incumbent of a snapshot, are no feasible solution.
/// - Otherwise `Malformed`, and one of these is wrong:
///   - an improvement: its value is not that of its decisions, or is not greater than that of the incumbent;
///   - a finished subproblem: its ticket is not listed, or fewer tickets are left than it has children;
///   - a child: it is no prefix that properly extends the finished one and is shorter than a solution, its bound exceeds 2^62 in size, or
///     the subproblem that it replaces is not listed with its depth and state;
///   - the snapshot at the base: the value of its incumbent is not that of the decisions, the tickets do not rise or one is not below the
///     next ticket, or a subproblem is no prefix shorter than a solution or has a bound that exceeds 2^62 in size.
/// - `OutOfMemory` if there is too little memory.
///
/// Records before the base are not checked.
pub fn replay<M: DpModel>(
    alloc: Global,
    records: &Records,
    model: Arc<M>,
    settings: Settings,
) -> Result<Board<M>, JournalError>
    requires settings { AreSettings settings }
    requires within { settings.within ≡ records.now.within }
    ensures accepted { OnOk result (AreAccepted (M.meaning (M.numbers (arc_value model))) records.now.records) }
    ensures numbers { IfOk result (λ b. b.numbers ≡ M.numbers (arc_value model)) }
    ensures board { IfOk result (λ b. b.board ≡ restored_from settings (replay_of (M.meaning (M.numbers (arc_value model))) records.now.records)) }
    ensures first { IfOk result (λ b. b.first ≡ b.board) }
    ensures refused { IfErr result (AreRefused (M.meaning (M.numbers (arc_value model))) records.now.first records.now.records) }
{
    let state = replayed(alloc, records, &*model)?;
    let board = restore(alloc, model, settings, state)?;
    Ok(board)
}
