//! Records, one after another.

ghost use Rattle.std.specs.Prelude.{◌≡◌, ◌⊎◌, map, IfErr, IfOk, OnOk, vec_len};
ghost use Rattle.dp_model.specs.Numbers.{is_above};
ghost use Rattle.board_laws.specs.Board.{value_held};
ghost use Rattle.journal_bytes.specs.Bodies.{Finish, Improve};
ghost use Rattle.journal_bytes.specs.Views.{child_view, record_view};
ghost use Rattle.journal_replay.specs.Accepting.{AreRefusedFrom, MayFollowAll};
ghost use Rattle.journal_replay.specs.Places.{AreCells, BranchGives, FollowGives, VerdictGives};
ghost use Rattle.journal_replay.specs.Replay.{after_records};

use crate::children::add_children;
use crate::offsets::offset_after;
use crate::restarting::restarted;
use crate::state::{Best, State};
use crate::verdict::Verdict;
use crate::walking::{Rows, value_in};
use dp_model::{DpModel, OutOfMemory};
use journal_bytes::{Child, Record};
use journal_file::JournalError;
use std::alloc::Global;

/// Whether a value is greater than that of a best solution.
fn is_better(best: &Option<Best>, value: i64) -> bool
    ensures { result ≡ is_above (value_held best.now) value }
{
    match best {
        Some(best) => value > best.value,
        None => true,
    }
}

/// Follows an improvement.
fn improve<M: DpModel>(
    alloc: Global,
    model: &M,
    value: i64,
    decisions: &[u32],
    state: &mut State,
    rows: &mut Rows,
) -> Result<Verdict, OutOfMemory>
    requires cells { AreCells (M.meaning (M.numbers model.now)) (vec_len rows.old.row) (vec_len rows.old.spare) }
    ensures gives { IfOk result (FollowGives (M.meaning (M.numbers model.now)) state.old (Improve value decisions.now) state.new) }
    ensures cells { AreCells (M.meaning (M.numbers model.now)) (vec_len rows.new.row) (vec_len rows.new.spare) }
{
    let Some(worth) = value_in(model, decisions, rows) else {
        return Ok(Verdict::NoSolution);
    };
    if worth == value && is_better(&state.best, value) {
        let decisions = Vec::from_slice(alloc, decisions)?;
        state.best = Some(Best { value, decisions });
        Ok(Verdict::Accepted)
    } else {
        Ok(Verdict::Malformed)
    }
}

/// Takes out the subproblem with the ticket and adds its children. Answers false exactly where it is not listed, or they may not be
/// its children.
fn branch<M: DpModel>(
    alloc: Global,
    model: &M,
    ticket: u64,
    children: &[Child],
    state: &mut State,
    rows: &mut Rows,
) -> Result<bool, OutOfMemory>
    requires cells { AreCells (M.meaning (M.numbers model.now)) (vec_len rows.old.row) (vec_len rows.old.spare) }
    ensures gives { IfOk result (BranchGives (M.meaning (M.numbers model.now)) state.old ticket (map child_view children.now) state.new) }
    ensures cells { AreCells (M.meaning (M.numbers model.now)) (vec_len rows.new.row) (vec_len rows.new.spare) }
{
    let Some(parent) = state.take_out(ticket) else {
        return Ok(false);
    };
    let prefix = parent.decisions.as_slice();
    let spare = rows.spare.as_mut_slice();
    add_children(alloc, model, prefix, children, state, spare)
}

/// Follows a finished subproblem.
fn finish<M: DpModel>(
    alloc: Global,
    model: &M,
    ticket: u64,
    children: &[Child],
    state: &mut State,
    rows: &mut Rows,
) -> Result<Verdict, OutOfMemory>
    requires cells { AreCells (M.meaning (M.numbers model.now)) (vec_len rows.old.row) (vec_len rows.old.spare) }
    ensures gives { IfOk result (FollowGives (M.meaning (M.numbers model.now)) state.old (Finish ticket (map child_view children.now)) state.new) }
    ensures cells { AreCells (M.meaning (M.numbers model.now)) (vec_len rows.new.row) (vec_len rows.new.spare) }
{
    if children.len() as u64 > u64::MAX - state.next_ticket() {
        return Ok(Verdict::Malformed);
    }
    if branch(alloc, model, ticket, children, state, rows)? {
        Ok(Verdict::Accepted)
    } else {
        Ok(Verdict::Malformed)
    }
}

/// Follows a record. The state is that after it where it is accepted.
fn follow<M: DpModel>(
    alloc: Global,
    model: &M,
    entry: &Record,
    state: &mut State,
    rows: &mut Rows,
) -> Result<Verdict, OutOfMemory>
    requires cells { AreCells (M.meaning (M.numbers model.now)) (vec_len rows.old.row) (vec_len rows.old.spare) }
    ensures gives { IfOk result (FollowGives (M.meaning (M.numbers model.now)) state.old (record_view entry.now) state.new) }
    ensures cells { AreCells (M.meaning (M.numbers model.now)) (vec_len rows.new.row) (vec_len rows.new.spare) }
{
    match entry {
        Record::Improve { value, decisions } => {
            improve(alloc, model, *value, decisions, state, rows)
        }
        Record::Finish { ticket, children } => {
            finish(alloc, model, *ticket, children, state, rows)
        }
        Record::Snapshot {
            incumbent,
            next_ticket,
            listed,
        } => match restarted(alloc, model, incumbent, *next_ticket, listed, rows)? {
            Ok(fresh) => {
                *state = fresh;
                Ok(Verdict::Accepted)
            }
            Err(verdict) => Ok(verdict),
        },
    }
}

/// The error for a record at an offset.
fn error_at(verdict: Verdict, offset: u64) -> Result<(), JournalError>
    ensures { VerdictGives offset verdict result }
{
    match verdict {
        Verdict::Accepted => Ok(()),
        Verdict::NoSolution => Err(JournalError::NoSolution { offset }),
        Verdict::Malformed => Err(JournalError::Malformed { offset }),
    }
}

/// Follows records, the first of which stands at this offset.
pub fn follow_all<M: DpModel>(
    alloc: Global,
    model: &M,
    first: u64,
    records: &[Record],
    state: &mut State,
    rows: &mut Rows,
) -> Result<(), JournalError>
    requires cells { AreCells (M.meaning (M.numbers model.now)) (vec_len rows.old.row) (vec_len rows.old.spare) }
    ensures may { OnOk result (MayFollowAll (M.meaning (M.numbers model.now)) state.old (map record_view records.now)) }
    ensures after { OnOk result (state.new ≡ after_records (M.meaning (M.numbers model.now)) state.old (map record_view records.now)) }
    ensures refused { IfErr result (AreRefusedFrom (M.meaning (M.numbers model.now)) state.old first (map record_view records.now)) }
{
    let mut offset = first;
    for entry in records {
        let verdict = follow(alloc, model, entry, state, rows)?;
        error_at(verdict, offset)?;
        let Some(next) = offset_after(offset, entry) else {
            return Err(JournalError::OutOfMemory);
        };
        offset = next;
    }
    Ok(())
}
