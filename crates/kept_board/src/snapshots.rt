//! A board as a snapshot has it.

ghost use Rattle.std.specs.Prelude.{◌≡◌, map, option_map, IfOk};
ghost use Rattle.dp_model.specs.Solution.{Solution};
ghost use Rattle.dp_model.specs.declared.found.Found.{Found};
ghost use Rattle.fringe.specs.Listing.{referred};
ghost use Rattle.journal_bytes.specs.Views.{incumbent_view, listed_view, record_view};
ghost use Rattle.journal_replay.specs.Following.{incumbent_recorded, listed_recorded, snapshot_record};

use board::Board;
use dp_model::{DpModel, Found, OutOfMemory, Sub};
use journal_bytes::{Incumbent, Listed, Record};
use std::alloc::Global;

/// The incumbent, where there is one.
fn incumbent_of(alloc: Global, best: Option<Found<'_>>) -> Result<Option<Incumbent>, OutOfMemory>
    ensures { IfOk result (λ b. option_map incumbent_view b ≡ option_map incumbent_recorded (option_map (λ (f : Found). record { decisions = f.decisions.now; value = f.value }) best.entry)) }
{
    match best {
        Some(best) => Ok(Some(Incumbent {
            value: best.value,
            decisions: Vec::from_slice(alloc, best.decisions)?,
        })),
        None => Ok(None),
    }
}

/// A subproblem with its ticket.
fn listed(alloc: Global, ticket: u64, sub: &Sub) -> Result<Listed, OutOfMemory>
    ensures { IfOk result (λ o. listed_view o ≡ listed_recorded (record { ticket = ticket; subproblem = sub.now.subproblem })) }
{
    Ok(Listed {
        ticket,
        bound: sub.bound,
        decisions: Vec::from_slice(alloc, sub.decisions.as_slice())?,
    })
}

/// Subproblems with their tickets, in order.
fn listed_of(alloc: Global, frontier: &[(u64, &Sub)]) -> Result<Vec<Listed>, OutOfMemory>
    ensures { IfOk result (λ v. map listed_view v.items ≡ map listed_recorded (map referred frontier.now)) }
{
    let mut all = Vec::with_capacity(alloc, frontier.len())?;
    for (ticket, sub) in frontier {
        all.push(listed(alloc, *ticket, sub)?)?;
    }
    Ok(all)
}

/// The snapshot of a board: its incumbent, the next ticket, and all that is open or out, in order of ticket.
pub fn snapshot_of<M: DpModel>(alloc: Global, board: &Board<M>) -> Result<Record, OutOfMemory>
    ensures { IfOk result (λ r. record_view r ≡ snapshot_record board.now.board) }
{
    let frontier = board.frontier()?;
    Ok(Record::Snapshot {
        incumbent: incumbent_of(alloc, board.incumbent())?,
        next_ticket: board.next_ticket(),
        listed: listed_of(alloc, frontier.as_slice())?,
    })
}
