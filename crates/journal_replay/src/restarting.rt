//! A snapshot, from which a replay begins.

ghost use Rattle.std.specs.Prelude.{◌≡◌, length, map, IfOk, option_map, vec_len};
ghost use Rattle.journal_bytes.specs.Views.{incumbent_view, listed_view};
ghost use Rattle.journal_replay.specs.Places.{AreCells, BestGives, ListedGives, PlaceGives, RestartGives};

use crate::state::{Best, Place, State};
use crate::verdict::Verdict;
use crate::walking::{Rows, prefix_sub, value_in};
use dp_model::{DpModel, OutOfMemory};
use journal_bytes::{Incumbent, Listed};
use std::alloc::Global;

/// The best solution of a snapshot, or what is wrong with it.
fn best_of<M: DpModel>(
    alloc: Global,
    model: &M,
    incumbent: &Option<Incumbent>,
    rows: &mut Rows,
) -> Result<Result<Option<Best>, Verdict>, OutOfMemory>
    requires cells { AreCells (M.meaning (M.numbers model.now)) (vec_len rows.old.row) (vec_len rows.old.spare) }
    ensures gives { IfOk result (BestGives (M.meaning (M.numbers model.now)) (option_map incumbent_view incumbent.now)) }
    ensures cells { AreCells (M.meaning (M.numbers model.now)) (vec_len rows.new.row) (vec_len rows.new.spare) }
{
    let Some(incumbent) = incumbent else {
        return Ok(Ok(None));
    };
    let decisions = incumbent.decisions.as_slice();
    let Some(value) = value_in(model, decisions, rows) else {
        return Ok(Err(Verdict::NoSolution));
    };
    if value != incumbent.value {
        return Ok(Err(Verdict::Malformed));
    }
    let decisions = Vec::from_slice(alloc, decisions)?;
    Ok(Ok(Some(Best { value, decisions })))
}

/// The place of a subproblem of a snapshot, or `None` exactly where its ticket is not from `least` on and below `next`, it is no
/// prefix shorter than a solution, or the size of its bound is greater than 2^62. `spare` is written over.
fn place_of<M: DpModel>(
    alloc: Global,
    model: &M,
    listed: &Listed,
    tickets: (u64, u64),
    spare: &mut [i64],
) -> Result<Option<Place>, OutOfMemory>
    requires cells { length spare.old ≡ (M.meaning (M.numbers model.now)).words }
    ensures { IfOk result (PlaceGives (M.meaning (M.numbers model.now)) tickets.0 tickets.1 (listed_view listed.now)) }
{
    let (least, next) = tickets;
    if listed.ticket < least || next <= listed.ticket {
        return Ok(None);
    }
    let decisions = listed.decisions.as_slice();
    let Some(sub) = prefix_sub(alloc, model, decisions, listed.bound, spare)? else {
        return Ok(None);
    };
    Ok(Some(Place {
        ticket: listed.ticket,
        sub: Some(sub),
    }))
}

/// The places of the subproblems of a snapshot, or `None` exactly where a search may not be restored from them. `spare` is written
/// over.
fn places_of<M: DpModel>(
    alloc: Global,
    model: &M,
    listed: &[Listed],
    next: u64,
    spare: &mut [i64],
) -> Result<Option<Vec<Place>>, OutOfMemory>
    requires cells { length spare.old ≡ (M.meaning (M.numbers model.now)).words }
    ensures { IfOk result (λ places. ListedGives (M.meaning (M.numbers model.now)) next (map listed_view listed.now) (option_map (λ v. v.items) places)) }
{
    let mut places = Vec::new(alloc);
    let mut least: u64 = 0;
    for one in listed {
        let Some(place) = place_of(alloc, model, one, (least, next), spare)? else {
            return Ok(None);
        };
        least = place.ticket + 1;
        places.push(place)?;
    }
    Ok(Some(places))
}

/// What a snapshot makes of a search, or what is wrong with it.
pub fn restarted<M: DpModel>(
    alloc: Global,
    model: &M,
    incumbent: &Option<Incumbent>,
    next: u64,
    listed: &[Listed],
    rows: &mut Rows,
) -> Result<Result<State, Verdict>, OutOfMemory>
    requires cells { AreCells (M.meaning (M.numbers model.now)) (vec_len rows.old.row) (vec_len rows.old.spare) }
    ensures gives { IfOk result (RestartGives (M.meaning (M.numbers model.now)) (option_map incumbent_view incumbent.now) next (map listed_view listed.now)) }
    ensures cells { AreCells (M.meaning (M.numbers model.now)) (vec_len rows.new.row) (vec_len rows.new.spare) }
{
    let best = match best_of(alloc, model, incumbent, rows)? {
        Ok(best) => best,
        Err(verdict) => return Ok(Err(verdict)),
    };
    let spare = rows.spare.as_mut_slice();
    match places_of(alloc, model, listed, next, spare)? {
        Some(places) => Ok(Ok(State::restored(best, places, next))),
        None => Ok(Err(Verdict::Malformed)),
    }
}
