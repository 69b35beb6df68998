//! The workers.
ghost use Rattle.std.specs.Prelude.{◌≡◌, ℕ, ◌<◌, ◌≤◌, IfOk, IfSome, vec_len, map, length, ◌∷◌, [], Option, Some, None, pos, MatchOption};
ghost use Rattle.std.specs.List.{All, range_with_len};
ghost use Rattle.std.specs.Thread.{IsSync};
ghost use Rattle.turn.specs.Order.{NoLess};
ghost use Rattle.turn.specs.Seats.{first_of, seats_of, seen_of, out_of, number_of, IsSeatOf};
ghost use Rattle.tests_turn.specs.Work.{IsReadyAtCounter};
ghost use Rattle.tests_turn.specs.Counter.{slot_of};

use crate::counter::Counter;
use std::alloc::{AllocError, Global};
use std::sync::Wait;
use std::thread::{Threads, join_mut};
use turn::{NoTurn, Seat, Turn};

/// The desk of a worker.
#[derive(Clone, Copy, Drop)]
pub struct Desk {
    /// How many rounds the worker has done.
    pub rounds: u64,
}

/// Takes a number, if one is left.
fn take_one<R: Wait>(rt: &R, turn: &Turn<Counter>, seat: &mut Seat<Counter>) -> Option<u32>
    requires { IsReadyAtCounter turn.now seat.old }
    ensures own { IsSeatOf turn.now seat.new }
    ensures number { seat.new.number ≡ seat.old.number }
    ensures seen { NoLess (seen_of seat.old) (seen_of seat.new) }
    ensures out { MatchOption result (out_of seat.new ≡ None) (λ d. out_of seat.new ≡ Some (d ∷ [])) }
{
    let who = seat.number();
    let mut guard = turn.hold(rt, seat);
    let taken = guard.value().take(who);
    guard.leave();
    taken
}

/// Gives a number back.
fn finish_one<R: Wait>(rt: &R, turn: &Turn<Counter>, seat: &mut Seat<Counter>, number: u32)
    requires own { IsSeatOf turn.now seat.old }
    requires within { seat.old.number < length (first_of turn.now).slots }
    ensures own { IsSeatOf turn.now seat.new }
    ensures number { seat.new.number ≡ seat.old.number }
    ensures seen { NoLess (seen_of seat.old) (seen_of seat.new) }
    ensures at_least { NoLess (Some (pos number)) (seen_of seat.new) }
    ensures out { out_of seat.new ≡ None }
{
    let who = seat.number();
    let mut guard = turn.hold(rt, seat);
    guard.value().finish(who, number as i64);
    guard.leave();
}

/// Takes numbers and gives them back, until none is left.
pub fn work<R: Wait>(rt: &R, turn: &Turn<Counter>, seat: &mut Seat<Counter>, desk: &mut Desk)
    requires { IsReadyAtCounter turn.now seat.old }
    ensures ready { IsReadyAtCounter turn.now seat.new }
    ensures number { seat.new.number ≡ seat.old.number }
    ensures seen { NoLess (seen_of seat.old) (seen_of seat.new) }
{
    for _ in rt.forever() {
        let Some(number) = take_one(rt, turn, seat) else {
            return;
        };
        finish_one(rt, turn, seat, number);
        desk.rounds = desk.rounds.wrapping_add(1);
    }
    unreachable!()
}

#[cycle(fan)]
fn beside<R: Threads + Wait + Sync>(
    rt: &R,
    turn: &Turn<Counter>,
    seat: &mut Seat<Counter>,
    seats: &mut [Seat<Counter>],
    desk: &mut Desk,
    desks: &mut [Desk],
)
    requires first { IsReadyAtCounter turn.now seat.old }
    requires others { All (IsReadyAtCounter turn.now) seats.old }
    requires lengths { length seats.old ≡ length desks.old }
    ensures first { IsReadyAtCounter turn.now seat.new }
    ensures number { seat.new.number ≡ seat.old.number }
    ensures others { All (IsReadyAtCounter turn.now) seats.new }
    ensures numbers { map number_of seats.new ≡ map number_of seats.old }
{
    join_mut(
        rt,
        &mut ||
            requires { IsSync R.row × IsReadyAtCounter turn.now seat.now }
            ensures { IsReadyAtCounter turn.entry.now seat.exit.now × (seat.exit.now.number ≡ seat.entry.now.number) }
        { work(rt, turn, seat, desk) },
        &mut ||
            requires { IsSync R.row × (length seats.now ≡ length desks.now) × All (IsReadyAtCounter turn.now) seats.now }
            ensures { All (IsReadyAtCounter turn.entry.now) seats.exit.now × (map number_of seats.exit.now ≡ map number_of seats.entry.now) }
        { fan_out(rt, turn, seats, desks) },
    );
}

/// Runs the workers in parallel. Each has a seat and a desk.
#[cycle(fan)]
pub fn fan_out<R: Threads + Wait + Sync>(
    rt: &R,
    turn: &Turn<Counter>,
    seats: &mut [Seat<Counter>],
    desks: &mut [Desk],
)
    requires ready { All (IsReadyAtCounter turn.now) seats.old }
    requires lengths { length seats.old ≡ length desks.old }
    ensures ready { All (IsReadyAtCounter turn.now) seats.new }
    ensures numbers { map number_of seats.new ≡ map number_of seats.old }
{
    if let Some((seat, rest)) = seats.split_first_mut() {
        if let Some((desk, others)) = desks.split_first_mut() {
            beside(rt, turn, seat, rest, desk, others);
        }
    }
}

/// The same over all seats of a turn.
fn fan_all<R: Threads + Wait + Sync>(
    rt: &R,
    turn: &Turn<Counter>,
    seats: &mut Vec<Seat<Counter>>,
    desks: &mut Vec<Desk>,
)
    requires ready { All (IsReadyAtCounter turn.now) seats.old.items }
    requires lengths { vec_len seats.old ≡ vec_len desks.old }
    ensures ready { All (IsReadyAtCounter turn.now) seats.new.items }
    ensures numbers { map number_of seats.new.items ≡ map number_of seats.old.items }
{
    fan_out(rt, turn, seats.as_mut_slice(), desks.as_mut_slice());
}

/// A turn over a new counter, with a seat for each worker.
pub fn open(
    alloc: Global,
    limit: u32,
    workers: u32,
) -> Result<(Turn<Counter>, Vec<Seat<Counter>>), AllocError>
    requires { 1 ≤ workers }
    ensures limit { IfOk result (λ r. (first_of r.0).limit ≡ limit) }
    ensures ready { IfOk result (λ r. All (IsReadyAtCounter r.0) r.1.items) }
    ensures numbers { IfOk result (λ r. map number_of r.1.items ≡ range_with_len 0 (seats_of r.0)) }
    ensures count { IfOk result (λ r. seats_of r.0 ≡ workers) }
{
    let counter = Counter::new(alloc, limit, workers)?;
    match Turn::new(alloc, counter, workers) {
        Ok((turn, seats)) => Ok((turn, seats)),
        Err(NoTurn { value, cause }) => {
            drop(value);
            Err(cause)
        }
    }
}

/// Ends the turn. No worker has a number out.
pub fn close(turn: Turn<Counter>, seats: Vec<Seat<Counter>>) -> Counter
    requires ready { All (IsReadyAtCounter turn) seats.items }
    requires numbers { map number_of seats.items ≡ range_with_len 0 (seats_of turn) }
    ensures limit { result.limit ≡ (first_of turn).limit }
    ensures nothing_out { (who : ℕ) → slot_of result who ≡ None }
    ensures seen { All (λ s. NoLess (seen_of s) result.best) seats.items }
{
    turn.close(seats)
}

/// Counts to the limit with this many workers. Afterwards no worker has a number out.
pub fn count_all<R: Threads + Wait + Sync>(
    rt: &R,
    alloc: Global,
    limit: u32,
    workers: u32,
) -> Result<Counter, AllocError>
    requires { 1 ≤ workers }
    ensures limit { IfOk result (λ c. c.limit ≡ limit) }
    ensures nothing_out { IfOk result (λ c. (who : ℕ) → slot_of c who ≡ None) }
{
    let mut desks = vec![in alloc; Desk { rounds: 0 }; workers as usize]?;
    let (turn, mut seats) = open(alloc, limit, workers)?;
    fan_all(rt, &turn, &mut seats, &mut desks);
    Ok(close(turn, seats))
}

/// The greatest number that came back, as the seat finds it.
fn best_found<R: Wait>(rt: &R, turn: &Turn<Counter>, seat: &mut Seat<Counter>) -> Option<i64>
    requires { IsReadyAtCounter turn.now seat.old }
    ensures ready { IsReadyAtCounter turn.now seat.new }
    ensures number { seat.new.number ≡ seat.old.number }
    ensures least { NoLess (seen_of seat.old) result }
    ensures seen { seen_of seat.new ≡ result }
{
    turn.wait_turn(rt, seat);
    let mut guard = turn.hold(rt, seat);
    let best = guard.value().best();
    guard.leave();
    best
}

/// The greatest number that came back, as the first of the seats finds it.
fn found_by_first<R: Wait>(
    rt: &R,
    turn: &Turn<Counter>,
    seats: &mut [Seat<Counter>],
) -> Option<Option<i64>>
    requires ready { All (IsReadyAtCounter turn.now) seats.old }
    ensures ready { All (IsReadyAtCounter turn.now) seats.new }
    ensures numbers { map number_of seats.new ≡ map number_of seats.old }
{
    let seat = seats.first_mut()?;
    Some(best_found(rt, turn, seat))
}

/// The seat gives a number back, and answers what it finds then.
fn found_after<R: Wait>(
    rt: &R,
    turn: &Turn<Counter>,
    seat: &mut Seat<Counter>,
    number: u32,
) -> Option<i64>
    requires { IsReadyAtCounter turn.now seat.old }
    ensures ready { IsReadyAtCounter turn.now seat.new }
    ensures number { seat.new.number ≡ seat.old.number }
    ensures least { NoLess (Some (pos number)) result }
{
    finish_one(rt, turn, seat, number);
    best_found(rt, turn, seat)
}

/// What a seat finds after it gave a number back, and what the first of the others then finds.
fn meet_first<R: Wait>(
    rt: &R,
    turn: &Turn<Counter>,
    seat: &mut Seat<Counter>,
    others: &mut [Seat<Counter>],
    number: u32,
) -> (Option<i64>, Option<Option<i64>>)
    requires first { IsReadyAtCounter turn.now seat.old }
    requires others { All (IsReadyAtCounter turn.now) others.old }
    ensures first { IsReadyAtCounter turn.now seat.new }
    ensures number { seat.new.number ≡ seat.old.number }
    ensures others { All (IsReadyAtCounter turn.now) others.new }
    ensures numbers { map number_of others.new ≡ map number_of others.old }
    ensures least { NoLess (Some (pos number)) result.0 }
{
    let again = found_after(rt, turn, seat, number);
    (again, found_by_first(rt, turn, others))
}

/// The first seat gives a number back. Then it and the second seat answer what they find.
pub fn meet<R: Wait>(
    rt: &R,
    turn: &Turn<Counter>,
    seats: &mut [Seat<Counter>],
    number: u32,
) -> Option<(Option<i64>, Option<Option<i64>>)>
    requires ready { All (IsReadyAtCounter turn.now) seats.old }
    ensures ready { All (IsReadyAtCounter turn.now) seats.new }
    ensures numbers { map number_of seats.new ≡ map number_of seats.old }
    ensures first { IfSome result (λ r. NoLess (Some (pos number)) r.0) }
{
    if let Some((seat, others)) = seats.split_first_mut() {
        return Some(meet_first(rt, turn, seat, others, number));
    }
    None
}
