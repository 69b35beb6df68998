//! Calls side by side, each with a seat and a desk of its own.
ghost use Rattle.search_workers.specs.Each.{Accepts, Leaves, EachAccepts, EachChanges, MayCall, HaveLeft};
ghost use Rattle.std.specs.Thread.{IsSync};

use std::thread::{Threads, join_mut};

#[cycle(fan)]
fn beside<F: Fn(&mut S, &mut K) + Sync, S: Send, K: Send, R: Threads + Sync>(
    rt: &R,
    f: &F,
    seat: &mut S,
    desk: &mut K,
    seats: &mut [S],
    desks: &mut [K],
)
    requires first { Accepts F.Fn f.now seat.old desk.old }
    requires others { EachAccepts F.Fn f.now seats.old desks.old }
    ensures first { Leaves F.Fn f.now seat.old seat.new desk.old desk.new }
    ensures others { EachChanges F.Fn f.now seats.old seats.new desks.old desks.new }
{
    join_mut(
        rt,
        &mut ||
            requires { Accepts F.Fn f.now seat.now desk.now }
            ensures { Leaves F.Fn f.entry.now seat.entry.now seat.exit.now desk.entry.now desk.exit.now }
        { at_one(f, seat, desk) },
        &mut ||
            requires { IsSync R.row × EachAccepts F.Fn f.now seats.now desks.now }
            ensures { EachChanges F.Fn f.entry.now seats.entry.now seats.exit.now desks.entry.now desks.exit.now }
        { fan(rt, f, seats, desks) },
    );
}

/// Calls f at each seat with its desk, side by side.
pub fn side_by_side<F: Fn(&mut S, &mut K) + Sync, S: Send, K: Send, R: Threads + Sync>(
    rt: &R,
    f: &F,
    seats: &mut [S],
    desks: &mut [K],
)
    requires { MayCall F.Fn f.now seats.old desks.old }
    ensures { HaveLeft F.Fn f.now seats.old seats.new desks.old desks.new }
{
    fan(rt, f, seats, desks);
}

#[cycle(fan)]
fn fan<F: Fn(&mut S, &mut K) + Sync, S: Send, K: Send, R: Threads + Sync>(
    rt: &R,
    f: &F,
    seats: &mut [S],
    desks: &mut [K],
)
    requires { EachAccepts F.Fn f.now seats.old desks.old }
    ensures { EachChanges F.Fn f.now seats.old seats.new desks.old desks.new }
{
    if let Some((seat, rest)) = seats.split_first_mut() {
        if let Some((desk, others)) = desks.split_first_mut() {
            beside(rt, f, seat, desk, rest, others);
        }
    }
}

fn at_one<F: Fn(&mut S, &mut K), S, K>(f: &F, seat: &mut S, desk: &mut K)
    requires { Accepts F.Fn f.now seat.old desk.old }
    ensures { Leaves F.Fn f.now seat.old seat.new desk.old desk.new }
{
    f(seat, desk);
}
