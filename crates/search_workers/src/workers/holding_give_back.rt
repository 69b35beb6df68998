//! The holdings in which a worker halts the search and hands back what it has out.

ghost use Rattle.std.specs.Prelude.{◌≡◌, true, None, IsSome, MatchBool};
ghost use Rattle.turn.specs.Order.{NoLess};
ghost use Rattle.turn.specs.Seats.{first_of, seen_of, out_of};
ghost use Rattle.search_workers.specs.Ready.{IsWorker, IsReadySeat};
ghost use Rattle.search_workers.specs.Stopped.{HasEndedAt};

use super::moving::give_back;
use disk::Disk;
use dp_model::DpModel;
use kept_board::{Kept, KeptError};
use std::sync::Wait;
use turn::{Seat, Turn};

/// Holds, halts the search for want of memory, and leaves.
fn halt_one<M: DpModel, D: Disk + Send, R: Wait>(
    rt: &R,
    turn: &Turn<Kept<M, D>>,
    seat: &mut Seat<Kept<M, D>>,
)
    requires worker { IsWorker turn.now seat.old }
    ensures worker { IsWorker turn.now seat.new }
    ensures number { seat.new.number ≡ seat.old.number }
    ensures no_less { NoLess (seen_of seat.old) (seen_of seat.new) }
    ensures out { out_of seat.new ≡ out_of seat.old }
{
    let mut guard = turn.hold(rt, seat);
    guard.value().halt_memory();
    guard.leave();
}

/// Holds, and hands the subproblem back where a cause is held, else halts the search for want of memory; then it leaves. Says
/// whether it handed back.
fn give_back_one<M: DpModel, D: Disk + Send, R: Wait>(
    rt: &R,
    turn: &Turn<Kept<M, D>>,
    seat: &mut Seat<Kept<M, D>>,
) -> bool
    requires worker { IsWorker turn.now seat.old }
    requires full { IsSome (out_of seat.old) }
    ensures worker { IsWorker turn.now seat.new }
    ensures number { seat.new.number ≡ seat.old.number }
    ensures no_less { NoLess (seen_of seat.old) (seen_of seat.new) }
    ensures ended { result ≡ true → HasEndedAt turn.now seat.new }
    ensures out { MatchBool result (out_of seat.new ≡ None) (out_of seat.new ≡ out_of seat.old) }
{
    let who = seat.number();
    let mut guard = turn.hold(rt, seat);
    let handed_back = give_back(guard.value(), who);
    guard.leave();
    handed_back
}

/// Hands the subproblem back.
///
/// A seat does not know in its next holding that a cause is held. So each holding reads the cause: it hands back where one is held,
/// and else halts for want of memory.
fn hand_back<M: DpModel, D: Disk + Send, R: Wait>(
    rt: &R,
    turn: &Turn<Kept<M, D>>,
    seat: &mut Seat<Kept<M, D>>,
)
    requires worker { IsWorker turn.now seat.old }
    requires full { IsSome (out_of seat.old) }
    ensures ready { IsReadySeat turn.now seat.new }
    ensures ended { HasEndedAt turn.now seat.new }
    ensures number { seat.new.number ≡ seat.old.number }
    ensures no_less { NoLess (seen_of seat.old) (seen_of seat.new) }
{
    for _ in rt.forever() {
        if give_back_one(rt, turn, seat) {
            return;
        }
    }
    unreachable!()
}

/// Hands the subproblem back after a step was refused. For want of memory it halts the search first; where the disk failed the search
/// is halted already.
pub fn give_up<M: DpModel, D: Disk + Send, R: Wait>(
    rt: &R,
    turn: &Turn<Kept<M, D>>,
    seat: &mut Seat<Kept<M, D>>,
    error: KeptError,
)
    requires worker { IsWorker turn.now seat.old }
    requires full { IsSome (out_of seat.old) }
    ensures ready { IsReadySeat turn.now seat.new }
    ensures ended { HasEndedAt turn.now seat.new }
    ensures number { seat.new.number ≡ seat.old.number }
    ensures no_less { NoLess (seen_of seat.old) (seen_of seat.new) }
{
    match error {
        KeptError::OutOfMemory => {
            halt_one(rt, turn, seat);
            hand_back(rt, turn, seat);
        }
        KeptError::Journal => hand_back(rt, turn, seat),
    }
}
