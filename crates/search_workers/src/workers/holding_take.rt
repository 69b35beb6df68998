//! The holding in which a worker asks for a subproblem.

ghost use Rattle.std.specs.Prelude.{◌≡◌};
ghost use Rattle.turn.specs.Order.{NoLess};
ghost use Rattle.turn.specs.Seats.{first_of, seen_of, out_of};
ghost use Rattle.search_workers.specs.Prepared.{CanHold};
ghost use Rattle.search_workers.specs.Ready.{IfOver, IsWorker, IsReadySeat, TakenOut};
ghost use Rattle.search_workers.specs.Seen.{reach_seen};
ghost use Rattle.search_workers.specs.Stopped.{HasLeft, HasNothingOpen, HasEndedAt};

use super::moving::{Asked, take};
use board::Taken;
use disk::Disk;
use dp_model::{DpModel, Sub};
use kept_board::Kept;
use std::sync::Wait;
use turn::{Seat, Turn};

/// Holds, takes and leaves. What was taken is copied to `into`, and is a prefix of its own with its state and value. It tells the reach
/// by what the seat has seen then. The seat has nothing out, `into` has room for a subproblem, and the turn's instance is the model's.
pub fn take_one<M: DpModel, D: Disk + Send, R: Wait>(
    rt: &R,
    turn: &Turn<Kept<M, D>>,
    seat: &mut Seat<Kept<M, D>>,
    into: &mut Sub,
    model: &M,
) -> Asked
    requires numbers { (first_of turn.now).board.numbers ≡ M.numbers model.now }
    requires ready { IsReadySeat turn.now seat.old }
    requires room { CanHold (M.meaning (M.numbers model.now)) into.old }
    ensures worker { IsWorker turn.now seat.new }
    ensures number { seat.new.number ≡ seat.old.number }
    ensures left { HasLeft turn.now seat.new }
    ensures ended { IfOver result.taken (HasEndedAt turn.now seat.new) }
    ensures waits { result.taken ≡ Taken.WaitForOthers → HasNothingOpen turn.now seat.new }
    ensures reach { result.reach ≡ reach_seen turn.now seat.new }
    ensures no_less { NoLess (seen_of seat.old) (seen_of seat.new) }
    ensures out { TakenOut (M.meaning (M.numbers model.now)) result.taken (out_of seat.new) into.new.subproblem }
    ensures room { CanHold (M.meaning (M.numbers model.now)) into.new }
{
    let who = seat.number();
    let mut guard = turn.hold(rt, seat);
    let asked = take(guard.value(), who, into, model);
    guard.leave();
    asked
}
