//! The holding in which a worker offers a solution.

ghost use Rattle.std.specs.Prelude.{◌≡◌, IfOk, OnOk, IfErr};
ghost use Rattle.turn.specs.Order.{NoLess};
ghost use Rattle.turn.specs.Seats.{first_of, seen_of, out_of};
ghost use Rattle.dp_model.specs.Numbers.{AtMost, OptionAtMost};
ghost use Rattle.dp_model.specs.Prefixes.{IsSolution, value_of};
ghost use Rattle.search_workers.specs.Ready.{IsWorker};
ghost use Rattle.search_workers.specs.Seen.{reach_seen};
ghost use Rattle.search_workers.specs.Stopped.{IsLeftOut, HasLeft, WasStopped};

use super::moving::improve;
use super::stopped::Stopped;
use disk::Disk;
use dp_model::DpModel;
use kept_board::Kept;
use std::alloc::Global;
use std::sync::Wait;
use turn::{Seat, Turn};

/// Holds, offers a solution, and leaves. Gives the reach by what the seat has seen then: the solution's value is at most the incumbent's
/// that it has seen, and this is at most the reach.
///
/// # Errors
///
/// `GaveBack` where it found the search halted for the journal: what it had out was handed back in that holding. `Refused` where there
/// was no memory for the record of a better solution, or the disk failed; then the search is halted for the journal.
pub fn improve_one<M: DpModel, D: Disk + Send, R: Wait>(
    rt: &R,
    alloc: Global,
    turn: &Turn<Kept<M, D>>,
    seat: &mut Seat<Kept<M, D>>,
    decisions: &[u32],
) -> Result<Option<i64>, Stopped>
    requires worker { IsWorker turn.now seat.old }
    ensures worker { IsWorker turn.now seat.new }
    ensures number { seat.new.number ≡ seat.old.number }
    ensures left { HasLeft turn.now seat.new }
    ensures reach { IfOk result (λ reach. reach ≡ reach_seen turn.now seat.new) }
    ensures above { OnOk result (OptionAtMost (seen_of seat.new) (reach_seen turn.now seat.new)) }
    ensures no_less { NoLess (seen_of seat.old) (seen_of seat.new) }
    ensures better { OnOk result (IsSolution (M.meaning (first_of turn.now).board.numbers) decisions.now → AtMost (value_of (M.meaning (first_of turn.now).board.numbers) decisions.now) (seen_of seat.new)) }
    ensures out { OnOk result (out_of seat.new ≡ out_of seat.old) }
    ensures stopped { IfErr result (λ stopped. IsLeftOut stopped (out_of seat.old) (out_of seat.new)) }
    ensures why { IfErr result (WasStopped D.Disk M.meaning turn.now seat.old seat.new) }
{
    let who = seat.number();
    let mut guard = turn.hold(rt, seat);
    let reach = improve(alloc, guard.value(), who, decisions);
    guard.leave();
    reach
}
