//! The holding in which a worker finishes.

ghost use Rattle.std.specs.Prelude.{◌≡◌, [], None, OnOk, IfErr};
ghost use Rattle.turn.specs.Order.{NoLess};
ghost use Rattle.turn.specs.Seats.{first_of, seen_of, out_of};
ghost use Rattle.board.specs.Contents.{contents};
ghost use Rattle.search_workers.specs.FinishLater.{MayFinishLater};
ghost use Rattle.search_workers.specs.Ready.{IsWorker};
ghost use Rattle.search_workers.specs.Stopped.{IsLeftOut, WasStopped};

use super::moving::finish;
use super::stopped::Stopped;
use board::Fate;
use disk::Disk;
use dp_model::{DpModel, Sub};
use kept_board::Kept;
use std::alloc::Global;
use std::sync::Wait;
use turn::{Seat, Turn};

/// Holds, finishes with these children, and leaves. The children and the threshold of their diagram meet what Finish asks, on each
/// board whose incumbent is no less than what the seat has seen.
///
/// # Errors
///
/// `GaveBack` where it found the search halted for the journal: what it had out was handed back in that holding. `Refused` where there
/// was no memory, or the disk failed; then the search is halted for the journal. The children stay.
pub fn finish_one<M: DpModel, D: Disk + Send, R: Wait>(
    rt: &R,
    alloc: Global,
    turn: &Turn<Kept<M, D>>,
    seat: &mut Seat<Kept<M, D>>,
    threshold: Option<i64>,
    subs: &mut Vec<Sub>,
    fates: &mut Vec<Fate>,
) -> Result<(), Stopped>
    requires worker { IsWorker turn.now seat.old }
    requires may { MayFinishLater (M.meaning (first_of turn.now).board.numbers) (first_of turn.now).board.board.settings (out_of seat.old) (seen_of seat.old) threshold (contents subs.old.items) }
    ensures worker { IsWorker turn.now seat.new }
    ensures number { seat.new.number ≡ seat.old.number }
    ensures no_less { NoLess (seen_of seat.old) (seen_of seat.new) }
    ensures ok { OnOk result ((out_of seat.new ≡ None) × (subs.new.items ≡ [])) }
    ensures stopped { IfErr result (λ stopped. IsLeftOut stopped (out_of seat.old) (out_of seat.new) × (subs.new ≡ subs.old)) }
    ensures why { IfErr result (WasStopped D.Disk M.meaning turn.now seat.old seat.new) }
{
    let who = seat.number();
    let mut guard = turn.hold(rt, seat);
    let finished = finish(alloc, guard.value(), who, threshold, subs, fates);
    guard.leave();
    finished
}
