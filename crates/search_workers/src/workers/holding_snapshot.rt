//! The holding in which a worker writes a snapshot.

ghost use Rattle.std.specs.Prelude.{◌≡◌};
ghost use Rattle.turn.specs.Order.{NoLess};
ghost use Rattle.turn.specs.Seats.{seen_of};
ghost use Rattle.search_workers.specs.Ready.{IsReadySeat};
ghost use Rattle.search_workers.specs.Stopped.{HasFoundSame};

use super::moving::snapshot;
use disk::Disk;
use dp_model::DpModel;
use kept_board::Kept;
use std::alloc::Global;
use std::sync::Wait;
use turn::{Seat, Turn};

/// Holds, writes a snapshot where one is due and worth its bytes, and leaves. The board stays as it was found, unless the disk fails:
/// then the search is halted for the journal. Where the search was halted for that before, nothing is written. Where there is no
/// memory for a snapshot, the search goes on without. The seat has nothing out.
pub fn snapshot_one<M: DpModel, D: Disk + Send, R: Wait>(
    rt: &R,
    alloc: Global,
    turn: &Turn<Kept<M, D>>,
    seat: &mut Seat<Kept<M, D>>,
)
    requires ready { IsReadySeat turn.now seat.old }
    ensures ready { IsReadySeat turn.now seat.new }
    ensures number { seat.new.number ≡ seat.old.number }
    ensures no_less { NoLess (seen_of seat.old) (seen_of seat.new) }
    ensures same { HasFoundSame D.Disk turn.now seat.new }
{
    let mut guard = turn.hold(rt, seat);
    snapshot(alloc, guard.value());
    guard.leave();
}
