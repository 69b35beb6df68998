//! How a board comes under a turn, and back.

ghost use Rattle.std.specs.Prelude.{◌≡◌, [], map, IfOk, IfErr};
ghost use Rattle.std.specs.List.{All, range_with_len};
ghost use Rattle.turn.specs.Order.{NoLess};
ghost use Rattle.turn.specs.Seats.{first_of, seats_of, seen_of, number_of};
ghost use Rattle.board_laws.specs.Board.{full_slots, incumbent_value};
ghost use Rattle.turn.specs.History.{HasMoved};
ghost use Rattle.kept_board.specs.Moves.{IsMove};
ghost use Rattle.kept_board.specs.View.{tag_of};
ghost use Rattle.search_workers.specs.Later.{IsLater};
ghost use Rattle.search_workers.specs.Ready.{IsReadySeat};

use disk::Disk;
use dp_model::DpModel;
use kept_board::Kept;
use std::alloc::Global;
use turn::{NoTurn, Seat, Turn};

/// Puts a board with nothing out under a turn, with a seat for each worker of its settings. Fails only for want of memory, and then
/// the board comes back as it was.
pub fn open<M: DpModel, D: Disk + Send>(
    alloc: Global,
    kept: Kept<M, D>,
    workers: u32,
) -> Result<(Turn<Kept<M, D>>, Vec<Seat<Kept<M, D>>>), NoTurn<Kept<M, D>>>
    requires idle { full_slots kept.board.board.slots ≡ [] }
    requires workers { kept.board.board.settings.workers ≡ workers }
    ensures first { IfOk result (λ r. first_of r.0 ≡ kept) }
    ensures count { IfOk result (λ r. seats_of r.0 ≡ workers) }
    ensures ready { IfOk result (λ r. All (IsReadySeat r.0) r.1.items) }
    ensures numbers { IfOk result (λ r. map number_of r.1.items ≡ range_with_len 0 (seats_of r.0)) }
    ensures err { IfErr result (λ n. n.value ≡ kept) }
{
    // What every board keeps of its workers.
    kept.board().facts();
    match Turn::new(alloc, kept, workers) {
        Ok((turn, seats)) => Ok((turn, seats)),
        Err(refused) => Err(refused),
    }
}

/// Ends the turn, where no worker has anything out. The board that comes back is later by steps of a run, only want of memory or the
/// journal may have halted it, and its incumbent is no less than what any seat has seen. It takes no memory.
pub fn close<M: DpModel, D: Disk + Send>(
    turn: Turn<Kept<M, D>>,
    seats: Vec<Seat<Kept<M, D>>>,
) -> Kept<M, D>
    requires idle { full_slots (first_of turn).board.board.slots ≡ [] }
    requires ready { All (IsReadySeat turn) seats.items }
    requires numbers { map number_of seats.items ≡ range_with_len 0 (seats_of turn) }
    ensures tag { tag_of result ≡ tag_of (first_of turn) }
    ensures moved { HasMoved (IsMove D.Disk M.meaning) (first_of turn) result }
    ensures later { IsLater (M.meaning (first_of turn).board.numbers) (first_of turn).board.board result.board.board }
    ensures seen { All (λ s. NoLess (seen_of s) (incumbent_value result.board.board)) seats.items }
{
    turn.close(seats)
}
