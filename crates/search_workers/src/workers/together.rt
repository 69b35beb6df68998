//! The workers side by side, and the search that they make.

ghost use Rattle.std.specs.Prelude.{◌≡◌, [], length, map, IfOk, IfErr, vec_len};
ghost use Rattle.std.specs.List.{All};
ghost use Rattle.turn.specs.History.{HasMoved};
ghost use Rattle.turn.specs.Seats.{first_of, number_of};
ghost use Rattle.board_laws.specs.Board.{full_slots};
ghost use Rattle.board_laws.specs.GoodBoard.{IsGood};
ghost use Rattle.kept_board.specs.Moves.{IsMove};
ghost use Rattle.kept_board.specs.View.{tag_of};
ghost use Rattle.search_workers.specs.Later.{IsLater, NoRoundFollows, IsComplete};
ghost use Rattle.search_workers.specs.Prepared.{IsPreparedDesk};
ghost use Rattle.search_workers.specs.Ready.{IsReadySeat};
ghost use Rattle.search_workers.specs.Stopped.{HasEndedAt};

use super::fanning::side_by_side;
use super::gate::Gate;
use super::opening::{close, open};
use super::working::work;
use crate::desk::Desk;
use crate::rounds::explore;
use disk::Disk;
use dp_model::DpModel;
use kept_board::Kept;
use std::alloc::Global;
use std::sync::Wait;
use std::thread::Threads;
use turn::{NoTurn, Seat, Turn};

/// The workers side by side, each with a seat and a desk, which meet what `work` asks. Each worker alone can do all the work. With empty
/// slices it does nothing. It may wait for other workers.
pub fn fan_out<M: DpModel, D: Disk + Send, G: Gate + Sync, R: Threads + Wait + Sync>(
    rt: &R,
    alloc: Global,
    turn: &Turn<Kept<M, D>>,
    seats: &mut [Seat<Kept<M, D>>],
    desks: &mut [Desk],
    model: &M,
    gate: &G,
)
    requires numbers { (first_of turn.now).board.numbers ≡ M.numbers model.now }
    requires ready { All (IsReadySeat turn.now) seats.old }
    requires prepared { All (IsPreparedDesk (M.meaning (M.numbers model.now)) (first_of turn.now).board.board.settings.width) desks.old }
    requires lengths { length seats.old ≡ length desks.old }
    ensures ready { All (IsReadySeat turn.now) seats.new }
    ensures seats { map number_of seats.new ≡ map number_of seats.old }
    ensures prepared { All (IsPreparedDesk (M.meaning (M.numbers model.now)) (first_of turn.now).board.board.settings.width) desks.new }
    ensures desks { length desks.new ≡ length desks.old }
    ensures ended { All (HasEndedAt turn.now) seats.new }
{
    let one = |seat: &mut Seat<Kept<M, D>>, desk: &mut Desk|
        requires { ((first_of turn.now).board.numbers ≡ M.numbers model.now) × IsReadySeat turn.now seat.now × IsPreparedDesk (M.meaning (M.numbers model.now)) (first_of turn.now).board.board.settings.width desk.now }
        ensures { IsReadySeat turn.entry.now seat.exit.now × (seat.exit.now.number ≡ seat.entry.now.number) × IsPreparedDesk (M.meaning (M.numbers model.entry.now)) (first_of turn.entry.now).board.board.settings.width desk.exit.now × HasEndedAt turn.entry.now seat.exit.now }
    { work(rt, alloc, turn, seat, desk, model, gate) };
    side_by_side(rt, &one, seats, desks);
}

/// The same over all seats of a turn.
fn fan_all<M: DpModel, D: Disk + Send, G: Gate + Sync, R: Threads + Wait + Sync>(
    rt: &R,
    alloc: Global,
    turn: &Turn<Kept<M, D>>,
    seats: &mut Vec<Seat<Kept<M, D>>>,
    desks: &mut Vec<Desk>,
    model: &M,
    gate: &G,
)
    requires numbers { (first_of turn.now).board.numbers ≡ M.numbers model.now }
    requires ready { All (IsReadySeat turn.now) seats.old.items }
    requires prepared { All (IsPreparedDesk (M.meaning (M.numbers model.now)) (first_of turn.now).board.board.settings.width) desks.old.items }
    requires lengths { vec_len seats.old ≡ vec_len desks.old }
    ensures ready { All (IsReadySeat turn.now) seats.new.items }
    ensures seats { map number_of seats.new.items ≡ map number_of seats.old.items }
    ensures prepared { All (IsPreparedDesk (M.meaning (M.numbers model.now)) (first_of turn.now).board.board.settings.width) desks.new.items }
    ensures desks { vec_len desks.new ≡ vec_len desks.old }
{
    fan_out(
        rt,
        alloc,
        turn,
        seats.as_mut_slice(),
        desks.as_mut_slice(),
        model,
        gate,
    );
}

/// Searches with a worker for each desk, side by side, and then, once they have ended, by rounds of worker 0 alone until the search ends,
/// so that what is promised does not rest on how a worker ended. It may wait for other workers.
///
/// Board and model are of one instance, nothing is out, there are as many desks as workers of the settings, and each desk was prepared
/// for the model and the width of the settings. So it is afterwards, and the book of a desk has diagrams of the model's instance alone.
///
/// # Errors
///
/// There was no memory before the search began, and the board comes back as it was.
pub fn explore_together<M: DpModel, D: Disk + Send, G: Gate + Sync, R: Threads + Wait + Sync>(
    rt: &R,
    alloc: Global,
    kept: Kept<M, D>,
    desks: &mut Vec<Desk>,
    model: &M,
    gate: &G,
) -> Result<Kept<M, D>, NoTurn<Kept<M, D>>>
    requires numbers { kept.board.numbers ≡ M.numbers model.now }
    requires idle { full_slots kept.board.board.slots ≡ [] }
    requires workers { kept.board.board.settings.workers ≡ vec_len desks.old }
    requires prepared { All (IsPreparedDesk (M.meaning (M.numbers model.now)) kept.board.board.settings.width) desks.old.items }
    ensures tag { IfOk result (λ k. tag_of k ≡ tag_of kept) }
    ensures moved { IfOk result (λ k. HasMoved (IsMove D.Disk M.meaning) kept k) }
    ensures later { IfOk result (λ k. IsLater (M.meaning (M.numbers model.now)) kept.board.board k.board.board) }
    ensures ended { IfOk result (λ k. NoRoundFollows k.board.board) }
    ensures complete { IfOk result (λ k. IsGood (M.meaning (M.numbers model.now)) kept.board.first → IsComplete (M.meaning (M.numbers model.now)) k.board.board) }
    ensures prepared { All (IsPreparedDesk (M.meaning (M.numbers model.now)) kept.board.board.settings.width) desks.new.items }
    ensures desks { vec_len desks.new ≡ vec_len desks.old }
    ensures err { IfErr result (λ n. n.value ≡ kept) }
{
    match work_together(rt, alloc, kept, desks, model, gate) {
        Ok(mut kept) => {
            // What every board keeps of its slots.
            kept.board().facts();
            explore(alloc, &mut kept, &mut desks[0], model);
            Ok(kept)
        }
        Err(refused) => Err(refused),
    }
}

/// The workers side by side on a board that comes under a turn and back.
fn work_together<M: DpModel, D: Disk + Send, G: Gate + Sync, R: Threads + Wait + Sync>(
    rt: &R,
    alloc: Global,
    kept: Kept<M, D>,
    desks: &mut Vec<Desk>,
    model: &M,
    gate: &G,
) -> Result<Kept<M, D>, NoTurn<Kept<M, D>>>
    requires numbers { kept.board.numbers ≡ M.numbers model.now }
    requires idle { full_slots kept.board.board.slots ≡ [] }
    requires workers { kept.board.board.settings.workers ≡ vec_len desks.old }
    requires prepared { All (IsPreparedDesk (M.meaning (M.numbers model.now)) kept.board.board.settings.width) desks.old.items }
    ensures tag { IfOk result (λ k. tag_of k ≡ tag_of kept) }
    ensures moved { IfOk result (λ k. HasMoved (IsMove D.Disk M.meaning) kept k) }
    ensures later { IfOk result (λ k. IsLater (M.meaning (M.numbers model.now)) kept.board.board k.board.board) }
    ensures prepared { All (IsPreparedDesk (M.meaning (M.numbers model.now)) kept.board.board.settings.width) desks.new.items }
    ensures desks { vec_len desks.new ≡ vec_len desks.old }
    ensures err { IfErr result (λ n. n.value ≡ kept) }
{
    match open(alloc, kept, desks.len() as u32) {
        Ok((turn, mut seats)) => {
            fan_all(rt, alloc, &turn, &mut seats, desks, model, gate);
            Ok(close(turn, seats))
        }
        Err(refused) => Err(refused),
    }
}
