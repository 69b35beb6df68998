//! Two seats over a board of a knapsack.
ghost use Rattle.std.specs.Prelude.{◌≡◌, [], map, None};
ghost use Rattle.std.specs.List.{All, range_with_len};
ghost use Rattle.turn.specs.Order.{NoLess};
ghost use Rattle.turn.specs.Seats.{first_of, seats_of, seen_of, number_of};
ghost use Rattle.board_laws.specs.Board.{full_slots};
ghost use Rattle.search_workers.specs.Ready.{IsReadySeat};

use board::{Board, Settings};
use disk::{Disk, MemDisk};
use dp_model::DpModel;
use kept_board::Kept;
use knapsack::Knapsack;
use search_workers::{Stopped, improve_one, open};
use std::alloc::Global;
use std::process::Abort;
use std::sync::{Arc, Wait};
use turn::{NoTurn, Seat, Turn};

/// Three items in a room of 10.
pub fn items(rt: &impl Abort, alloc: Global) -> Knapsack {
    let model = knapsack::read(alloc, b"3 10\n60 5\n50 4\n70 6\n");
    assert!(rt; model.is_ok(), "the items");
    model.expect(rt, "the items")
}

/// The board at the start of a search by two workers.
fn first_board<M: DpModel>(rt: &impl Abort, alloc: Global, model: M) -> Board<M>
    ensures going { result.board.cause ≡ None }
    ensures idle { full_slots result.board.slots ≡ [] }
    ensures workers { result.board.settings.workers ≡ 2 }
{
    let settings = Settings {
        workers: 2,
        budget: 100,
        table_limit: 4,
        width: 1,
        within: 0,
    };
    let model = Arc::new(alloc, model).expect(rt, "memory");
    Board::begin(alloc, model, settings).expect(rt, "memory")
}

/// The incumbent's value at the end.
pub fn last_value<M: DpModel>(kept: Kept<M, MemDisk>) -> Option<i64> {
    let (board, disk) = kept.into_parts();
    let value = board.incumbent_value();
    // The calls are proved in half the time that a drop at the end of the block takes.
    drop(board);
    drop(disk);
    value
}

/// A turn over a board of a knapsack that is kept on a disk in memory.
pub type BoardTurn = Turn<Kept<Knapsack, MemDisk>>;

/// A seat of that turn.
pub type BoardSeat = Seat<Kept<Knapsack, MemDisk>>;

/// A turn with two seats over the board at the start of a search, which is kept in no journal.
pub fn open_board(rt: &impl Abort, alloc: Global, model: Knapsack) -> (BoardTurn, Vec<BoardSeat>)
    ensures idle { full_slots (first_of result.0).board.board.slots ≡ [] }
    ensures ready { All (IsReadySeat result.0) result.1.items }
    ensures numbers { map number_of result.1.items ≡ range_with_len 0 (seats_of result.0) }
{
    let disk = MemDisk::new(Vec::new(alloc), Vec::new(alloc));
    let kept = Kept::new(first_board(rt, alloc, model), disk, None, 1);
    match open(alloc, kept, 2) {
        Ok(opened) => opened,
        Err(NoTurn { .. }) => panic!(rt; "memory"),
    }
}

/// The incumbent's value as the seat finds it.
fn incumbent_found<M: DpModel, D: Disk + Send, R: Wait>(
    rt: &R,
    turn: &Turn<Kept<M, D>>,
    seat: &mut Seat<Kept<M, D>>,
) -> Option<i64>
    requires { IsReadySeat turn.now seat.old }
    ensures ready { IsReadySeat turn.now seat.new }
    ensures number { seat.new.number ≡ seat.old.number }
    ensures least { NoLess (seen_of seat.old) result }
{
    let mut guard = turn.hold(rt, seat);
    let value = guard.value().board().incumbent_value();
    guard.leave();
    value
}

/// The incumbent's value as the first of the seats finds it.
fn found_by_first<M: DpModel, D: Disk + Send, R: Wait>(
    rt: &R,
    turn: &Turn<Kept<M, D>>,
    seats: &mut [Seat<Kept<M, D>>],
) -> Option<Option<i64>>
    requires { All (IsReadySeat turn.now) seats.old }
    ensures ready { All (IsReadySeat turn.now) seats.new }
    ensures numbers { map number_of seats.new ≡ map number_of seats.old }
{
    let seat = seats.first_mut()?;
    Some(incumbent_found(rt, turn, seat))
}

/// The seat offers a solution, and answers the value that it finds then, which is no less than the value that it left.
fn found_after<M: DpModel, D: Disk + Send, R: Wait>(
    rt: &R,
    alloc: Global,
    turn: &Turn<Kept<M, D>>,
    seat: &mut Seat<Kept<M, D>>,
    decisions: &[u32],
) -> Option<i64>
    requires { IsReadySeat turn.now seat.old }
    ensures ready { IsReadySeat turn.now seat.new }
    ensures number { seat.new.number ≡ seat.old.number }
    ensures least { NoLess (seen_of seat.old) result }
{
    match improve_one(rt, alloc, turn, seat, decisions) {
        Ok(_) | Err(Stopped::Refused(_)) => incumbent_found(rt, turn, seat),
        Err(Stopped::GaveBack) => incumbent_found(rt, turn, seat),
    }
}

/// What a seat finds after its offer of a solution, and what the first of the others finds then.
fn meet_first<M: DpModel, D: Disk + Send, R: Wait>(
    rt: &R,
    alloc: Global,
    turn: &Turn<Kept<M, D>>,
    seat: &mut Seat<Kept<M, D>>,
    others: &mut [Seat<Kept<M, D>>],
    decisions: &[u32],
) -> (Option<i64>, Option<Option<i64>>)
    requires first { IsReadySeat turn.now seat.old }
    requires others { All (IsReadySeat turn.now) others.old }
    ensures first { IsReadySeat turn.now seat.new }
    ensures number { seat.new.number ≡ seat.old.number }
    ensures others { All (IsReadySeat turn.now) others.new }
    ensures numbers { map number_of others.new ≡ map number_of others.old }
{
    let again = found_after(rt, alloc, turn, seat, decisions);
    (again, found_by_first(rt, turn, others))
}

/// The first seat offers a solution. Then it and the second seat answer what they find.
pub fn meet_over_board<M: DpModel, D: Disk + Send, R: Wait>(
    rt: &R,
    alloc: Global,
    turn: &Turn<Kept<M, D>>,
    seats: &mut [Seat<Kept<M, D>>],
    decisions: &[u32],
) -> Option<(Option<i64>, Option<Option<i64>>)>
    requires { All (IsReadySeat turn.now) seats.old }
    ensures ready { All (IsReadySeat turn.now) seats.new }
    ensures numbers { map number_of seats.new ≡ map number_of seats.old }
{
    if let Some((seat, others)) = seats.split_first_mut() {
        return Some(meet_first(rt, alloc, turn, seat, others, decisions));
    }
    None
}
