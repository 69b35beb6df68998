//! What the book of a worker holds after a search.

ghost use Rattle.std.specs.Prelude.{◌≡◌, [], ◌∷◌, vec_len};
ghost use Rattle.std.specs.List.{All};
ghost use Rattle.std.specs.Arc.{arc_value};
ghost use Rattle.board_laws.specs.Board.{full_slots};
ghost use Rattle.search_workers.specs.Prepared.{IsPreparedDesk};

use crate::boards::items;
use board::{Board, Settings};
use cover_pages::CoverBook;
use disk::MemDisk;
use dp_model::{CutKind, DpModel};
use kept_board::Kept;
use knapsack::Knapsack;
use search_workers::{Desk, NoGate, explore_together};
use std::alloc::Global;
use std::process::Abort;
use std::sync::{Arc, Wait};
use std::thread::Threads;
use turn::NoTurn;

/// The width of the diagrams.
const WIDTH: u32 = 1;

/// The result of a search.
#[derive(Clone, Copy, Debug, PartialEq, Eq)]
pub struct Collection {
    /// How many diagrams the book has.
    pub pages: usize,
    /// How many subproblems were finished.
    pub finished: u64,
}

/// The board at the start of a search by one worker, which is kept in no journal.
fn first_board<M: DpModel>(rt: &impl Abort, alloc: Global, model: &Arc<M>) -> Kept<M, MemDisk>
    ensures numbers { result.board.numbers ≡ M.numbers (arc_value model.now) }
    ensures idle { full_slots result.board.board.slots ≡ [] }
    ensures workers { result.board.board.settings.workers ≡ 1 }
    ensures width { result.board.board.settings.width ≡ WIDTH }
{
    let settings = Settings {
        workers: 1,
        budget: 100,
        table_limit: 4,
        width: WIDTH,
        within: 0,
    };
    let model = Arc::try_clone(model).expect(rt, "memory");
    let board = Board::begin(alloc, model, settings).expect(rt, "memory");
    Kept::new(
        board,
        MemDisk::new(Vec::new(alloc), Vec::new(alloc)),
        None,
        1,
    )
}

/// A desk whose book has this many words at most.
fn desk_with_book<M: DpModel>(rt: &impl Abort, alloc: Global, model: &M, words: u64) -> Vec<Desk>
    ensures one { vec_len result ≡ 1 }
    ensures prepared { All (IsPreparedDesk (M.meaning (M.numbers model.now)) WIDTH) result.items }
{
    let book = CoverBook::new(alloc, model.words(), words);
    match Desk::prepare(alloc, model, WIDTH, CutKind::LastExactLayer, Some(book), 1) {
        Ok(desk) => one_desk(rt, alloc, desk),
        Err(_) => panic!(rt; "the desk"),
    }
}

/// A list of this desk alone.
fn one_desk(rt: &impl Abort, alloc: Global, desk: Desk) -> Vec<Desk>
    ensures { result.items ≡ desk ∷ [] }
{
    let mut desks = Vec::with_capacity(alloc, 1).expect(rt, "memory");
    desks.push_reserved(desk);
    desks
}

/// The pages of the first desk's book.
fn pages_of(desks: Vec<Desk>) -> usize {
    match desks.into_iter().next() {
        Some(desk) => match desk.into_book() {
            Some(book) => book.pages(),
            None => 0,
        },
        None => 0,
    }
}

/// How many subproblems were finished.
fn finished_in<M: DpModel>(kept: Kept<M, MemDisk>) -> u64 {
    let (board, disk) = kept.into_parts();
    let finished = board.finished();
    drop(board);
    drop(disk);
    finished
}

/// What one worker collects, in a search of three items, whose book has this many words at most.
pub fn collected<R: Threads + Wait + Sync + Abort>(
    rt: &R,
    alloc: Global,
    words: u64,
) -> Collection {
    let model: Arc<Knapsack> = Arc::new(alloc, items(rt, alloc)).expect(rt, "memory");
    let kept = first_board(rt, alloc, &model);
    let mut desks = desk_with_book(rt, alloc, &*model, words);
    let finished = match explore_together(rt, alloc, kept, &mut desks, &*model, &NoGate) {
        Ok(kept) => finished_in(kept),
        Err(NoTurn { .. }) => panic!(rt; "memory"),
    };
    Collection {
        pages: pages_of(desks),
        finished,
    }
}
