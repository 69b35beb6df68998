//! A search whose worker writes a snapshot after each subproblem that it finishes.

ghost use Rattle.std.specs.Prelude.{◌≡◌, [], ◌∷◌, pos, Some, None, vec_len};
ghost use Rattle.std.specs.Arc.{arc_value};
ghost use Rattle.std.specs.List.{All};
ghost use Rattle.dp_model.specs.Dp.{Dp};
ghost use Rattle.board_laws.specs.Board.{BoardState, full_slots};
ghost use Rattle.board_laws.specs.Steps.{first_board};
ghost use Rattle.kept_board.specs.Kept.{MayKeep};
ghost use Rattle.search_workers.specs.Prepared.{IsPreparedDesk};

use crate::keeping::begun;
use crate::replaying::{SETTINGS, items};
use board::Board;
use disk::{Disk, MemDisk};
use dp_model::{CutKind, DpModel};
use journal_file::{JournalError, Tail, reopen};
use kept_board::Kept;
use knapsack::Knapsack;
use search_workers::{Desk, NoGate, explore_together};
use std::alloc::Global;
use std::process::Abort;
use std::sync::{Arc, Wait};
use std::thread::Threads;
use turn::NoTurn;

/// The width of the diagrams, that of the settings.
const WIDTH: u32 = 1;

/// How long a file is, how many records stand in it after the head, and how many after the last snapshot.
type Written = (usize, usize, usize);

/// The board at the start of a search.
fn first<M: DpModel>(rt: &impl Abort, alloc: Global, model: &Arc<M>) -> Board<M>
    ensures numbers { result.numbers ≡ M.numbers (arc_value model.now) }
    ensures made { result.board ≡ first_board (M.meaning result.numbers) result.board.settings }
    ensures within { result.board.settings.within ≡ pos 0 }
    ensures going { result.board.cause ≡ None }
    ensures idle { full_slots result.board.slots ≡ [] }
    ensures workers { result.board.settings.workers ≡ 1 }
    ensures width { result.board.settings.width ≡ WIDTH }
{
    let model = Arc::try_clone(model).expect(rt, "memory");
    Board::begin(alloc, model, SETTINGS).expect(rt, "memory")
}

/// The board at the start of a search, kept in the journal at the tail, with a snapshot after each finished subproblem.
fn kept_first<M: DpModel, D: Disk>(
    rt: &impl Abort,
    alloc: Global,
    model: &Arc<M>,
    disk: D,
    tail: Tail,
) -> Kept<M, D>
    requires { (dp : Dp) (b : BoardState) → b ≡ first_board dp b.settings → b.settings.within ≡ pos 0 →
        MayKeep D.Disk dp b disk (Some tail) }
    ensures numbers { result.board.numbers ≡ M.numbers (arc_value model.now) }
    ensures idle { full_slots result.board.board.slots ≡ [] }
    ensures workers { result.board.board.settings.workers ≡ 1 }
    ensures width { result.board.board.settings.width ≡ WIDTH }
{
    let board = first(rt, alloc, model);
    Kept::new(board, disk, Some(tail), 1)
}

/// A list of one desk without a book.
fn one_desk<M: DpModel>(rt: &impl Abort, alloc: Global, model: &M) -> Vec<Desk>
    ensures one { vec_len result ≡ 1 }
    ensures prepared { All (IsPreparedDesk (M.meaning (M.numbers model.now)) WIDTH) result.items }
{
    match Desk::prepare(alloc, model, WIDTH, CutKind::LastExactLayer, None, 1) {
        Ok(desk) => alone(rt, alloc, desk),
        Err(_) => panic!(rt; "the desk"),
    }
}

/// A list of this desk alone.
fn alone(rt: &impl Abort, alloc: Global, desk: Desk) -> Vec<Desk>
    ensures { result.items ≡ desk ∷ [] }
{
    let mut desks = Vec::with_capacity(alloc, 1).expect(rt, "memory");
    desks.push_reserved(desk);
    desks
}

/// The disk at the end of a search.
fn disk_of<M: DpModel>(kept: Kept<M, MemDisk>) -> MemDisk {
    let (board, disk) = kept.into_parts();
    drop(board);
    disk
}

/// Searches with one worker, and gives the disk with its journal.
fn searched<R: Threads + Wait + Sync + Abort>(
    rt: &R,
    alloc: Global,
) -> Result<MemDisk, JournalError> {
    let mut disk = MemDisk::new(Vec::new(alloc), Vec::new(alloc));
    let tail = begun(rt, alloc, &mut disk)?;
    let model: Arc<Knapsack> = Arc::new(alloc, items(rt, alloc)).expect(rt, "memory");
    let kept = kept_first(rt, alloc, &model, disk, tail);
    let mut desks = one_desk(rt, alloc, &*model);
    match explore_together(rt, alloc, kept, &mut desks, &*model, &NoGate) {
        Ok(kept) => Ok(disk_of(kept)),
        Err(NoTurn { .. }) => panic!(rt; "memory"),
    }
}

/// What the file of a disk has.
fn written(rt: &impl Abort, alloc: Global, disk: &mut MemDisk) -> Result<Written, JournalError> {
    let long = disk.bytes().len();
    disk.attach("j").expect(rt, "attached");
    let (_, records, _) = reopen(alloc, disk)?;
    Ok((long, records.as_slice().len(), records.len_after_base()))
}

/// What a search with snapshots writes.
fn search<R: Threads + Wait + Sync + Abort>(
    rt: &R,
    alloc: Global,
) -> Result<Written, JournalError> {
    let mut disk = searched(rt, alloc)?;
    written(rt, alloc, &mut disk)
}

/// Beside the two solutions and the three finished subproblems three snapshots of 85, 61 and 37 bytes are written, the last record
/// among them.
#[test]
fn a_worker_writes_snapshots(rt: HostRuntime) {
    assert_eq!(rt; search(&rt, rt.alloc()), Ok((695, 8, 0)));
}
