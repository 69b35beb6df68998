//! A board that is kept in a journal, on a disk that passes this many calls and then fails every one.

ghost use Rattle.std.specs.Prelude.{◌≡◌, [], pos, Some, None, IfOk};
ghost use Rattle.dp_model.specs.Dp.{Dp};
ghost use Rattle.board_laws.specs.Board.{BoardState, full_slots};
ghost use Rattle.board_laws.specs.Steps.{first_board};
ghost use Rattle.kept_board.specs.Kept.{MayKeep};

use crate::files::head_of_text;
use crate::replaying::{ITEMS, SETTINGS, items, last_known, shared};
use board::{Board, Cause, Improved};
use disk::{Disk, MemDisk};
use dp_model::DpModel;
use journal_file::{JournalError, Tail, begin};
use kept_board::{Kept, KeptError};
use std::alloc::Global;
use std::process::Abort;

/// What an offer answers, the cause that the board then holds, and how long the file is.
type Offered = (Result<Improved, KeptError>, Option<Cause>, usize);

/// The board at the start of a search.
fn first<M: DpModel>(rt: &impl Abort, alloc: Global, model: M) -> Board<M>
    ensures made { result.board ≡ first_board (M.meaning result.numbers) result.board.settings }
    ensures within { result.board.settings.within ≡ pos 0 }
    ensures going { result.board.cause ≡ None }
    ensures empty { full_slots result.board.slots ≡ [] }
{
    let model = shared(alloc, model).expect(rt, "memory");
    Board::begin(alloc, model, SETTINGS).expect(rt, "memory")
}

/// Begins the journal of the items on the disk. The board at the start of a search may be kept in it.
pub(crate) fn begun<D: Disk>(
    rt: &impl Abort,
    alloc: Global,
    disk: &mut D,
) -> Result<Tail, JournalError>
    ensures { IfOk result (λ tail. (dp : Dp) (b : BoardState) → b ≡ first_board dp b.settings → b.settings.within ≡ pos 0 →
        MayKeep D.Disk dp b disk.new (Some tail)) }
{
    disk.attach("j")?;
    begin(alloc, disk, &head_of_text(rt, alloc, ITEMS))
}

/// What an offer of the solution 1 1 0 answers where the board is kept in the journal at the tail, with the board and the disk.
fn offer<M: DpModel, D: Disk>(
    alloc: Global,
    board: Board<M>,
    disk: D,
    tail: Tail,
) -> (Result<Improved, KeptError>, Board<M>, D)
    requires idle { (board.board.cause ≡ None) × (full_slots board.board.slots ≡ []) }
    requires made { MayKeep D.Disk (M.meaning board.numbers) board.board disk (Some tail) }
{
    let mut kept = Kept::new(board, disk, Some(tail), 1);
    let answer = kept.improve(alloc, &[1, 1, 0]);
    let (board, disk) = kept.into_parts();
    (answer, board, disk)
}

/// How long the file is at the end.
fn last_length(disk: MemDisk) -> usize {
    disk.bytes().len()
}

/// What that offer does to the board at the start of a search.
fn offered_first<M: DpModel, D: Disk>(
    rt: &impl Abort,
    alloc: Global,
    model: M,
    disk: D,
    tail: Tail,
) -> (Result<Improved, KeptError>, Option<Cause>, D)
    requires { (dp : Dp) (b : BoardState) → b ≡ first_board dp b.settings → b.settings.within ≡ pos 0 →
        MayKeep D.Disk dp b disk (Some tail) }
{
    let board = first(rt, alloc, model);
    let (answer, board, disk) = offer(alloc, board, disk, tail);
    (answer, last_known(board).1, disk)
}

/// What that offer does on a disk that passes this many calls.
fn offered(rt: &impl Abort, alloc: Global, calls: u64) -> Result<Offered, JournalError> {
    let mut disk = MemDisk::fused(Vec::new(alloc), calls);
    let tail = begun(rt, alloc, &mut disk)?;
    let (answer, cause, disk) = offered_first(rt, alloc, items(rt, alloc), disk, tail);
    Ok((answer, cause, last_length(disk)))
}

/// After how many calls the disk stops, and what the offer does then.
const STOPS: &[(u64, Result<Offered, JournalError>)] = &[
    (8, Err(JournalError::Disk)),
    (9, Ok((Err(KeptError::Journal), Some(Cause::Journal), 76))),
    (10, Ok((Err(KeptError::Journal), Some(Cause::Journal), 138))),
    (12, Ok((Err(KeptError::Journal), Some(Cause::Journal), 138))),
    (13, Ok((Ok(Improved::Yes), None, 138))),
];

/// The offer does what is wanted.
fn offers(rt: &impl Abort, alloc: Global, calls: u64, wanted: Result<Offered, JournalError>) {
    assert_eq!(rt; offered(rt, alloc, calls), wanted, "after {calls} calls");
}

#[test]
fn a_solution_is_recorded_or_the_search_halts(rt: HostRuntime) {
    for (calls, wanted) in STOPS.iter().copied() {
        offers(&rt, rt.alloc(), calls, wanted);
    }
}
