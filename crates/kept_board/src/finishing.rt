//! What comes before a Finish changes the board: memory, the fates of the children, and the record.

ghost use Rattle.std.specs.Prelude.{◌≡◌, ℕ, ◌≤◌, ◌<◌, ◌^◌, ℤ, Option, None, Some, IsSome, is_some, option_map, OnOk, OnErr, IsErrOf, length};
ghost use Rattle.board_laws.specs.Fates.{fates_on};
ghost use Rattle.board_laws.specs.Finishing.{MayFinish};
ghost use Rattle.disk.specs.Counts.{Rose};
ghost use Rattle.disk.specs.Disk.{FirstSync, Keeps};
ghost use Rattle.dp_laws.specs.Children.{children_size};
ghost use Rattle.journal_bytes.specs.Bodies.{RecordView};
ghost use Rattle.journal_replay.specs.Following.{finish_record};
ghost use Rattle.board.specs.Contents.{contents};
ghost use Rattle.board.specs.View.{tag_of};
ghost use Rattle.kept_board.specs.Adding.{MayAddTo, LeavesAtMost, Acknowledges};
ghost use Rattle.kept_board.specs.View.{since_of, one_more};

use crate::error::KeptError;
use crate::recording::record_finish;
use board::{Board, Fate};
use disk::Disk;
use dp_model::{DpModel, OutOfMemory, Sub};
use journal_file::Tail;
use std::alloc::Global;

/// Makes room for the children and for their fates, and decides them.
fn decide<M: DpModel>(
    board: &mut Board<M>,
    subs: &[Sub],
    fates: &mut Vec<Fate>,
) -> Result<(), OutOfMemory>
    requires may { (who : ℕ) × (threshold : Option ℤ) × MayFinish (M.meaning board.old.numbers) board.old.board who threshold (contents subs.now) (fates_on (M.meaning board.old.numbers) board.old.board (contents subs.now)) }
    ensures board { board.new.board ≡ board.old.board }
    ensures tag { tag_of board.new ≡ tag_of board.old }
    ensures room { OnOk result (length subs.now ≤ board.new.room) }
    ensures fates { OnOk result (fates.new.items ≡ fates_on (M.meaning board.old.numbers) board.old.board (contents subs.now)) }
{
    board.reserve_for(subs.len())?;
    fates.clear();
    fates.reserve(subs.len())?;
    board.fates(subs, fates);
    Ok(())
}

/// Makes room for the children, decides their fates, and adds the record of the Finish, where there is a journal. The board stays as
/// it is.
pub fn write_finish<M: DpModel, D: Disk>(
    alloc: Global,
    board: &mut Board<M>,
    disk: &mut D,
    tail: &mut Option<Tail>,
    who: u32,
    subs: &[Sub],
    fates: &mut Vec<Fate>,
) -> Result<(), KeptError>
    requires may { (threshold : Option ℤ) × MayFinish (M.meaning board.old.numbers) board.old.board who threshold (contents subs.now) (fates_on (M.meaning board.old.numbers) board.old.board (contents subs.now)) }
    requires size { children_size (contents subs.now) < 2 ^ 32 }
    requires ready { MayAddTo D.Disk disk.old tail.old }
    ensures board { board.new.board ≡ board.old.board }
    ensures tag { tag_of board.new ≡ tag_of board.old }
    ensures room { OnOk result (length subs.now ≤ board.new.room) }
    ensures fates { OnOk result (fates.new.items ≡ fates_on (M.meaning board.old.numbers) board.old.board (contents subs.now)) }
    ensures ready { OnOk result (MayAddTo D.Disk disk.new tail.new) }
    ensures acknowledged { OnOk result (IsSome tail.old → (r : RecordView) → finish_record (M.meaning board.old.numbers) board.old.board who (contents subs.now) ≡ Some r → Acknowledges D.Disk disk.old disk.new r) }
    ensures any_moment { IsSome tail.old → (r : RecordView) → finish_record (M.meaning board.old.numbers) board.old.board who (contents subs.now) ≡ Some r → LeavesAtMost D.Disk disk.old disk.new r }
    ensures none { tail.old ≡ None → disk.new ≡ disk.old }
    ensures tail { is_some tail.new ≡ is_some tail.old }
    ensures since { OnOk result (since_of tail.new ≡ option_map one_more (since_of tail.old)) }
    ensures tail_err { OnErr result (tail.new ≡ tail.old) }
    ensures journal { IsErrOf result KeptError.Journal → IsSome tail.old × Rose (D.faults disk.old) (D.faults disk.new) }
    ensures memory { IsErrOf result KeptError.OutOfMemory → disk.new ≡ disk.old }
    ensures faults { D.faults disk.old ≤ D.faults disk.new }
    ensures start { (s : FirstSync) → D.start disk.old ≡ Some s → D.start disk.new ≡ Some s }
    ensures keeps { Keeps D.attached D.tells D.names D.found disk.old disk.new }
{
    board.facts();
    decide(board, subs, fates)?;
    let Some(ticket) = board.slot_ticket(who) else {
        unreachable!();
    };
    record_finish(alloc, disk, tail, ticket, subs, fates.as_slice())
}
