//! The records of a kept board's steps, added where there is a journal.

ghost use Rattle.std.specs.Prelude.{◌≡◌, ◌≤◌, ◌<◌, ◌^◌, None, Some, IsSome, is_some, option_map, IfSome, IsOk, OnOk, OnErr, IsErrOf, length};
ghost use Rattle.disk.specs.Counts.{Rose};
ghost use Rattle.disk.specs.Disk.{FirstSync, Keeps};
ghost use Rattle.journal_bytes.specs.Bodies.{Improve, Finish};
ghost use Rattle.journal_bytes.specs.Spelling.{HasSpelling};
ghost use Rattle.journal_bytes.specs.declared.head.TheConstants.{VERSION};
ghost use Rattle.journal_replay.specs.Following.{recorded_children, snapshot_record};
ghost use Rattle.board.specs.Contents.{contents};
ghost use Rattle.kept_board.specs.Adding.{MayAddTo, LeavesAtMost, Acknowledges};
ghost use Rattle.kept_board.specs.View.{since_of, one_more};

use crate::children::children_of;
use crate::error::KeptError;
use crate::snapshots::snapshot_of;
use board::{Board, Fate};
use disk::Disk;
use dp_model::{DpModel, Sub};
use journal_file::{Record, Tail, append};
use std::alloc::Global;

/// Adds the record of a better solution, where there is a journal.
pub fn record_improve<D: Disk>(
    alloc: Global,
    disk: &mut D,
    tail: &mut Option<Tail>,
    value: i64,
    decisions: &[u32],
) -> Result<(), KeptError>
    requires ready { MayAddTo D.Disk disk.old tail.old }
    requires length { length decisions.now < 2 ^ 20 }
    ensures ready { OnOk result (MayAddTo D.Disk disk.new tail.new) }
    ensures acknowledged { OnOk result (IsSome tail.old → Acknowledges D.Disk disk.old disk.new (Improve value decisions.now)) }
    ensures any_moment { IsSome tail.old → LeavesAtMost D.Disk disk.old disk.new (Improve value decisions.now) }
    ensures none { tail.old ≡ None → disk.new ≡ disk.old }
    ensures tail { is_some tail.new ≡ is_some tail.old }
    ensures since { OnOk result (since_of tail.new ≡ since_of tail.old) }
    ensures tail_err { OnErr result (tail.new ≡ tail.old) }
    ensures journal { IsErrOf result KeptError.Journal → IsSome tail.old × Rose (D.faults disk.old) (D.faults disk.new) }
    ensures memory { IsErrOf result KeptError.OutOfMemory → disk.new ≡ disk.old }
    ensures faults { D.faults disk.old ≤ D.faults disk.new }
    ensures start { (s : FirstSync) → D.start disk.old ≡ Some s → D.start disk.new ≡ Some s }
    ensures keeps { Keeps D.attached D.tells D.names D.found disk.old disk.new }
{
    let Some(end) = tail else {
        return Ok(());
    };
    let decisions = Vec::from_slice(alloc, decisions)?;
    append(alloc, disk, end, &Record::Improve { value, decisions })?;
    Ok(())
}

/// Adds the record of a finished subproblem with those of its children that enter, where there is a journal.
pub fn record_finish<D: Disk>(
    alloc: Global,
    disk: &mut D,
    tail: &mut Option<Tail>,
    ticket: u64,
    subs: &[Sub],
    fates: &[Fate],
) -> Result<(), KeptError>
    requires ready { MayAddTo D.Disk disk.old tail.old }
    requires spelling { HasSpelling (Finish ticket (recorded_children (contents subs.now) fates.now)) }
    ensures ready { OnOk result (MayAddTo D.Disk disk.new tail.new) }
    ensures acknowledged { OnOk result (IsSome tail.old → Acknowledges D.Disk disk.old disk.new (Finish ticket (recorded_children (contents subs.now) fates.now))) }
    ensures any_moment { IsSome tail.old → LeavesAtMost D.Disk disk.old disk.new (Finish ticket (recorded_children (contents subs.now) fates.now)) }
    ensures none { tail.old ≡ None → disk.new ≡ disk.old }
    ensures tail { is_some tail.new ≡ is_some tail.old }
    ensures since { OnOk result (since_of tail.new ≡ option_map one_more (since_of tail.old)) }
    ensures tail_err { OnErr result (tail.new ≡ tail.old) }
    ensures journal { IsErrOf result KeptError.Journal → IsSome tail.old × Rose (D.faults disk.old) (D.faults disk.new) }
    ensures memory { IsErrOf result KeptError.OutOfMemory → disk.new ≡ disk.old }
    ensures faults { D.faults disk.old ≤ D.faults disk.new }
    ensures start { (s : FirstSync) → D.start disk.old ≡ Some s → D.start disk.new ≡ Some s }
    ensures keeps { Keeps D.attached D.tells D.names D.found disk.old disk.new }
{
    let Some(end) = tail else {
        return Ok(());
    };
    let children = children_of(alloc, subs, fates)?;
    append(alloc, disk, end, &Record::Finish { ticket, children })?;
    Ok(())
}

/// Adds a snapshot of the board, where there is a journal.
pub fn record_snapshot<M: DpModel, D: Disk>(
    alloc: Global,
    board: &Board<M>,
    disk: &mut D,
    tail: &mut Option<Tail>,
) -> Result<(), KeptError>
    requires ready { MayAddTo D.Disk disk.old tail.old }
    requires version { IfSome tail.old (λ t. t.version ≡ VERSION) }
    requires spelling { HasSpelling (snapshot_record board.now.board) }
    ensures ready { OnOk result (MayAddTo D.Disk disk.new tail.new) }
    ensures acknowledged { OnOk result (IsSome tail.old → Acknowledges D.Disk disk.old disk.new (snapshot_record board.now.board)) }
    ensures any_moment { IsSome tail.old → LeavesAtMost D.Disk disk.old disk.new (snapshot_record board.now.board) }
    ensures none { tail.old ≡ None → disk.new ≡ disk.old }
    ensures tail { is_some tail.new ≡ is_some tail.old }
    ensures since { OnOk result (since_of tail.new ≡ option_map (λ n. 0) (since_of tail.old)) }
    ensures tail_err { OnErr result (tail.new ≡ tail.old) }
    ensures journal { IsErrOf result KeptError.Journal → Rose (D.faults disk.old) (D.faults disk.new) }
    ensures memory { IsErrOf result KeptError.OutOfMemory → disk.new ≡ disk.old }
    ensures faults { D.faults disk.old ≤ D.faults disk.new }
    ensures start { (s : FirstSync) → D.start disk.old ≡ Some s → D.start disk.new ≡ Some s }
    ensures keeps { Keeps D.attached D.tells D.names D.found disk.old disk.new }
{
    let Some(end) = tail else {
        return Ok(());
    };
    let snapshot = snapshot_of(alloc, board)?;
    append(alloc, disk, end, &snapshot)?;
    Ok(())
}
