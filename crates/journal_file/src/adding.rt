ghost use Rattle.std.specs.Prelude.{◌≡◌, ◌⊎◌, ◌≤◌, ◌<◌, ◌+◌, ◌^◌, ◌++◌, [], ◌∷◌, ℕ, List, length, Some, IsTrue, OnOk, OnErr, IsErrOf};
ghost use Rattle.disk.specs.Counts.{Rose};
ghost use Rattle.disk.specs.Disk.{FirstSync, Keeps, LeavesOnly};
ghost use Rattle.journal_bytes.specs.Bodies.{RecordView};
ghost use Rattle.journal_bytes.specs.Frames.{frames_of, IsBeforeOrAfter};
ghost use Rattle.journal_bytes.specs.Journal.{HeadView, HasRecords, since_after};
ghost use Rattle.journal_bytes.specs.Spelling.{HasSpelling, IsOfVersion};
ghost use Rattle.journal_bytes.specs.Views.{record_view};
ghost use Rattle.journal_file.specs.Settled.{IsSettled, IsOpen};

use crate::AppendError;
use crate::steps::write_synced;
use disk::Disk;
use journal_bytes::{FRAME_OVERHEAD, OPEN_GATE, Record, Tail, record_body, seal};
use std::alloc::Global;

/// Adds a record of a kind and a body, after which this many finished subproblems are counted.
pub(crate) fn append_frame<D: Disk>(
    alloc: Global,
    disk: &mut D,
    tail: &mut Tail,
    kind: u8,
    body: &[u8],
    since: u64,
) -> Result<(), AppendError>
    requires attached { IsTrue (D.attached disk.old) }
    requires settled { IsTrue (D.tells disk.old) →
        IsSettled (D.seen disk.old) (D.may_leave disk.old) tail.old (frames_of (D.seen disk.old)) }
    requires length { length body.now < 2 ^ 32 }
    ensures acknowledged { OnOk result (IsTrue (D.tells disk.old) →
        IsSettled (D.seen disk.new) (D.may_leave disk.new) tail.new (frames_of (D.seen disk.new))
        × (frames_of (D.seen disk.new) ≡
        frames_of (D.seen disk.old) ++ record { kind = kind; body = body.now } ∷ [])) }
    ensures counts { OnOk result ((tail.new.version ≡ tail.old.version) × (tail.new.since ≡ since)) }
    ensures any_moment { IsTrue (D.tells disk.old) → LeavesOnly D.moment D.left_since disk.old disk.new
        (IsBeforeOrAfter (frames_of (D.seen disk.old)) (record { kind = kind; body = body.now })) }
    ensures disk { IsErrOf result AppendError.Disk → Rose (D.faults disk.old) (D.faults disk.new) }
    ensures memory { IsErrOf result AppendError.OutOfMemory → disk.new ≡ disk.old }
    ensures tail { OnErr result (tail.new ≡ tail.old) }
    ensures faults { D.faults disk.old ≤ D.faults disk.new }
    ensures start { (s : FirstSync) → D.start disk.old ≡ Some s → D.start disk.new ≡ Some s }
    ensures keeps { Keeps D.attached D.tells D.names D.found disk.old disk.new }
{
    let size = (FRAME_OVERHEAD + body.len()) as u64;
    if tail.end >= u64::MAX - size {
        return Err(AppendError::OutOfMemory);
    }
    let (bytes, digest) = seal(alloc, &tail.digest, kind, body)?;
    write_synced(disk, tail.end + 1, &bytes)?;
    write_synced(disk, tail.end, &[OPEN_GATE])?;
    *tail = Tail {
        end: tail.end + size,
        digest,
        version: tail.version,
        since,
    };
    Ok(())
}

/// Adds a record after those that are there: its bytes after the closed gate at `tail` and another closed gate after them,
/// a sync, the open gate, a sync. At Ok it is acknowledged, and `tail` is after it.
///
/// The tail is that of `begin`, `reopen` or the `append` before, all of them Ok, for this disk; nothing was written since. A
/// journal of version 1 takes no snapshots.
///
/// # Errors
///
/// `Disk` only where a call of the disk failed in this call: the journal is to be opened again before another record is added.
/// After `OutOfMemory` nothing was written; it is also answered where the next gate would stand at `u64::MAX` or above.
pub fn append<D: Disk>(
    alloc: Global,
    disk: &mut D,
    tail: &mut Tail,
    entry: &Record,
) -> Result<(), AppendError>
    requires attached { IsTrue (D.attached disk.old) }
    requires ready { IsTrue (D.tells disk.old) → IsOpen (D.seen disk.old) (D.may_leave disk.old) tail.old }
    requires spelling { HasSpelling (record_view entry.now) }
    requires version { IsOfVersion tail.old.version (record_view entry.now) }

    // Acknowledged: from then on each crash leaves a file that has the record.
    ensures ready { OnOk result (IsTrue (D.tells disk.old) → IsOpen (D.seen disk.new) (D.may_leave disk.new) tail.new) }
    ensures counts { OnOk result ((tail.new.version ≡ tail.old.version) × (tail.new.since ≡ since_after tail.old.since (record_view entry.now))) }
    ensures acknowledged { OnOk result (IsTrue (D.tells disk.old) → (head : HeadView) (records : List RecordView) →
        HasRecords head records (D.seen disk.old) →
        HasRecords head (records ++ record_view entry.now ∷ []) (D.seen disk.new)) }

    // A crash at any moment of the call leaves the records from before it, or these and the new one.
    ensures any_moment { IsTrue (D.tells disk.old) → (head : HeadView) (records : List RecordView) →
        HasRecords head records (D.seen disk.old) →
        LeavesOnly D.moment D.left_since disk.old disk.new (λ c.
        HasRecords head records c ⊎ HasRecords head (records ++ record_view entry.now ∷ []) c) }
    ensures disk { IsErrOf result AppendError.Disk → Rose (D.faults disk.old) (D.faults disk.new) }
    ensures memory { IsErrOf result AppendError.OutOfMemory → disk.new ≡ disk.old }
    ensures tail { OnErr result (tail.new ≡ tail.old) }
    ensures faults { D.faults disk.old ≤ D.faults disk.new }
    ensures start { (s : FirstSync) → D.start disk.old ≡ Some s → D.start disk.new ≡ Some s }
    ensures keeps { Keeps D.attached D.tells D.names D.found disk.old disk.new }
{
    let body = record_body(alloc, entry)?;
    let since = entry.since_after(tail.since);
    append_frame(alloc, disk, tail, entry.kind(), &body, since)
}
