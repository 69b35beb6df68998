ghost use Rattle.std.specs.Prelude.{◌≡◌, ◌⊎◌, ◌≤◌, ◌<◌, ◌^◌, [], ℕ, List, length, Some, None, Err, get_or, is_err, IsTrue, IsSome, IfSome, IfOk, OnOk, IfErr, IsErrOf};
ghost use Rattle.disk.specs.Counts.{Rose, Counts};
ghost use Rattle.disk.specs.Disk.{FirstSync, AtFirstSync, Only, Keeps, LeavesOnly};
ghost use Rattle.journal_bytes.specs.Journal.{journal_of, is_distance, new_head, HasRecords};
ghost use Rattle.journal_bytes.specs.declared.refusal.Refusal.TheVariants.{NotBegun};
ghost use Rattle.journal_file.specs.Settled.{IsOpen};
ghost use Rattle.journal_file.specs.Beginning.{IsProbed, BeganAt, LeavesSince, MayBegin, IsBegun};
ghost use Rattle.journal_file.specs.Refusing.{KeepsFromBeginning};

use crate::adding::append_frame;
use crate::steps::{probe, write_synced};
use crate::{AppendError, JournalError};
use disk::{Disk, DiskFailed};
use journal_bytes::{CLOSED_GATE, HEAD_KIND, Head, Tail, VERSION, head_body};
use std::alloc::Global;

/// Sees to it that the file begins with a closed gate; `has_gate` tells that it does.
fn close_first<D: Disk>(disk: &mut D, has_gate: bool) -> Result<(), DiskFailed>
    requires attached { IsTrue (D.attached disk.old) }
    requires probed { IsTrue (D.tells disk.old) → IsProbed has_gate (D.seen disk.old) }
    requires durable { IsTrue (D.tells disk.old) → Only (D.seen disk.old) (D.may_leave disk.old) }
    ensures closed { OnOk result (IsTrue (D.tells disk.old) →
        (0 < length (D.seen disk.new)) × (get_or (D.seen disk.new) 0 0 ≡ 0)) }
    ensures durable { OnOk result (IsTrue (D.tells disk.old) → Only (D.seen disk.new) (D.may_leave disk.new)) }
    ensures any_moment { IsTrue (D.tells disk.old) → LeavesOnly D.moment D.left_since disk.old disk.new
        (λ c. journal_of c ≡ Err NotBegun) }
    ensures start { (s : FirstSync) → D.start disk.old ≡ Some s → D.start disk.new ≡ Some s }
    ensures keeps { Keeps D.attached D.tells D.names D.found disk.old disk.new }
    ensures faults { Counts (is_err result) (D.faults disk.old) (D.faults disk.new) }
{
    if has_gate {
        return Ok(());
    }
    write_synced(disk, 0, &[CLOSED_GATE])
}

/// Writes the head of a journal into a file that has none.
fn add_head<D: Disk>(
    alloc: Global,
    disk: &mut D,
    has_gate: bool,
    head: &Head,
) -> Result<Tail, AppendError>
    requires attached { IsTrue (D.attached disk.old) }
    requires probed { IsTrue (D.tells disk.old) → IsProbed has_gate (D.seen disk.old) }
    requires durable { IsTrue (D.tells disk.old) → Only (D.seen disk.old) (D.may_leave disk.old) }
    requires text { length head.now.text.items ≤ 2 ^ 30 }
    requires within { IsTrue (is_distance head.now.within) }
    requires part { IfSome head.now.part (λ p. p.index < p.of) }
    ensures ready { IfOk result (λ tail. IsTrue (D.tells disk.old) →
        IsOpen (D.seen disk.new) (D.may_leave disk.new) tail × HasRecords (new_head head.now) [] (D.seen disk.new)) }
    ensures any_moment { IsTrue (D.tells disk.old) → LeavesOnly D.moment D.left_since disk.old disk.new
        (IsBegun (new_head head.now)) }
    ensures start { (s : FirstSync) → D.start disk.old ≡ Some s → D.start disk.new ≡ Some s }
    ensures disk { IsErrOf result AppendError.Disk → Rose (D.faults disk.old) (D.faults disk.new) }
    ensures faults { D.faults disk.old ≤ D.faults disk.new }
    ensures keeps { Keeps D.attached D.tells D.names D.found disk.old disk.new }
{
    let body = head_body(alloc, head)?;
    close_first(disk, has_gate)?;
    let digest = [0u8; 32];
    let mut tail = Tail {
        end: 0,
        digest,
        version: VERSION,
        since: 0,
    };
    append_frame(alloc, disk, &mut tail, HEAD_KIND, &body, 0)?;
    Ok(tail)
}

/// Begins a journal with this head in a file that has none: syncs, writes a closed gate where the file has 0 or 1 bytes, and
/// adds the head as `append` adds a record. The journal is of version 2, or has the mark of a part where the head has one. The text of the head
/// has at most `2^30` bytes, the distance is from 0 to 2^50, and the number of a part is less than that of the parts.
///
/// # Errors
///
/// `Exists` exactly where the file has two or more bytes and its first is not 0; nothing was written then. `Disk` only where a
/// call of the disk failed. No other but `OutOfMemory`.
pub fn begin<D: Disk>(alloc: Global, disk: &mut D, head: &Head) -> Result<Tail, JournalError>
    requires attached { IsTrue (D.attached disk.old) }
    requires text { length head.now.text.items ≤ 2 ^ 30 }
    requires within { IsTrue (is_distance head.now.within) }
    requires part { IfSome head.now.part (λ p. p.index < p.of) }

    // A record may be added after the head.
    ensures ready { IfOk result (λ tail. IsTrue (D.tells disk.old) →
        IsOpen (D.seen disk.new) (D.may_leave disk.new) tail × HasRecords (new_head head.now) [] (D.seen disk.new)) }

    // Its sync finds the file as it was, and from then on a crash at any moment leaves no journal, or this head alone.
    ensures since { IsTrue (D.tells disk.old) → D.start disk.old ≡ None →
        AtFirstSync (D.start disk.new) (D.seen disk.old) (D.seen disk.new) (λ s. (s.content ≡ D.seen disk.old) × (MayBegin s.content →
        LeavesSince D.moment D.left_since s disk.new (IsBegun (new_head head.now)))) }
    ensures began { OnOk result (D.start disk.old ≡ None → IsSome (D.start disk.new)) }
    ensures counted { D.start disk.old ≡ None → IfSome (D.start disk.new) (λ s. s.faults ≤ D.faults disk.new) }

    // Where the file has something else, it is left as it was, whatever is answered.
    ensures exists { IsErrOf result JournalError.Exists → IsTrue (D.tells disk.old) →
        (2 ≤ length (D.seen disk.old)) × ¬ (get_or (D.seen disk.old) 0 0 ≡ 0) × (D.seen disk.new ≡ D.seen disk.old) }
    ensures began_exists { IsErrOf result JournalError.Exists → D.start disk.old ≡ None → IsSome (D.start disk.new) }
    ensures begins { OnOk result (IsTrue (D.tells disk.old) → MayBegin (D.seen disk.old)) }
    ensures spared { IsTrue (D.tells disk.old) → D.start disk.old ≡ None →
        AtFirstSync (D.start disk.new) (D.seen disk.old) (D.seen disk.new) (λ s. MayBegin s.content ⊎ BeganAt D.moment D.left_since s disk.new s.content) }
    ensures disk { IsErrOf result JournalError.Disk → Rose (D.faults disk.old) (D.faults disk.new) }
    ensures errors { IfErr result KeepsFromBeginning }
    ensures faults { D.faults disk.old ≤ D.faults disk.new }
    ensures keeps { Keeps D.attached D.tells D.names D.found disk.old disk.new }
{
    let has_gate = probe(disk)?;
    Ok(add_head(alloc, disk, has_gate, head)?)
}
