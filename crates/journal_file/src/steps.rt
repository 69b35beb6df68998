ghost use Rattle.std.specs.Prelude.{◌≡◌, ◌⊎◌, ◌≤◌, ◌+◌, ℕ, List, length, Some, None, IsSome, IfSome, get_or, is_err, IsTrue, IsErrOf, IfOk, IfErr, OnOk};
ghost use Rattle.disk.specs.Counts.{Rose, Counts};
ghost use Rattle.disk.specs.Disk.{FirstSync, AtFirstSync, Holds, Torn, Only, Keeps, LeavesOnly};
ghost use Rattle.journal_file.specs.declared.error.JournalError.{JournalError};
ghost use Rattle.journal_file.specs.Beginning.{IsProbed, BeganAt};
ghost use Rattle.journal_file.specs.Refusing.{KeepsFromBeginning};

use crate::error::JournalError;
use disk::{Disk, DiskFailed};
use journal_bytes::CLOSED_GATE;
use std::alloc::Global;

/// Writes, and puts it on the disk.
pub(crate) fn write_synced<D: Disk>(disk: &mut D, at: u64, bytes: &[u8]) -> Result<(), DiskFailed>
    requires attached { IsTrue (D.attached disk.old) }
    requires range { IsTrue (D.tells disk.old) → at ≤ length (D.seen disk.old) }
    requires durable { IsTrue (D.tells disk.old) → Only (D.seen disk.old) (D.may_leave disk.old) }
    ensures written { OnOk result (IsTrue (D.tells disk.old) → Holds (D.seen disk.old) at bytes.now (D.seen disk.new)) }
    ensures durable { OnOk result (IsTrue (D.tells disk.old) → Only (D.seen disk.new) (D.may_leave disk.new)) }
    ensures any_moment { IsTrue (D.tells disk.old) → LeavesOnly D.moment D.left_since disk.old disk.new (Torn at (length bytes.now) (D.seen disk.old)) }
    ensures start { (s : FirstSync) → D.start disk.old ≡ Some s → D.start disk.new ≡ Some s }
    ensures keeps { Keeps D.attached D.tells D.names D.found disk.old disk.new }
    ensures faults { Counts (is_err result) (D.faults disk.old) (D.faults disk.new) }
{
    disk.write_at(at, bytes)?;
    disk.sync()
}

/// Syncs, and reads all that the file has.
pub(crate) fn fetch<D: Disk>(alloc: Global, disk: &mut D) -> Result<Vec<u8>, JournalError>
    requires { IsTrue (D.attached disk.old) }
    ensures bytes { IfOk result (λ v. IsTrue (D.tells disk.old) → v.items ≡ D.seen disk.old) }
    ensures durable { OnOk result (IsTrue (D.tells disk.old) → Only (D.seen disk.old) (D.may_leave disk.new)) }
    ensures seen { D.seen disk.new ≡ D.seen disk.old }
    ensures any_moment { IsTrue (D.tells disk.old) → LeavesOnly D.moment D.left_since disk.old disk.new (λ c. D.may_leave disk.old c ⊎ (c ≡ D.seen disk.old)) }
    ensures start { IsTrue (D.tells disk.old) → D.start disk.old ≡ None → AtFirstSync (D.start disk.new) (D.seen disk.old) (D.seen disk.new)
        (λ s. BeganAt D.moment D.left_since s disk.new (D.seen disk.old)) }
    ensures began { OnOk result (D.start disk.old ≡ None → IsSome (D.start disk.new)) }
    ensures counted { D.start disk.old ≡ None → IfSome (D.start disk.new) (λ s. s.faults ≤ D.faults disk.new) }
    ensures keeps { Keeps D.attached D.tells D.names D.found disk.old disk.new }
    ensures faults { D.faults disk.old ≤ D.faults disk.new }
    ensures errors { IfErr result (λ e. (e ≡ JournalError.Disk) ⊎ (e ≡ JournalError.OutOfMemory)) }
    ensures disk { IsErrOf result JournalError.Disk → Rose (D.faults disk.old) (D.faults disk.new) }
{
    disk.sync()?;
    let len = disk.len()? as usize;
    let mut bytes = Vec::new(alloc);
    bytes.resize(len, 0)?;
    disk.read_at(0, &mut bytes)?;
    Ok(bytes)
}

/// Syncs, and tells whether the file begins with a closed gate: `true` if it has two bytes or more and the first is 0, `false` if it has
/// 0 or 1 bytes. The error is `Exists` if it has two or more and the first is not 0.
pub(crate) fn probe<D: Disk>(disk: &mut D) -> Result<bool, JournalError>
    requires { IsTrue (D.attached disk.old) }
    ensures file { IfOk result (λ gate. IsTrue (D.tells disk.old) → IsProbed gate (D.seen disk.old)) }
    ensures exists { IsErrOf result JournalError.Exists → IsTrue (D.tells disk.old) → (2 ≤ length (D.seen disk.old)) × ¬ (get_or (D.seen disk.old) 0 0 ≡ 0) }
    ensures durable { OnOk result (IsTrue (D.tells disk.old) → Only (D.seen disk.new) (D.may_leave disk.new)) }
    ensures seen { D.seen disk.new ≡ D.seen disk.old }
    ensures any_moment { IsTrue (D.tells disk.old) → LeavesOnly D.moment D.left_since disk.old disk.new (λ c. D.may_leave disk.old c ⊎ (c ≡ D.seen disk.old)) }
    ensures start { IsTrue (D.tells disk.old) → D.start disk.old ≡ None → AtFirstSync (D.start disk.new) (D.seen disk.old) (D.seen disk.new)
        (λ s. BeganAt D.moment D.left_since s disk.new (D.seen disk.old)) }
    ensures began { OnOk result (D.start disk.old ≡ None → IsSome (D.start disk.new)) }
    ensures counted { D.start disk.old ≡ None → IfSome (D.start disk.new) (λ s. s.faults ≤ D.faults disk.new) }
    ensures began_exists { IsErrOf result JournalError.Exists → D.start disk.old ≡ None → IsSome (D.start disk.new) }
    ensures keeps { Keeps D.attached D.tells D.names D.found disk.old disk.new }
    ensures faults { D.faults disk.old ≤ D.faults disk.new }
    ensures disk { IsErrOf result JournalError.Disk → Rose (D.faults disk.old) (D.faults disk.new) }
    ensures errors { IfErr result KeepsFromBeginning }
{
    disk.sync()?;
    if disk.len()? < 2 {
        return Ok(false);
    }
    let mut first = [0u8];
    disk.read_at(0, &mut first)?;
    if first[0] != CLOSED_GATE {
        return Err(JournalError::Exists);
    }
    Ok(true)
}
