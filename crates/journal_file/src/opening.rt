ghost use Rattle.std.specs.Prelude.{◌≡◌, ◌⊎◌, ◌≤◌, ◌<◌, ◌-◌, ◌^◌, length, None, IsSome, IfSome, IsTrue, IfOk, OnOk, IfErr, IsErrOf};
ghost use Rattle.disk.specs.Counts.{Rose};
ghost use Rattle.disk.specs.Disk.{AtFirstSync, Only, Keeps, LeavesOnly};
ghost use Rattle.journal_file.specs.Beginning.{BeganAt};
ghost use Rattle.journal_file.specs.Refusing.{WasOpened, IsRefusal};
ghost use Rattle.journal_file.specs.Settled.{IsOpen};

use crate::JournalError;
use crate::steps::fetch;
use disk::Disk;
use journal_bytes::{Head, Records, Tail, read_journal};
use std::alloc::Global;

/// Opens a journal: syncs, reads its head and records, and finds where it goes on. It writes nothing.
///
/// # Errors
///
/// `Disk` only where a call of the disk failed. `NotBegun`, `Damaged`, `Malformed` and `Version` exactly where they say, for
/// the bytes that were read and the first record of which one is true. No other but `OutOfMemory`.
pub fn reopen<D: Disk>(alloc: Global, disk: &mut D) -> Result<(Head, Records, Tail), JournalError>
    requires { IsTrue (D.attached disk.old) }

    // What is read, or the first cause for which it is refused. A text is as short as a reader of instances wants it.
    ensures exact { WasOpened (D.tells disk.old) (D.seen disk.old) result }
    ensures text { IfOk result (λ r. length r.0.text.items < 2 ^ 32 - 1) }
    ensures within { IfOk result (λ r. r.1.within ≡ r.0.within) }

    // A record may be added.
    ensures ready { IfOk result (λ r. IsTrue (D.tells disk.old) →
        IsOpen (D.seen disk.new) (D.may_leave disk.new) r.2) }
    ensures seen { D.seen disk.new ≡ D.seen disk.old }
    ensures durable { OnOk result (IsTrue (D.tells disk.old) → Only (D.seen disk.new) (D.may_leave disk.new)) }

    // A crash at any moment leaves what it would have left before, or what was read.
    ensures any_moment { IsTrue (D.tells disk.old) → LeavesOnly D.moment D.left_since disk.old disk.new
        (λ c. D.may_leave disk.old c ⊎ (c ≡ D.seen disk.old)) }

    // From its sync on a crash leaves what was read. Where bytes were read, accepted or refused, the sync was done.
    ensures start { IsTrue (D.tells disk.old) → D.start disk.old ≡ None →
        AtFirstSync (D.start disk.new) (D.seen disk.old) (D.seen disk.new)
        (λ s. BeganAt D.moment D.left_since s disk.new (D.seen disk.old)) }
    ensures began { OnOk result (D.start disk.old ≡ None → IsSome (D.start disk.new)) }
    ensures counted { D.start disk.old ≡ None → IfSome (D.start disk.new) (λ s. s.faults ≤ D.faults disk.new) }
    ensures began_refused { IfErr result (λ e. IsRefusal e → D.start disk.old ≡ None → IsSome (D.start disk.new)) }
    ensures disk { IsErrOf result JournalError.Disk → Rose (D.faults disk.old) (D.faults disk.new) }
    ensures faults { D.faults disk.old ≤ D.faults disk.new }
    ensures keeps { Keeps D.attached D.tells D.names D.found disk.old disk.new }
{
    let file = fetch(alloc, disk)?;
    let journal = read_journal(alloc, &file)?;
    Ok(journal)
}
