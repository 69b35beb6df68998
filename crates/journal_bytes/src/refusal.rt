ghost use Rattle.std.specs.Prelude.{◌≡◌};
ghost use Rattle.journal_bytes.specs.declared.refusal.Refusal.TheVariants.{OutOfMemory};

use std::alloc::{AllocError, AllocFailed};

/// Why bytes are not read as a journal: the first cause.
#[derive(Clone, Copy, Debug, PartialEq, Eq)]
pub enum Refusal {
    /// There are 0 or 1 bytes, or the first gate is closed.
    NotBegun,
    /// After the open gate at `offset` the bytes end before the next gate, or the digest differs.
    Damaged { offset: u64 },
    /// The digest of the record at `offset` is right; its kind or its body is none of the grammar's, or it is the first and no
    /// head, or a later one and a head.
    Malformed { offset: u64 },
    /// The head is of another version.
    Version { found: u32 },
    OutOfMemory,
}

impl From<AllocError> for Refusal {
    ghost from_gives = { λ _ e. e ≡ OutOfMemory };

    fn from(_: AllocError) -> Self {
        Refusal::OutOfMemory
    }
}

impl<T: Drop> From<AllocFailed<T>> for Refusal {
    ghost from_gives = { λ _ e. e ≡ OutOfMemory };

    fn from(_: AllocFailed<T>) -> Self {
        Refusal::OutOfMemory
    }
}
