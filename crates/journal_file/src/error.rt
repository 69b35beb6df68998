ghost use Rattle.std.specs.Prelude.{◌≡◌};
ghost use Rattle.journal_file.specs.declared.error.JournalError.TheVariants.{Disk, OutOfMemory};
ghost use Rattle.journal_file.specs.Refusing.{error_of, error_of_append};

use crate::AppendError;
use disk::DiskFailed;
use journal_bytes::Refusal;
use std::alloc::AllocError;

/// Why a journal is not begun, opened or replayed: the first cause.
#[derive(Clone, Copy, Debug, PartialEq, Eq)]
pub enum JournalError {
    /// A call of the disk failed.
    Disk,
    /// The file has 0 or 1 bytes, or its first gate is closed.
    NotBegun,
    /// A journal was to begin in a file that has two or more bytes, of which the first is not 0.
    Exists,
    /// After the open gate at `offset` the file ends before the next gate, or the digest differs.
    Damaged { offset: u64 },
    /// The record at `offset` is whole, and its kind, its body or what it says is wrong there.
    Malformed { offset: u64 },
    /// The head is of another version.
    Version { found: u32 },
    /// The decisions of the improvement at `offset` are no feasible solution.
    NoSolution { offset: u64 },
    OutOfMemory,
}

impl From<AllocError> for JournalError {
    ghost from_gives = { λ _ e. e ≡ OutOfMemory };

    fn from(_: AllocError) -> Self {
        JournalError::OutOfMemory
    }
}

impl From<DiskFailed> for JournalError {
    ghost from_gives = { λ _ e. e ≡ Disk };

    fn from(_: DiskFailed) -> Self {
        JournalError::Disk
    }
}

impl From<AppendError> for JournalError {
    ghost from_gives = { λ error e. e ≡ error_of_append error };

    fn from(error: AppendError) -> Self {
        match error {
            AppendError::Disk => JournalError::Disk,
            AppendError::OutOfMemory => JournalError::OutOfMemory,
        }
    }
}

impl From<Refusal> for JournalError {
    ghost from_gives = { λ refusal e. e ≡ error_of refusal };

    fn from(refusal: Refusal) -> Self {
        match refusal {
            Refusal::NotBegun => JournalError::NotBegun,
            Refusal::Damaged { offset } => JournalError::Damaged { offset },
            Refusal::Malformed { offset } => JournalError::Malformed { offset },
            Refusal::Version { found } => JournalError::Version { found },
            Refusal::OutOfMemory => JournalError::OutOfMemory,
        }
    }
}
