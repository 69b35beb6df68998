ghost use Rattle.std.specs.Prelude.{◌≡◌};
ghost use Rattle.journal_file.specs.declared.append_error.AppendError.TheVariants.{Disk, OutOfMemory};

use disk::DiskFailed;
use std::alloc::AllocError;

/// Why a record was not added.
#[derive(Clone, Copy, Debug, PartialEq, Eq)]
pub enum AppendError {
    /// A call of the disk failed: the file may hold the record or not, and must be opened again before another is added.
    Disk,
    /// Nothing was written.
    OutOfMemory,
}

impl From<AllocError> for AppendError {
    ghost from_gives = { λ _ e. e ≡ OutOfMemory };

    fn from(_: AllocError) -> Self {
        AppendError::OutOfMemory
    }
}

impl From<DiskFailed> for AppendError {
    ghost from_gives = { λ _ e. e ≡ Disk };

    fn from(_: DiskFailed) -> Self {
        AppendError::Disk
    }
}
