ghost use Rattle.std.specs.Prelude.{◌≡◌};
ghost use Rattle.journal_file.specs.declared.append_error.AppendError.{AppendError};
ghost use Rattle.kept_board.specs.declared.error.KeptError.TheVariants.{OutOfMemory};
ghost use Rattle.kept_board.specs.Failing.{error_of};

use journal_file::AppendError;
use std::alloc::{AllocError, AllocFailed};

/// Why a step was not made.
#[derive(Clone, Copy, Debug, PartialEq, Eq)]
pub enum KeptError {
    /// A call of the disk failed. The board is halted for that, and nothing more is written.
    Journal,
    /// Nothing was written, and the board is as it was.
    OutOfMemory,
}

impl From<AllocError> for KeptError {
    ghost from_gives = { λ _ e. e ≡ OutOfMemory };

    fn from(_: AllocError) -> Self {
        KeptError::OutOfMemory
    }
}

impl<T: Drop> From<AllocFailed<T>> for KeptError {
    ghost from_gives = { λ _ e. e ≡ OutOfMemory };

    fn from(_: AllocFailed<T>) -> Self {
        KeptError::OutOfMemory
    }
}

impl From<AppendError> for KeptError {
    ghost from_gives = { λ error e. e ≡ error_of error };

    fn from(error: AppendError) -> Self {
        match error {
            AppendError::Disk => KeptError::Journal,
            AppendError::OutOfMemory => KeptError::OutOfMemory,
        }
    }
}
