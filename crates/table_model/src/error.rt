ghost use Rattle.std.specs.Prelude.{◌≡◌};

use problem_theory::{InstanceRefusal, ReadInstanceError};
use std::alloc::{AllocError, AllocFailed};
use table_refusal::TableError;

/// Why no table was read.
#[derive(Clone, Copy, Debug, PartialEq, Eq)]
pub enum ReadTableError {
    /// The document is no table, for this reason.
    Refused(TableError),
    /// There was no memory for it.
    OutOfMemory,
}

impl From<AllocError> for ReadTableError {
    ghost use Rattle.table_model.specs.declared.error.ReadTableError.TheVariants.{OutOfMemory};

    ghost from_gives = { λ _ e. e ≡ OutOfMemory };

    fn from(_error: AllocError) -> ReadTableError {
        ReadTableError::OutOfMemory
    }
}

impl<T: Drop> From<AllocFailed<T>> for ReadTableError {
    ghost use Rattle.table_model.specs.declared.error.ReadTableError.TheVariants.{OutOfMemory};

    ghost from_gives = { λ _ e. e ≡ OutOfMemory };

    fn from(_failed: AllocFailed<T>) -> ReadTableError {
        ReadTableError::OutOfMemory
    }
}

impl From<ReadTableError> for ReadInstanceError {
    ghost use Rattle.table_model.specs.Theory.{of_table};

    ghost from_gives = { λ e made. made ≡ of_table e };

    fn from(e: ReadTableError) -> ReadInstanceError {
        match e {
            ReadTableError::Refused(error) => {
                ReadInstanceError::Refused(InstanceRefusal::Table(error))
            }
            ReadTableError::OutOfMemory => ReadInstanceError::OutOfMemory,
        }
    }
}
