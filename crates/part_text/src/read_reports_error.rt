ghost use Rattle.std.specs.Prelude.{◌≡◌};
ghost use Rattle.tokens.specs.Grammar.{of_text};
ghost use Rattle.part_text.specs.declared.read_reports_error.ReadReportsError.TheVariants.{Text, OutOfMemory};

use std::alloc::{AllocError, AllocFailed};
use tokens::{InstanceError, TextError};

/// Why reports could not be read from a text.
#[derive(Clone, Copy, Debug, PartialEq, Eq)]
pub enum ReadReportsError {
    /// The text spells no reports.
    Text(InstanceError),
    /// There was no memory for the reports.
    OutOfMemory,
}

impl From<TextError> for ReadReportsError {
    ghost from_gives = { λ e made. made ≡ Text (of_text e) };

    fn from(e: TextError) -> ReadReportsError {
        ReadReportsError::Text(InstanceError::from(e))
    }
}

impl From<AllocError> for ReadReportsError {
    ghost from_gives = { λ _ made. made ≡ OutOfMemory };

    fn from(_e: AllocError) -> ReadReportsError {
        ReadReportsError::OutOfMemory
    }
}

impl<T: Drop> From<AllocFailed<T>> for ReadReportsError {
    ghost from_gives = { λ _ made. made ≡ OutOfMemory };

    fn from(_e: AllocFailed<T>) -> ReadReportsError {
        ReadReportsError::OutOfMemory
    }
}
