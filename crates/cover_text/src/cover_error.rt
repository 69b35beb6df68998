ghost use Rattle.std.specs.Prelude.{◌≡◌};
ghost use Rattle.cover_text.specs.declared.cover_error.CoverError.TheVariants.{Text, OutOfMemory};

use std::alloc::{AllocError, AllocFailed};
use tokens::{Place, TextError};

/// Why the text of a cover could not be read.
#[derive(Clone, Copy, Debug, PartialEq, Eq)]
pub enum CoverError {
    /// A token that could not be read, or is left after the cover.
    Text(TextError),
    /// A word is none of those that may stand there, or a row's line ends too early and this is the next one.
    Word(Place),
    /// There was no memory for the cover.
    OutOfMemory,
}

impl From<TextError> for CoverError {
    ghost from_gives = { λ e made. made ≡ Text e };

    fn from(e: TextError) -> CoverError {
        CoverError::Text(e)
    }
}

impl From<AllocError> for CoverError {
    ghost from_gives = { λ _ made. made ≡ OutOfMemory };

    fn from(_e: AllocError) -> CoverError {
        CoverError::OutOfMemory
    }
}

impl<T: Drop> From<AllocFailed<T>> for CoverError {
    ghost from_gives = { λ _ made. made ≡ OutOfMemory };

    fn from(_e: AllocFailed<T>) -> CoverError {
        CoverError::OutOfMemory
    }
}
