ghost use Rattle.std.specs.Prelude.{◌≡◌};
ghost use Rattle.tokens.specs.Grammar.{of_text};
ghost use Rattle.tokens.specs.declared.read_model_error.ReadModelError.TheVariants.{Text, OutOfMemory};

use crate::instance_error::InstanceError;
use crate::text_error::TextError;
use std::alloc::{AllocError, AllocFailed};

/// Why a problem could not be read from a text.
#[derive(Clone, Copy, Debug, PartialEq, Eq)]
pub enum ReadModelError {
    /// The text is no instance.
    Text(InstanceError),
    /// There was no memory for the problem.
    OutOfMemory,
}

impl From<InstanceError> for ReadModelError {
    ghost from_gives = { λ e made. made ≡ Text e };

    fn from(e: InstanceError) -> ReadModelError {
        ReadModelError::Text(e)
    }
}

impl From<TextError> for ReadModelError {
    ghost from_gives = { λ e made. made ≡ Text (of_text e) };

    fn from(e: TextError) -> ReadModelError {
        ReadModelError::Text(InstanceError::from(e))
    }
}

impl From<AllocError> for ReadModelError {
    ghost from_gives = { λ _ made. made ≡ OutOfMemory };

    fn from(_e: AllocError) -> ReadModelError {
        ReadModelError::OutOfMemory
    }
}

impl<T: Drop> From<AllocFailed<T>> for ReadModelError {
    ghost from_gives = { λ _ made. made ≡ OutOfMemory };

    fn from(_e: AllocFailed<T>) -> ReadModelError {
        ReadModelError::OutOfMemory
    }
}
