ghost use Rattle.std.specs.Prelude.{◌≡◌};
ghost use Rattle.problem_theory.specs.Theory.{of_text};

use crate::refusal::InstanceRefusal;
use tokens::ReadModelError;

/// Why no instance was read.
#[derive(Clone, Copy, Debug, PartialEq, Eq)]
pub enum ReadInstanceError {
    /// The text spells no instance, for this reason.
    Refused(InstanceRefusal),
    /// There was no memory for the instance.
    OutOfMemory,
}

impl From<ReadModelError> for ReadInstanceError {
    ghost from_gives = { λ e made. made ≡ of_text e };

    fn from(e: ReadModelError) -> ReadInstanceError {
        match e {
            ReadModelError::Text(error) => ReadInstanceError::Refused(InstanceRefusal::Text(error)),
            ReadModelError::OutOfMemory => ReadInstanceError::OutOfMemory,
        }
    }
}
