ghost use Rattle.std.specs.Prelude.{◌≡◌};
ghost use Rattle.part_files.specs.declared.error.PartError.TheVariants.{OutOfMemory};

use std::alloc::AllocError;

/// Why a part has no bytes.
#[derive(Clone, Copy, Debug, PartialEq, Eq)]
pub enum PartError {
    /// The body of the head or that of the record has `2^32` bytes or more.
    TooLarge,
    OutOfMemory,
}

impl From<AllocError> for PartError {
    ghost from_gives = { λ _ e. e ≡ OutOfMemory };

    fn from(_: AllocError) -> Self {
        PartError::OutOfMemory
    }
}
