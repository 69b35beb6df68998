ghost use Rattle.std.specs.Prelude.{◌≡◌};
ghost use Rattle.cover_join.specs.declared.join_error.JoinError.TheVariants.{OutOfMemory};

use bound_cover::Why;
use std::alloc::{AllocError, AllocFailed};

/// Why texts of parts are not joined. Places and numbers count from 0.
#[derive(Clone, Copy, Debug, PartialEq, Eq)]
pub enum JoinError {
    /// The text at this place is not of the part with this number, of as many parts as the first text tells, with the distance 0; or there is
    /// none at this place, or it is one too many.
    Order { index: u32 },
    /// The text at this place has another problem or another instance than the first one.
    Instance { index: u32 },
    /// The check of the part with this number refuses its text.
    Refused { index: u32, why: Why },
    /// There was no memory, or the joined cover has no room: a layer with 2^32 or more rows, or a bound that is no number of 64 bits.
    OutOfMemory,
}

impl From<AllocError> for JoinError {
    ghost from_gives = { λ _ made. made ≡ OutOfMemory };

    fn from(_e: AllocError) -> JoinError {
        JoinError::OutOfMemory
    }
}

impl<T: Drop> From<AllocFailed<T>> for JoinError {
    ghost from_gives = { λ _ made. made ≡ OutOfMemory };

    fn from(_e: AllocFailed<T>) -> JoinError {
        JoinError::OutOfMemory
    }
}
