ghost use Rattle.std.specs.Prelude.{◌≡◌};
ghost use Rattle.part_reports.specs.declared.fault.ReportFault.TheVariants.{OutOfMemory};

use std::alloc::{AllocError, AllocFailed};

/// Why reports are not joined: the first one that is refused, by its place from 0 on.
#[derive(Clone, Copy, Debug, PartialEq, Eq)]
pub enum ReportFault {
    /// It is not of the part with the number of its place, of as many parts as there are reports.
    Part { place: usize },
    /// It is of a part of another journal.
    Journal { place: usize },
    /// Its decisions are no feasible solution with its value.
    Value { place: usize },
    OutOfMemory,
}

impl From<AllocError> for ReportFault {
    ghost from_gives = { λ _ made. made ≡ OutOfMemory };

    fn from(_e: AllocError) -> ReportFault {
        ReportFault::OutOfMemory
    }
}

impl<T: Drop> From<AllocFailed<T>> for ReportFault {
    ghost from_gives = { λ _ made. made ≡ OutOfMemory };

    fn from(_e: AllocFailed<T>) -> ReportFault {
        ReportFault::OutOfMemory
    }
}
