//! Why a worker stops.

use kept_board::KeptError;

/// Why a worker that had something out does no more rounds.
#[derive(Clone, Copy, Debug, PartialEq, Eq)]
pub enum Stopped {
    /// It found the search halted for the journal, and gave back in that holding.
    GaveBack,
    /// A step was refused, and what it had out is out still.
    Refused(KeptError),
}
