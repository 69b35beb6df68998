/// The answer to a push.
#[derive(Clone, Copy, Debug, PartialEq, Eq, Hash)]
pub enum FringeFate {
    /// The open subproblem of its depth and state has no less value: the new one is dropped. `by` is the ticket of the open one.
    Kept { by: u64 },
    /// The open subproblem of its depth and state had less value: it is dropped, and the new one is open. `old` is the ticket of the
    /// dropped one.
    Replaced { old: u64 },
    /// The new subproblem is open, and no other has its depth and state.
    Entered,
}
