/// What `Fringe::same` tells of the open subproblem with a depth and a state.
#[derive(Clone, Copy, Debug, PartialEq, Eq)]
pub struct Same {
    /// Its ticket.
    pub ticket: u64,
    /// Its value.
    pub value: i64,
}
