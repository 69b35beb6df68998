use crate::cause::Cause;

/// The answer to a worker that asks for a subproblem.
#[derive(Clone, Copy, Debug, PartialEq, Eq, Hash)]
pub enum Taken {
    /// The worker got one.
    Sub,
    /// Nothing is open, but other workers have subproblems out.
    WaitForOthers,
    /// Nothing is open or out.
    Finished,
    /// The search is halted.
    Halted(Cause),
}
