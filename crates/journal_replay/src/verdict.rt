/// What is found of a record where it stands.
#[derive(Clone, Copy, Debug, PartialEq, Eq)]
pub enum Verdict {
    /// It may follow.
    Accepted,
    /// The decisions of an improvement, or of the best solution of a snapshot, are no feasible solution.
    NoSolution,
    /// It may not follow for another reason.
    Malformed,
}
