/// The answer to an offered solution.
#[derive(Clone, Copy, Debug, PartialEq, Eq, Hash)]
pub enum Improved {
    /// It is the incumbent now.
    Yes,
    /// Its value is at most the incumbent's.
    NotBetter,
    /// The decisions are no feasible solution.
    NoSolution,
}
