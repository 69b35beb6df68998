/// A variable, or its negation.
#[derive(Clone, Copy)]
pub(crate) struct Literal {
    pub(crate) variable: usize,
    pub(crate) positive: bool,
}

/// The literals of a clause, as they were written.
#[derive(Clone, Copy)]
pub(crate) enum Literals {
    /// None, so the clause is never satisfied.
    Empty,
    /// One literal.
    One(Literal),
    /// Two literals: perhaps the same one twice, or a literal and its negation.
    Two(Literal, Literal),
}
