/// What the clauses with one literal on a variable weigh.
#[derive(Clone, Copy)]
pub(crate) struct UnitWeights {
    /// The clauses whose literal is positive.
    pub(crate) positive: i64,
    /// The clauses whose literal is negative.
    pub(crate) negative: i64,
}

impl UnitWeights {
    /// No clause.
    pub(crate) const NONE: UnitWeights = UnitWeights {
        positive: 0,
        negative: 0,
    };
}

/// What the clauses on two different variables weigh, by which of the two literals are positive.
#[derive(Clone, Copy)]
pub(crate) struct PairWeights {
    /// Both literals are positive.
    pub(crate) both: i64,
    /// Only the literal of the first variable is positive.
    pub(crate) first: i64,
    /// Only the literal of the second variable is positive.
    pub(crate) second: i64,
    /// Neither literal is positive.
    pub(crate) neither: i64,
}

impl PairWeights {
    /// No clause.
    pub(crate) const NONE: PairWeights = PairWeights {
        both: 0,
        first: 0,
        second: 0,
        neither: 0,
    };
}
