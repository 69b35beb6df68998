/// The first line of a text.
#[derive(Clone, Copy)]
pub(crate) struct Header {
    /// The number of variables.
    pub(crate) variables: usize,
    /// The number of clauses that follow.
    pub(crate) clauses: u64,
    /// What stands before the literals of a clause.
    pub(crate) form: Form,
}

/// Whether clauses have weights.
#[derive(Clone, Copy)]
pub(crate) enum Form {
    /// Each clause weighs 1.
    Plain,
    /// A weight stands before the literals. A clause that weighs at least the top, where one is given, is hard.
    Weighted(Option<i64>),
}
