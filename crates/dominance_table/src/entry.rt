/// What a table keeps of a state besides its row.
#[derive(Clone, Copy, Debug)]
pub struct Entry {
    /// The depth of the state.
    pub depth: usize,
    /// The bucket of the state in the model.
    pub bucket: u64,
    /// The rank of the state in the model.
    pub rank: i64,
    /// The value that the state was reached with.
    pub value: i64,
    /// The ticket of the subproblem that reached it.
    pub ticket: u64,
}
