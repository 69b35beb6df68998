/// How a search is run.
#[derive(Clone, Copy, Debug, PartialEq, Eq, Hash)]
pub struct Settings {
    /// How many workers there are, from 1 to 16.
    pub workers: u32,
    /// How many subproblems may be taken.
    pub budget: u64,
    /// How many entries the dominance table may hold.
    pub table_limit: u32,
    /// The width of the decision diagrams, at least 1.
    pub width: u32,
    /// How far the best solution may lie above the incumbent at the end, from 0 to 2^50.
    pub within: i64,
}
