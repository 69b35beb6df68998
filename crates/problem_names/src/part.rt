//! Which part of a problem is meant.

/// How many parts a problem has at most.
pub const MOST_PARTS: u32 = 1024;

/// A part of a whole, by its number. Of a problem it has the solutions whose first decision leaves the remainder `index` when it is divided by `of`;
/// of a stopped search, the open subproblems that are dealt to it.
#[derive(Clone, Copy, Debug, PartialEq, Eq)]
pub struct PartNumber {
    /// The number of the part, below `of`.
    pub index: u32,
    /// How many parts there are, from 1 to `MOST_PARTS`.
    pub of: u32,
}
