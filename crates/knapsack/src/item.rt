/// An item of a knapsack.
#[derive(Clone, Copy, Debug, PartialEq, Eq)]
pub struct Item {
    /// The profit of one copy, at most 10^9.
    pub profit: u32,
    /// The weight of one copy, at most 10^9.
    pub weight: u32,
    /// The number of copies, at most 1,000.
    pub copies: u32,
}
