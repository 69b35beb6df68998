use crate::values::{PairValues, UnitValues};

/// Variables of two values, and what they give.
#[derive(Drop)]
pub struct PairInstance {
    /// What is given in any case.
    pub constant: i64,
    /// How many values the first variable may take: 1, which is 0 alone, or 2.
    pub first: u32,
    /// What each variable gives.
    pub units: Vec<UnitValues>,
    /// What each two variables give, by the first, then by the second.
    pub pairs: Vec<PairValues>,
}
