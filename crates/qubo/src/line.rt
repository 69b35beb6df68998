/// A line of an instance: what is added where both of its variables are 1.
#[derive(Clone, Copy, Debug, PartialEq, Eq)]
pub struct Line {
    /// The first variable, counted from 0.
    pub first: u32,
    /// The second variable, which is the first one or a later one.
    pub second: u32,
    /// The weight, at most 250,000,000 in size.
    pub weight: i64,
}
