/// The prefix at which a beam starts, with its state and its value.
#[derive(Clone, Copy, Debug)]
pub struct Start<'s> {
    /// The decisions of the prefix.
    pub prefix: &'s [u32],
    /// The state of the prefix.
    pub row: &'s [i64],
    /// The value of the prefix.
    pub value: i64,
}
