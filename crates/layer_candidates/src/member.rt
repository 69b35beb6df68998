use crate::holding::HasRow;

/// A member of a layer: a prefix by its last step, with its state and value.
#[derive(Clone, Copy, Debug)]
pub struct Member {
    /// The value of the prefix.
    pub value: i64,
    /// The rank of the state in its layer.
    pub rank: i64,
    /// The hash of the state in its layer.
    pub hash: u64,
    /// The place of the state's row.
    pub row: u32,
    /// The step by which the prefix is reached.
    pub step: u32,
}

impl HasRow for Member {
    ghost place = { λ member. member.row };

    fn row(&self) -> u32 {
        self.row
    }
}
