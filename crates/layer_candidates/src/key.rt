use crate::holding::HasRow;

/// By what a way is put into the reduction order.
#[derive(Clone, Copy, Debug)]
pub struct Key {
    /// The value of the way.
    pub value: i64,
    /// The rank of its state.
    pub rank: i64,
    /// Its place.
    pub place: u32,
    /// The place of its state's row.
    pub row: u32,
}

impl HasRow for Key {
    ghost place = { λ key. key.row };

    fn row(&self) -> u32 {
        self.row
    }
}
