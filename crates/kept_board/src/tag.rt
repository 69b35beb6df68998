use board::BoardTag;

/// What no step changes: what no step of the board changes, and where there is a journal its disk as it was when the board was
/// made. No value of it is made.
pub struct KeptTag<D> {
    pub board: BoardTag,
    pub made: Option<D>,
}
