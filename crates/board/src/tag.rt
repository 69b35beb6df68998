use crate::first::FirstBoard;
use board_laws::Settings;
use std::collections::LinkedList;

/// What no step changes: the instance's numbers, the settings and the first board, as plain data. Contracts alone use it; no
/// value of it is made.
pub struct BoardTag {
    /// The numbers of the instance.
    pub numbers: LinkedList<i64>,
    /// The settings of the search.
    pub settings: Settings,
    /// The first board.
    pub first: FirstBoard,
}
