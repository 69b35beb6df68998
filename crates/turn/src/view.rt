//! The data of proofs: the key of a turn's table, and what each seat knows.
use std::collections::LinkedList;
use std::snapshot::Snapshot;

/// What never changes of a turn.
pub struct TurnKey<V> {
    /// The value that the turn was made with.
    pub first: Snapshot<V>,
    /// How many seats the turn has.
    pub seats: u64,
}

impl<V> Drop for TurnKey<V> {
    fn drop(self) {
        let Self { first: _, seats: _ } = self;
    }
}

/// What a seat knows. Only proofs use it: no value of it is made.
pub struct SeatView<V> {
    /// The value that the turn was made with, or `None` after the seat was joined to another.
    pub first: Option<V>,
    /// The number of the seat, from 0 on.
    pub number: u64,
    /// How many seats it stands for.
    pub parts: u64,
    /// Whether it is the newest seat, from which the next one is split.
    pub last: bool,
    /// The seats that were joined to it: the number of each, and the decisions that it had out.
    pub also: LinkedList<(u64, Option<LinkedList<u32>>)>,
    /// The seen number of the value that it left last, or `None` before its first leave.
    pub seen: Option<i64>,
    /// The decisions that it had out at that leave.
    pub out: Option<LinkedList<u32>>,
    /// Whether it holds the turn.
    pub holds: bool,
    /// The value that it had last. While it holds the turn, this is the value that it found; afterwards, the value that it left.
    pub had: Option<V>,
}
