/// A way to a state of the next layer: the step of a node of the layer above and an allowed decision, with what they make.
#[derive(Clone, Copy, Debug)]
pub struct Way {
    /// The parent's value and the decision's gain.
    pub value: i64,
    /// The rank of the state in its layer.
    pub rank: i64,
    /// The hash of the state in its layer.
    pub hash: u64,
    /// The place of the state's row.
    pub row: u32,
    /// The step by which the parent is reached.
    pub parent: u32,
    /// The decision.
    pub decision: u32,
}
