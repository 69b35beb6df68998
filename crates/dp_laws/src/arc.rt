/// An arc of a diagram: a decision, the place of the node that it leads to in the next layer, and what it gains.
#[derive(Clone, Copy, Debug, PartialEq, Eq)]
pub struct DdArc {
    /// The decision.
    pub decision: u32,
    /// The place of its target in the next layer; none where the node was struck.
    pub target: Option<u32>,
    /// What the decision adds to the value.
    pub gain: i64,
    /// By how much the arc is lengthened, since its target covers the state that it makes only within a gap.
    pub longer: i64,
}
