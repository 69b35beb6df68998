use dp_model::Sub;

/// What a round makes of a subproblem.
#[derive(Drop)]
pub struct Branched {
    /// The threshold of the diagram that the children come from.
    pub threshold: Option<i64>,
    /// The children, which may take the place of the subproblem.
    pub children: Vec<Sub>,
    /// Whether the relaxed diagram of the subproblem lies on the desk whole, with its children.
    pub on_desk: bool,
}
