ghost use Rattle.max_cut.specs.Graph.{IsGraph};

/// An instance of maximum cut: up to 1,024 vertices, and a weight of up to 500,000,000 in size for each
/// pair of them, 0 where no edge stands.
#[derive(Drop)]
pub struct MaxCut {
    pub(crate) vertices: usize,
    // The weights of the pairs, by the first vertex, then by the second.
    pub(crate) weights: Vec<i64>,
    ghost graph: { IsGraph (record { vertices = vertices; weights = weights.items }) },
}
