/// The exact nodes of a relaxed diagram that become the children of its subproblem.
#[derive(Clone, Copy, Debug, PartialEq, Eq, Hash)]
pub enum CutKind {
    /// The nodes of the last layer above the first reduced one.
    LastExactLayer,
    /// The exact nodes that have an arc to an inexact node.
    Frontier,
}
