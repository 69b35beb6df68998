//! What a book tells of its pages.

use board_laws::Fate;
use bound_cover::CoverArc;

/// Where a child's node stands in its diagram. Places are ordered by depth first.
#[derive(Clone, Copy, Debug, PartialEq, Eq, PartialOrd, Ord, Hash)]
pub struct Place {
    /// The depth of its layer.
    pub depth: usize,
    /// Its place in the layer.
    pub node: usize,
}

/// Whether a diagram was put into a book.
#[derive(Clone, Copy, Debug, PartialEq, Eq, Hash)]
pub enum Collected {
    /// It is the book's last page.
    Kept,
    /// The book's limit has no room for it.
    Left,
}

/// What a page tells of its diagram beside the nodes.
#[derive(Clone, Copy, Debug, PartialEq, Eq, Hash)]
pub struct PageHead {
    /// The ticket of the subproblem.
    pub ticket: u64,
    /// The depth of the first layer.
    pub first: usize,
    /// The least depth that was reduced.
    pub first_reduced: Option<usize>,
}

/// A node of a page.
#[derive(Clone, Copy, Debug)]
pub struct PageNode<'b> {
    /// Its state.
    pub row: &'b [i64],
    /// The greatest length of a path to it.
    pub value: i64,
    /// The greatest length of a path from it to the last layer, or none where there is no such path.
    pub suffix: Option<i64>,
    /// Whether it stands for one state exactly.
    pub exact: bool,
    /// Its arcs by decision. A target is a place in the next layer; there is none where the arc was struck.
    pub arcs: &'b [CoverArc],
}

/// A child of a page.
#[derive(Clone, Copy, Debug)]
pub struct PageChild<'b> {
    /// Where its node stands.
    pub place: Place,
    /// Its decisions from the root.
    pub decisions: &'b [u32],
    /// What became of it.
    pub fate: Fate,
}
