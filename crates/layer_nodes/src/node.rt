ghost use Rattle.std.specs.Prelude.{◌≡◌, ◌≤◌, length, drop, None};

use crate::packed::{PackedLength, PackedPlace};
use layer_candidates::HasRow;

/// A node of a layer. Its row stands in a region, and its arcs lie in those of the layer; its kept path is that of its parent, a
/// node of the layer above, with its decision.
#[derive(Clone, Copy, Debug)]
pub struct Node {
    /// The greatest length of a path to it.
    pub value: i64,
    /// The rank of its state in the layer.
    pub rank: i64,
    /// The hash of its state in the layer.
    pub hash: u64,
    /// The greatest length of a path from it to the last layer, once it is known.
    pub suffix: PackedLength,
    /// The place of its parent in the layer above; a merged node and the first one of all have none.
    pub parent: PackedPlace,
    /// The place of its row in the region.
    pub row: u32,
    /// The decision that leads to it from its parent.
    pub decision: u32,
    /// The place of its first arc.
    pub first_arc: u32,
    /// How many arcs it has.
    pub arcs: u32,
    /// Whether it stands for one state exactly.
    pub exact: bool,
}

// A layer has thousands of nodes.
const _: () = prove!(size_of::<Node>() == 56);

impl HasRow for Node {
    ghost place = { λ node. node.row };

    fn row(&self) -> u32 {
        self.row
    }
}

/// A node without parent and arcs, whose row stands at the place.
pub fn lone_node(place: u32, value: i64, rank: i64, hash: u64, exact: bool) -> Node
    ensures { result ≡ record { value = value; rank = rank; hash = hash; suffix = None; parent = None; row = place; decision = 0; first_arc = 0; arcs = 0; exact = exact } }
{
    Node {
        value,
        rank,
        hash,
        suffix: PackedLength::of(None),
        parent: PackedPlace::of(None),
        row: place,
        decision: 0,
        first_arc: 0,
        arcs: 0,
        exact,
    }
}

/// The nodes from the place on.
pub fn nodes_from(nodes: &[Node], first: usize) -> &[Node]
    requires { first ≤ length nodes.now }
    ensures { result.now ≡ drop first nodes.now }
{
    &nodes[first..]
}
