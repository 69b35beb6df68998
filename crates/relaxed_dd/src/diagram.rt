ghost use Rattle.std.specs.Prelude.{◌≡◌, ◌+◌, ◌-◌, ◌<◌, ◌≤◌, true, [], ◌∷◌, ◌++◌, Some, IsSome, length, take, slice_get, option_map, option_and_then};
ghost use Rattle.dp_laws.specs.Diagrams.Nodes.{node_at};

use dp_laws::DdArc;
use layer_build::Workspace;

/// A relaxed diagram, which lies in the workspace that it was compiled in. Its layers stand by depth, from that of the prefix
/// to the last one, and the nodes of a layer by their places.
#[derive(Clone, Copy, Debug)]
pub struct Diagram<'w> {
    pub(crate) space: &'w Workspace,
    ghost whole: { space.now.held ≡ length space.now.prefix },
}

impl<'w> Diagram<'w> {
    ghost use Rattle.relaxed_dd.specs.Shown.{layers_of, width_of, layer_in, last_of};

    /// The workspace that it lies in.
    pub fn space(&self) -> &Workspace
        ensures { result.now ≡ self.now.space.now }
    {
        self.space
    }

    /// The depth of the first layer: how many decisions the prefix has.
    pub fn first_depth(&self) -> usize
        ensures { result ≡ (layers_of self.now).first }
    {
        self.space.first_depth()
    }

    /// The depth of the last layer: how many variables there are.
    pub fn last_depth(&self) -> usize
        ensures { result ≡ last_of (layers_of self.now) }
    {
        self.space.last_depth()
    }

    /// The least depth of a layer that was reduced, or none where no layer was.
    pub fn first_reduced(&self) -> Option<usize>
        ensures { result ≡ (layers_of self.now).first_reduced }
    {
        self.space.first_reduced()
    }

    /// The width that it was compiled for.
    pub fn width(&self) -> usize
        ensures { result ≡ width_of self.now }
    {
        self.space.width()
    }

    /// How many nodes there are at the depth.
    pub fn nodes(&self, depth: usize) -> usize
        requires first { (layers_of self.now).first ≤ depth }
        requires last { depth ≤ last_of (layers_of self.now) }
        ensures { result ≡ length (layer_in (layers_of self.now) depth) }
    {
        self.space.nodes(depth)
    }

    /// The state of a node.
    pub fn row(&self, depth: usize, node: usize) -> &[i64]
        requires first { (layers_of self.now).first ≤ depth }
        requires place { IsSome (node_at (layers_of self.now) depth node) }
        ensures { option_map (λ n. n.row) (node_at (layers_of self.now) depth node) ≡ Some result.now }
    {
        self.space.row(depth, node)
    }

    /// The greatest length of a path to a node.
    pub fn value(&self, depth: usize, node: usize) -> i64
        requires first { (layers_of self.now).first ≤ depth }
        requires place { IsSome (node_at (layers_of self.now) depth node) }
        ensures { option_map (λ n. n.value) (node_at (layers_of self.now) depth node) ≡ Some result }
    {
        self.space.value(depth, node)
    }

    /// Whether a node stands for one state exactly.
    pub fn exact(&self, depth: usize, node: usize) -> bool
        requires first { (layers_of self.now).first ≤ depth }
        requires place { IsSome (node_at (layers_of self.now) depth node) }
        ensures { option_map (λ n. n.exact) (node_at (layers_of self.now) depth node) ≡ Some result }
    {
        self.space.exact(depth, node)
    }

    /// The greatest length of a path from a node to the last layer, or none where there is no such path.
    pub fn suffix(&self, depth: usize, node: usize) -> Option<i64>
        requires first { (layers_of self.now).first ≤ depth }
        requires place { IsSome (node_at (layers_of self.now) depth node) }
        ensures { option_map (λ n. n.suffix) (node_at (layers_of self.now) depth node) ≡ Some result }
    {
        self.space.suffix(depth, node)
    }

    /// How many arcs a node has.
    pub fn arcs(&self, depth: usize, node: usize) -> usize
        requires first { (layers_of self.now).first ≤ depth }
        requires place { IsSome (node_at (layers_of self.now) depth node) }
        ensures { option_map (λ n. length n.arcs) (node_at (layers_of self.now) depth node) ≡ Some result }
    {
        self.space.arcs(depth, node)
    }

    /// An arc of a node, by the place among its arcs, which stand by decision.
    pub fn arc(&self, depth: usize, node: usize, i: usize) -> DdArc
        requires first { (layers_of self.now).first ≤ depth }
        requires place { IsSome (option_and_then (λ n. slice_get n.arcs i) (node_at (layers_of self.now) depth node)) }
        ensures { option_and_then (λ n. slice_get n.arcs i) (node_at (layers_of self.now) depth node) ≡ Some result }
    {
        self.space.arc(depth, node, i)
    }

    /// The last of the kept decisions of an exact node below the first layer.
    pub fn decision(&self, depth: usize, node: usize) -> u32
        requires first { (layers_of self.now).first < depth }
        requires exact { option_map (λ n. n.exact) (node_at (layers_of self.now) depth node) ≡ Some true }
        ensures { option_map (λ n. n.path) (node_at (layers_of self.now) depth node) ≡ option_map (λ n. take (depth - 1) n.path ++ result ∷ []) (node_at (layers_of self.now) depth node) }
    {
        self.space.decision(depth, node)
    }

    /// The place of the node in the layer above that the kept decisions of an exact node lead through, where that is below the
    /// first layer.
    pub fn parent(&self, depth: usize, node: usize) -> usize
        requires first { (layers_of self.now).first + 1 < depth }
        requires exact { option_map (λ n. n.exact) (node_at (layers_of self.now) depth node) ≡ Some true }
        ensures { option_map (λ n. n.path) (node_at (layers_of self.now) (depth - 1) result) ≡ option_map (λ n. take (depth - 1) n.path) (node_at (layers_of self.now) depth node) }
    {
        self.space.parent(depth, node)
    }

    /// Writes the kept decisions of an exact node, from the root.
    pub fn path(&self, depth: usize, node: usize, out: &mut [u32])
        requires first { (layers_of self.now).first ≤ depth }
        requires exact { option_map (λ n. n.exact) (node_at (layers_of self.now) depth node) ≡ Some true }
        requires cells { length out.old ≡ depth }
        ensures { option_map (λ n. n.path) (node_at (layers_of self.now) depth node) ≡ Some out.new }
    {
        self.space.path(depth, node, out);
    }
}
