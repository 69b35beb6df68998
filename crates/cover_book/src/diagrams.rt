//! Relaxed diagrams as their readers show them. An exploration puts such diagrams into its cover.

ghost use Rattle.std.specs.Prelude.{◌≡◌, ◌≤◌, true, Some, IsSome, length, slice_get, option_map, option_and_then};
ghost use Rattle.dp_laws.specs.Diagrams.Nodes.{DdLayers, node_at};
ghost use Rattle.relaxed_dd.specs.Shown.{layer_in, last_of};

use dp_laws::DdArc;
use relaxed_dd::Diagram;

/// A relaxed diagram as its readers show it. Its layers stand by depth, from that of the prefix to the last one, and the nodes of
/// a layer by their places.
pub trait ShownDiagram {
    /// Its layers.
    ghost layers: { Self → DdLayers };

    /// The depth of the first layer.
    fn first_depth(&self) -> usize
        ensures { result ≡ (layers self.now).first };

    /// The depth of the last layer.
    fn last_depth(&self) -> usize
        ensures { result ≡ last_of (layers self.now) };

    /// The least depth that was reduced.
    fn first_reduced(&self) -> Option<usize>
        ensures { result ≡ (layers self.now).first_reduced };

    /// How many nodes there are at the depth.
    fn nodes(&self, depth: usize) -> usize
        requires first { (layers self.now).first ≤ depth }
        requires last { depth ≤ last_of (layers self.now) }
        ensures { result ≡ length (layer_in (layers self.now) depth) };

    /// The state of a node.
    fn row(&self, depth: usize, node: usize) -> &[i64]
        requires first { (layers self.now).first ≤ depth }
        requires place { IsSome (node_at (layers self.now) depth node) }
        ensures { option_map (λ n. n.row) (node_at (layers self.now) depth node) ≡ Some result.now };

    /// The greatest length of a path to a node.
    fn value(&self, depth: usize, node: usize) -> i64
        requires first { (layers self.now).first ≤ depth }
        requires place { IsSome (node_at (layers self.now) depth node) }
        ensures { option_map (λ n. n.value) (node_at (layers self.now) depth node) ≡ Some result };

    /// The greatest length of a path from a node to the last layer, or none where there is no such path.
    fn suffix(&self, depth: usize, node: usize) -> Option<i64>
        requires first { (layers self.now).first ≤ depth }
        requires place { IsSome (node_at (layers self.now) depth node) }
        ensures { option_map (λ n. n.suffix) (node_at (layers self.now) depth node) ≡ Some result };

    /// How many arcs a node has.
    fn arcs(&self, depth: usize, node: usize) -> usize
        requires first { (layers self.now).first ≤ depth }
        requires place { IsSome (node_at (layers self.now) depth node) }
        ensures { option_map (λ n. length n.arcs) (node_at (layers self.now) depth node) ≡ Some result };

    /// An arc of a node, by the place among its arcs, which stand by decision.
    fn arc(&self, depth: usize, node: usize, i: usize) -> DdArc
        requires first { (layers self.now).first ≤ depth }
        requires place { IsSome (option_and_then (λ n. slice_get n.arcs i) (node_at (layers self.now) depth node)) }
        ensures { option_and_then (λ n. slice_get n.arcs i) (node_at (layers self.now) depth node) ≡ Some result };

    /// Writes the kept decisions of an exact node, from the root.
    fn path(&self, depth: usize, node: usize, out: &mut [u32])
        requires first { (layers self.now).first ≤ depth }
        requires exact { option_map (λ n. n.exact) (node_at (layers self.now) depth node) ≡ Some true }
        requires cells { length out.old ≡ depth }
        ensures { option_map (λ n. n.path) (node_at (layers self.now) depth node) ≡ Some out.new };
}

impl<'w> ShownDiagram for Diagram<'w> {
    ghost use Rattle.relaxed_dd.specs.Shown.{layers_of};

    ghost layers = { λ d. layers_of d };

    fn first_depth(&self) -> usize {
        Diagram::first_depth(self)
    }

    fn last_depth(&self) -> usize {
        Diagram::last_depth(self)
    }

    fn first_reduced(&self) -> Option<usize> {
        Diagram::first_reduced(self)
    }

    fn nodes(&self, depth: usize) -> usize {
        Diagram::nodes(self, depth)
    }

    fn row(&self, depth: usize, node: usize) -> &[i64] {
        Diagram::row(self, depth, node)
    }

    fn value(&self, depth: usize, node: usize) -> i64 {
        Diagram::value(self, depth, node)
    }

    fn suffix(&self, depth: usize, node: usize) -> Option<i64> {
        Diagram::suffix(self, depth, node)
    }

    fn arcs(&self, depth: usize, node: usize) -> usize {
        Diagram::arcs(self, depth, node)
    }

    fn arc(&self, depth: usize, node: usize, i: usize) -> DdArc {
        Diagram::arc(self, depth, node, i)
    }

    fn path(&self, depth: usize, node: usize, out: &mut [u32]) {
        Diagram::path(self, depth, node, out)
    }
}
