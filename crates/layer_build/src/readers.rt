//! What the layers of a workspace are, as its readers show them.

ghost use Rattle.std.specs.Prelude.{◌≡◌, ◌+◌, ◌-◌, ◌<◌, ◌≤◌, true, [], ◌∷◌, ◌++◌, Some, IsSome, length, map, take, slice_get, option_map, option_and_then};
ghost use Rattle.std.specs.Borrow.{sem};
ghost use Rattle.dp_model.specs.Dp.{Dp};
ghost use Rattle.dp_model.specs.Lists.{Each};
ghost use Rattle.dp_laws.specs.Diagrams.Nodes.{node_at};
ghost use Rattle.dp_laws.specs.Diagrams.Cutsets.{first_exact};
ghost use Rattle.layer_nodes.specs.Ending.{MayAdd, MayLead};
ghost use Rattle.layer_build.specs.Layers.{diagram_of, last_depth, layer_at, last_layer, live_in};
ghost use Rattle.layer_build.specs.Ended.{ended_at};
ghost use Rattle.layer_build.specs.Finding.{IsFound, IsFoundAs, StaysButPath, StaysSeen};
ghost use Rattle.layer_build.specs.UnderWay.{IsUnderWay};

use crate::ending::end_layer;
use crate::stack::layer_at;
use crate::walking::{exact_place, parent_or_first, write_front, write_path};
use crate::workspace::Workspace;
use dp_laws::DdArc;
use dp_model::Found;

impl Workspace {
    /// The width that it was prepared for.
    pub fn width(&self) -> usize
        ensures { result ≡ self.now.width }
    {
        self.width
    }

    /// The depth of the first layer.
    pub fn first_depth(&self) -> usize
        ensures { result ≡ length self.now.prefix }
    {
        self.stack.first
    }

    /// The depth of the last layer.
    pub fn last_depth(&self) -> usize
        ensures { result ≡ last_depth self.now }
    {
        self.stack.last
    }

    /// The least depth of a layer that was reduced, or none where no layer was.
    pub fn first_reduced(&self) -> Option<usize>
        ensures { result ≡ self.now.first_reduced }
    {
        self.first_reduced
    }

    /// How many nodes there are at the depth.
    pub fn nodes(&self, depth: usize) -> usize
        requires first { length self.now.prefix ≤ depth }
        requires last { depth ≤ last_depth self.now }
        ensures { result ≡ length (layer_at self.now depth) }
    {
        layer_at(&self.stack, depth).len()
    }

    /// The state of a node, where the rows of its layer are held.
    pub fn row(&self, depth: usize, node: usize) -> &[i64]
        requires first { length self.now.prefix ≤ depth }
        requires held { self.now.held ≤ depth }
        requires place { IsSome (node_at (diagram_of self.now) depth node) }
        ensures { option_map (λ n. n.row) (node_at (diagram_of self.now) depth node) ≡ Some result.now }
    {
        layer_at(&self.stack, depth).row(&self.stack.region, node)
    }

    /// The state of a node of the last layer, whose rows are always held.
    pub fn last_row(&self, node: usize) -> &[i64]
        requires { node < length (last_layer self.now.layers) }
        ensures { option_map (λ n. n.row) (slice_get (last_layer self.now.layers) node) ≡ Some result.now }
    {
        self.stack.newest.row(&self.stack.region, node)
    }

    /// The greatest length of a path to a node.
    pub fn value(&self, depth: usize, node: usize) -> i64
        requires first { length self.now.prefix ≤ depth }
        requires place { IsSome (node_at (diagram_of self.now) depth node) }
        ensures { option_map (λ n. n.value) (node_at (diagram_of self.now) depth node) ≡ Some result }
    {
        layer_at(&self.stack, depth).value(node)
    }

    /// Whether a node stands for one state exactly.
    pub fn exact(&self, depth: usize, node: usize) -> bool
        requires first { length self.now.prefix ≤ depth }
        requires place { IsSome (node_at (diagram_of self.now) depth node) }
        ensures { option_map (λ n. n.exact) (node_at (diagram_of self.now) depth node) ≡ Some result }
    {
        layer_at(&self.stack, depth).exact(node)
    }

    /// The suffix of a node, or none where it is not set yet.
    pub fn suffix(&self, depth: usize, node: usize) -> Option<i64>
        requires first { length self.now.prefix ≤ depth }
        requires place { IsSome (node_at (diagram_of self.now) depth node) }
        ensures { option_map (λ n. n.suffix) (node_at (diagram_of self.now) depth node) ≡ Some result }
    {
        layer_at(&self.stack, depth).suffix(node)
    }

    /// Sets the suffixes of all nodes at the depth, where those of the layer below are known and the last layer is that of all
    /// variables: the greatest length of a path to it, or none where there is no such path.
    pub fn set_suffixes(&mut self, depth: usize)
        requires first { length self.old.prefix ≤ depth }
        requires last { depth ≤ last_depth self.old }
        requires whole { last_depth self.old ≡ self.old.vars }
        requires arcs { depth < last_depth self.old → Each (λ node. Each MayAdd node.arcs) (layer_at self.old depth) }
        requires leads { depth < last_depth self.old → Each (λ node. Each (λ arc. MayLead (map (λ below. below.suffix) (layer_at self.old (depth + 1))) arc.target) node.arcs) (layer_at self.old depth) }
        ensures layers { (dp : Dp) → dp.vars ≡ self.old.vars → self.new ≡ record self.old { layers = ended_at dp depth (depth - length self.old.prefix) self.old.layers } }
        ensures under_way { (dp : Dp) → IsUnderWay dp self.old → IsUnderWay dp self.new }
    {
        end_layer(&mut self.stack, depth);
    }

    /// How many arcs a node has.
    pub fn arcs(&self, depth: usize, node: usize) -> usize
        requires first { length self.now.prefix ≤ depth }
        requires place { IsSome (node_at (diagram_of self.now) depth node) }
        ensures { option_map (λ n. length n.arcs) (node_at (diagram_of self.now) depth node) ≡ Some result }
    {
        layer_at(&self.stack, depth).arcs(node)
    }

    /// An arc of a node, by the place among its arcs, which stand by decision.
    pub fn arc(&self, depth: usize, node: usize, i: usize) -> DdArc
        requires first { length self.now.prefix ≤ depth }
        requires place { IsSome (option_and_then (λ n. slice_get n.arcs i) (node_at (diagram_of self.now) depth node)) }
        ensures { option_and_then (λ n. slice_get n.arcs i) (node_at (diagram_of self.now) depth node) ≡ Some result }
    {
        layer_at(&self.stack, depth).arc(node, i)
    }

    /// Writes the kept decisions of an exact node, from the root.
    pub fn path(&self, depth: usize, node: usize, out: &mut [u32])
        requires first { length self.now.prefix ≤ depth }
        requires exact { option_map (λ n. n.exact) (node_at (diagram_of self.now) depth node) ≡ Some true }
        requires cells { length out.old ≡ depth }
        ensures { option_map (λ n. n.path) (node_at (diagram_of self.now) depth node) ≡ Some out.new }
    {
        write_path(&self.stack, self.prefix.as_slice(), depth, node, out);
    }

    /// The last of the kept decisions of an exact node below the first layer.
    pub fn decision(&self, depth: usize, node: usize) -> u32
        requires first { length self.now.prefix < depth }
        requires exact { option_map (λ n. n.exact) (node_at (diagram_of self.now) depth node) ≡ Some true }
        ensures { option_map (λ n. n.path) (node_at (diagram_of self.now) depth node) ≡ option_map (λ n. take (depth - 1) n.path ++ result ∷ []) (node_at (diagram_of self.now) depth node) }
    {
        layer_at(&self.stack, depth).decision(node)
    }

    /// The place of the node in the layer above that the kept decisions of an exact node lead through, where that is below the
    /// first layer.
    pub fn parent(&self, depth: usize, node: usize) -> usize
        requires first { length self.now.prefix + 1 < depth }
        requires exact { option_map (λ n. n.exact) (node_at (diagram_of self.now) depth node) ≡ Some true }
        ensures { option_map (λ n. n.path) (node_at (diagram_of self.now) (depth - 1) result) ≡ option_map (λ n. take (depth - 1) n.path) (node_at (diagram_of self.now) depth node) }
    {
        parent_or_first(&self.stack, depth, node)
    }

    /// How many rows are held.
    pub fn live_rows(&self) -> usize
        ensures { result ≡ live_in self.now }
    {
        self.stack.region.rows() - self.stack.region.spare()
    }

    /// The first exact node of the last layer with its kept decisions from the root; none exactly where it has no exact node.
    pub fn first_exact(&mut self) -> Option<Found<'_>>
        ensures* kept { sem 𝓛 (StaysSeen self.entry) }
        ensures found { IsFound (first_exact (last_layer self.old.layers)) result }
    {
        let value = self.write_first_exact()?;
        Some(Found {
            value,
            decisions: self.last_path(),
        })
    }

    /// The value of the first exact node of the last layer, whose decisions are written.
    fn write_first_exact(&mut self) -> Option<i64>
        ensures kept { StaysButPath self.old self.new }
        ensures cells { last_depth self.new ≤ length self.new.path }
        ensures found { IsFoundAs (first_exact (last_layer self.old.layers)) result (take (last_depth self.old) self.new.path) }
    {
        let node = exact_place(&self.stack.newest)?;
        let depth = self.stack.last;
        write_front(
            &self.stack,
            self.prefix.as_slice(),
            depth,
            node,
            self.path.as_mut_slice(),
        );
        Some(self.stack.newest.value(node))
    }

    /// The decisions that were written last, as many as the last layer is deep.
    fn last_path(&self) -> &[u32]
        requires { last_depth self.now ≤ length self.now.path }
        ensures { result.now ≡ take (last_depth self.now) self.now.path }
    {
        &self.path.as_slice()[..self.stack.last]
    }
}
