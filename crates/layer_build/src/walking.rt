//! Paths of nodes, and the first exact one of a layer.

ghost use Rattle.std.specs.Prelude.{◌≡◌, ◌+◌, ◌-◌, ◌<◌, ◌≤◌, ℕ, [], ◌∷◌, ◌++◌, length, drop, option_map, position, slice_get, Some};
ghost use Rattle.layer_nodes.specs.Nodes.{NodeView};
ghost use Rattle.layer_build.specs.Stacked.{nodes_in, path_in, paths_at, HasDepth, HasAllDepths};

use crate::stack::{Stack, layer_at};
use layer_nodes::Layer;

/// Writes the path of a node: the decisions from its ancestors down, after the prefix.
pub(crate) fn write_path(stack: &Stack, prefix: &[u32], depth: usize, node: usize, out: &mut [u32])
    requires deep { stack.now.first ≤ depth }
    requires low { depth ≤ stack.now.last }
    requires stored { HasAllDepths stack.now }
    requires prefix { length prefix.now ≡ stack.now.first }
    requires place { node < length (nodes_in stack.now depth) }
    requires whole { length (path_in (paths_at (nodes_in stack.now) (prefix.now ∷ []) stack.now.first (depth - stack.now.first)) node) ≡ depth }
    requires cells { length out.old ≡ depth }
    ensures { out.new ≡ path_in (paths_at (nodes_in stack.now) (prefix.now ∷ []) stack.now.first (depth - stack.now.first)) node }
{
    let mut k = depth;
    let mut at = node;
    'steps: while k > stack.first {
        let decision = layer_at(stack, k).decision(at);
        at = parent_or_first(stack, k, at);
        k -= 1;
        out[k] = decision;
    }
    out[..prefix.len()].copy_from_slice(prefix);
}

/// Writes the path of a node into the first cells; the others stay.
pub(crate) fn write_front(stack: &Stack, prefix: &[u32], depth: usize, node: usize, out: &mut [u32])
    requires deep { stack.now.first ≤ depth }
    requires low { depth ≤ stack.now.last }
    requires stored { HasAllDepths stack.now }
    requires prefix { length prefix.now ≡ stack.now.first }
    requires place { node < length (nodes_in stack.now depth) }
    requires whole { length (path_in (paths_at (nodes_in stack.now) (prefix.now ∷ []) stack.now.first (depth - stack.now.first)) node) ≡ depth }
    requires cells { depth ≤ length out.old }
    ensures { out.new ≡ path_in (paths_at (nodes_in stack.now) (prefix.now ∷ []) stack.now.first (depth - stack.now.first)) node ++ drop depth out.old }
{
    write_path(stack, prefix, depth, node, &mut out[..depth]);
}

/// The place, or 0.
fn place_or_first(place: Option<u32>) -> usize
    ensures { (i : ℕ) → place ≡ Some i → result ≡ i }
{
    match place {
        Some(place) => place as usize,
        None => 0,
    }
}

/// The place of a node's parent, or 0 where it has none.
pub(crate) fn parent_or_first(stack: &Stack, depth: usize, node: usize) -> usize
    requires depth { HasDepth stack.now depth }
    requires place { node < length (nodes_in stack.now depth) }
    ensures { (i : ℕ) → option_map (λ (n : NodeView). n.parent) (slice_get (nodes_in stack.now depth) node) ≡ Some (Some i) → result ≡ i }
{
    place_or_first(layer_at(stack, depth).parent(node))
}

/// The place of the first exact node.
pub(crate) fn exact_place(layer: &Layer) -> Option<usize>
    ensures { result ≡ position (λ (n : NodeView). n.exact) layer.now.nodes }
{
    'nodes: for i in 0..layer.len() {
        if layer.exact(i) {
            return Some(i);
        }
    }
    None
}
