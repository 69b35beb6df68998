//! The suffixes of a layer: the greatest lengths of paths from its nodes to the last layer.

ghost use Rattle.std.specs.Prelude.{◌≡◌, ◌+◌, ◌≤◌, ◌+ℤ◌, pos, Some, length, map};
ghost use Rattle.dp_model.specs.Lists.{Each};
ghost use Rattle.dp_model.specs.Numbers.{add_some, greatest};
ghost use Rattle.layer_nodes.specs.Ending.{suffix_of, lengths, MayAdd, MayFollow, MayLead, MayEnd, ended_layer, ended_last, suffixes_in, arcs_in, ended_in, at_end_in};
ghost use Rattle.layer_nodes.specs.Routing.{routed_arcs};

use crate::layer::Layer;
use crate::merging::greater;
use crate::node::Node;
use crate::packed::PackedLength;
use crate::routing::{Route, StoredArc, routed};
use dp_laws::DdArc;

/// The length of an arc with what follows it.
fn along(arc: DdArc, suffix: Option<i64>) -> Option<i64>
    requires arc { MayAdd arc }
    requires suffix { MayFollow suffix }
    ensures { result ≡ add_some (arc.gain +ℤ arc.longer) suffix }
{
    let more = suffix?;
    Some(arc.gain + arc.longer + more)
}

/// The suffix of the target of an arc.
fn suffix_of(nodes: &[Node], target: Option<u32>) -> Option<i64>
    requires { MayLead (suffixes_in nodes.now) target }
    ensures suffix { result ≡ suffix_of (suffixes_in nodes.now) target }
    ensures short { MayFollow result }
{
    let place = target?;
    nodes[place as usize].suffix.get()
}

/// The greatest length of a path that begins with one of the arcs, which lead by the routes to these nodes.
fn longest(arcs: &[StoredArc], routes: &[Route], next: &[Node]) -> Option<i64>
    requires add { Each MayAdd (routed_arcs routes.now arcs.now) }
    requires lead { Each (λ arc. MayLead (suffixes_in next.now) arc.target) (routed_arcs routes.now arcs.now) }
    ensures { result ≡ greatest (lengths (suffixes_in next.now) (routed_arcs routes.now arcs.now)) }
{
    let mut best = None;
    'arcs: for i in 0..arcs.len() {
        let arc = routed(routes, arcs[i]);
        best = greater(best, along(arc, suffix_of(next, arc.target)));
    }
    best
}

/// The arcs of a node.
fn arcs_of(arcs: &[StoredArc], node: Node) -> &[StoredArc]
    requires { node.first_arc + node.arcs ≤ length arcs.now }
    ensures { result.now ≡ arcs_in arcs.now node }
{
    let rest = &arcs[node.first_arc as usize..];
    &rest[..node.arcs as usize]
}

/// Sets the suffixes of the nodes, whose arcs lead by the routes to the next ones.
fn end_nodes(nodes: &mut [Node], arcs: &[StoredArc], routes: &[Route], next: &[Node])
    requires { Each (MayEnd (routed_arcs routes.now arcs.now) (suffixes_in next.now)) nodes.old }
    ensures { nodes.new ≡ map (ended_in (routed_arcs routes.now arcs.now) (suffixes_in next.now)) nodes.old }
{
    'nodes: for i in 0..nodes.len() {
        let own = arcs_of(arcs, nodes[i]);
        nodes[i].suffix = PackedLength::of(longest(own, routes, next));
    }
}

/// The suffix of a node of the last layer, which no arc leaves.
fn without_arcs() -> PackedLength
    ensures { result ≡ Some (pos 0) }
{
    PackedLength::of(Some(0))
}

/// Sets the suffixes of nodes of the last layer.
fn end_last(nodes: &mut [Node])
    ensures { nodes.new ≡ map at_end_in nodes.old }
{
    'nodes: for i in 0..nodes.len() {
        nodes[i].suffix = without_arcs();
    }
}

/// Sets the suffixes of a layer, where those of the next one are known: of each node the greatest length of an arc with the
/// suffix of its target, or none where no arc has a target with a suffix. Nothing else of the layer changes.
pub fn set_suffixes(layer: &mut Layer, next: &Layer)
    requires arcs { Each (λ node. Each MayAdd node.arcs) layer.old.nodes }
    requires leads { Each (λ node. Each (λ arc. MayLead (map (λ below. below.suffix) next.now.nodes) arc.target) node.arcs) layer.old.nodes }
    ensures { layer.new ≡ ended_layer (map (λ below. below.suffix) next.now.nodes) layer.old }
{
    end_nodes(
        layer.nodes.as_mut_slice(),
        layer.arcs.as_slice(),
        layer.routes.as_slice(),
        next.nodes.as_slice(),
    );
}

/// Sets the suffixes of the last layer, which are 0. Nothing else of it changes.
pub fn set_last_suffixes(layer: &mut Layer)
    ensures { layer.new ≡ ended_last layer.old }
{
    end_last(layer.nodes.as_mut_slice());
}
