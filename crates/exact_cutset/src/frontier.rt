//! The frontier: the exact nodes with an arc to an inexact one, none of them below another.

ghost use Rattle.std.specs.Prelude.{◌≡◌, ◌+◌, ◌-◌, ◌<◌, ◌≤◌, ℕ, true, [], Some, IsSome, length, map, option_map, vec_capacity};
ghost use Rattle.dp_laws.specs.Diagrams.Nodes.{node_at};
ghost use Rattle.dp_laws.specs.Diagrams.Cutsets.{leads_out, leaves, child_from};
ghost use Rattle.relaxed_dd.specs.Shown.{layers_of, last_of, layer_in};
ghost use Rattle.exact_cutset.specs.Walking.{IsPlaceIn, HasLeaving, StemsAt, IsWalkable, IsWalkedTo, HasWalkedLayer, HasFrontier, IsFreeNode, IsTakenBorder, IsTakenNode};
ghost use Rattle.exact_cutset.specs.Ready.{IsChildReadyAt};

use crate::listed::Listed;
use crate::taking::offer;
use dp_model::DpModel;
use relaxed_dd::Diagram;

/// Whether an arc with the target leads to an inexact node of the layer at the depth.
fn leads_out(diagram: &Diagram, depth: usize, target: Option<u32>) -> bool
    requires first { (layers_of diagram.now).first ≤ depth }
    requires place { IsPlaceIn (layer_in (layers_of diagram.now) depth) target }
    ensures { result ≡ leads_out (layer_in (layers_of diagram.now) depth) target }
{
    match target {
        Some(place) => !diagram.exact(depth, place as usize),
        None => false,
    }
}

/// Whether an arc of the node leads to an inexact node.
fn leaves(diagram: &Diagram, depth: usize, node: usize) -> bool
    requires first { (layers_of diagram.now).first ≤ depth }
    requires low { depth ≤ 1024 }
    requires node { IsSome (node_at (layers_of diagram.now) depth node) }
    requires leads { HasLeaving (layers_of diagram.now) depth (node_at (layers_of diagram.now) depth node) }
    ensures { option_map (λ n. leaves (layer_in (layers_of diagram.now) (depth + 1)) n.arcs) (node_at (layers_of diagram.now) depth node) ≡ Some result }
{
    'arcs: for i in 0..diagram.arcs(depth, node) {
        let arc = diagram.arc(depth, node, i);
        if leads_out(diagram, depth + 1, arc.target) {
            return true;
        }
    }
    false
}

/// The place of the node in the layer above that the kept decisions of an exact node lead through.
fn stem_of(diagram: &Diagram, depth: usize, node: usize) -> usize
    requires first { (layers_of diagram.now).first < depth }
    requires low { depth ≤ 1024 }
    requires exact { option_map (λ n. n.exact) (node_at (layers_of diagram.now) depth node) ≡ Some true }
    ensures { StemsAt (layers_of diagram.now) depth result (node_at (layers_of diagram.now) depth node) }
{
    if depth == diagram.first_depth() + 1 {
        0
    } else {
        diagram.parent(depth, node)
    }
}

/// Whether a node is exact and no child stands above it, by what is known of the layer above.
fn is_free(diagram: &Diagram, depth: usize, node: usize, above: &[bool]) -> bool
    requires first { (layers_of diagram.now).first < depth }
    requires low { depth ≤ 1024 }
    requires node { IsSome (node_at (layers_of diagram.now) depth node) }
    requires stem { (place : ℕ) → option_map (λ n. n.exact) (node_at (layers_of diagram.now) depth node) ≡ Some true → StemsAt (layers_of diagram.now) depth place (node_at (layers_of diagram.now) depth node) → place < length above.now }
    ensures { IsFreeNode (layers_of diagram.now) depth above.now (node_at (layers_of diagram.now) depth node) result }
{
    diagram.exact(depth, node) && above[stem_of(diagram, depth, node)]
}

/// An exact node becomes a child where it is a border with a bound. Answers whether it does.
fn take_border<M: DpModel>(
    model: &M,
    diagram: &Diagram,
    depth: usize,
    node: usize,
    out: &mut Listed,
) -> bool
    requires first { (layers_of diagram.now).first ≤ depth }
    requires depth { depth ≤ out.old.vars }
    requires low { depth ≤ 1024 }
    requires words { out.old.words ≡ (M.meaning (M.numbers model.now)).words }
    requires ready { IsChildReadyAt (M.meaning (M.numbers model.now)) depth (node_at (layers_of diagram.now) depth node) }
    requires leads { HasLeaving (layers_of diagram.now) depth (node_at (layers_of diagram.now) depth node) }
    requires room { length out.old.places < out.old.room }
    ensures { IsTakenBorder (M.meaning (M.numbers model.now)) (layers_of diagram.now) depth node (node_at (layers_of diagram.now) depth node) out.old out.new result }
{
    leaves(diagram, depth, node)
        && offer(
            model,
            diagram.space(),
            depth,
            node,
            diagram.row(depth, node),
            out,
        )
}

/// Looks at a node: it becomes a child where it is an exact border with a bound, and no child stands above it. Answers whether
/// a child may stand below it.
fn take_node<M: DpModel>(
    model: &M,
    diagram: &Diagram,
    depth: usize,
    node: usize,
    above: &[bool],
    out: &mut Listed,
) -> bool
    requires walk { IsWalkable (M.meaning (M.numbers model.now)) (layers_of diagram.now) out.old.wide out.old.room }
    requires first { (layers_of diagram.now).first < depth }
    requires last { depth < last_of (layers_of diagram.now) }
    requires node { node < length (layer_in (layers_of diagram.now) depth) }
    requires above { length above.now ≡ length (layer_in (layers_of diagram.now) (depth - 1)) }
    requires vars { out.old.vars ≡ (M.meaning (M.numbers model.now)).vars }
    requires words { out.old.words ≡ (M.meaning (M.numbers model.now)).words }
    requires room { length out.old.places < out.old.room }
    ensures { IsTakenNode (M.meaning (M.numbers model.now)) (layers_of diagram.now) depth node above.now out.old out.new result }
{
    is_free(diagram, depth, node, above) && !take_border(model, diagram, depth, node, out)
}

/// Looks at the nodes of a layer, in order.
fn take_layer<M: DpModel>(
    model: &M,
    diagram: &Diagram,
    depth: usize,
    above: &[bool],
    here: &mut Vec<bool>,
    out: &mut Listed,
)
    requires walk { IsWalkable (M.meaning (M.numbers model.now)) (layers_of diagram.now) out.old.wide out.old.room }
    requires first { (layers_of diagram.now).first < depth }
    requires last { depth < last_of (layers_of diagram.now) }
    requires walked { IsWalkedTo (M.meaning (M.numbers model.now)) (layers_of diagram.now) out.old.wide depth out.old.places above.now }
    requires subs { out.old.subs ≡ map (child_from (layers_of diagram.now)) out.old.places }
    requires vars { out.old.vars ≡ (M.meaning (M.numbers model.now)).vars }
    requires words { out.old.words ≡ (M.meaning (M.numbers model.now)).words }
    requires room { out.old.wide ≤ vec_capacity here.old }
    ensures layer { HasWalkedLayer (M.meaning (M.numbers model.now)) (layers_of diagram.now) depth here.new.items out.old out.new }
    ensures room { vec_capacity here.old ≤ vec_capacity here.new }
{
    here.clear();
    let nodes = diagram.nodes(depth);
    'nodes: for node in 0..nodes {
        let free = take_node(model, diagram, depth, node, above, out);
        here.push_reserved(free);
    }
}

/// Puts in the nodes of the frontier. `above` and `here` have room for a mark of each node of a layer.
pub(crate) fn take_frontier<M: DpModel>(
    model: &M,
    diagram: &Diagram,
    above: &mut Vec<bool>,
    here: &mut Vec<bool>,
    out: &mut Listed,
)
    requires walk { IsWalkable (M.meaning (M.numbers model.now)) (layers_of diagram.now) out.old.wide out.old.room }
    requires vars { out.old.vars ≡ (M.meaning (M.numbers model.now)).vars }
    requires words { out.old.words ≡ (M.meaning (M.numbers model.now)).words }
    requires no_places { out.old.places ≡ [] }
    requires no_subs { out.old.subs ≡ [] }
    requires above_room { out.old.wide ≤ vec_capacity above.old }
    requires here_room { out.old.wide ≤ vec_capacity here.old }
    ensures frontier { HasFrontier (M.meaning (M.numbers model.now)) (layers_of diagram.now) out.old out.new }
    ensures above_room { out.old.wide ≤ vec_capacity above.new }
    ensures here_room { out.old.wide ≤ vec_capacity here.new }
{
    let first = diagram.first_depth();
    let last = diagram.last_depth();
    above.clear();
    above.push_reserved(true);
    'layers: for depth in first + 1..last {
        take_layer(model, diagram, depth, above.as_slice(), here, out);
        std::mem::swap(above, here);
    }
}
