//! Pages are made of diagrams, without their rows.

ghost use Rattle.std.specs.Prelude.{◌≡◌, ◌^◌, ◌<◌, ◌≤◌, IsSome, Some, IfOk, length, map, option_map};
ghost use Rattle.dp_model.specs.Lists.{Each};
ghost use Rattle.dp_laws.specs.Diagrams.Nodes.{node_at};
ghost use Rattle.relaxed_dd.specs.Shown.{layers_of, layer_in, last_of};
ghost use Rattle.cover_pages.specs.Pages.{IsExactPlace, bare_arc, children_of, path_in};
ghost use Rattle.cover_pages.specs.Stored.{body_of, numbered};
ghost use Rattle.cover_pages.specs.Sizes.{nodes_of};

use crate::pages::Place;
use crate::stored::{StoredChild, StoredLayer, StoredNode};
use board_laws::Fate;
use bound_cover::CoverArc;
use dp_laws::DdArc;
use dp_model::OutOfMemory;
use relaxed_dd::Diagram;
use std::alloc::Global;

/// An arc without its gain and its lengthening.
fn bare(arc: &DdArc) -> CoverArc
    ensures { result ≡ bare_arc arc.now }
{
    CoverArc {
        decision: arc.decision,
        target: arc.target,
    }
}

/// The arcs of a node.
fn arcs_of(
    alloc: Global,
    diagram: &Diagram,
    depth: usize,
    node: usize,
) -> Result<Vec<CoverArc>, OutOfMemory>
    requires first { (layers_of diagram.now).first ≤ depth }
    requires place { IsSome (node_at (layers_of diagram.now) depth node) }
    ensures { IfOk result (λ arcs. option_map (λ n. map bare_arc n.arcs) (node_at (layers_of diagram.now) depth node) ≡ Some arcs.items) }
{
    let count = diagram.arcs(depth, node);
    let mut arcs = Vec::with_capacity(alloc, count)?;
    'arcs: for i in 0..count {
        let arc = diagram.arc(depth, node, i);
        arcs.push_reserved(bare(&arc));
    }
    Ok(arcs)
}

/// A node.
fn make_node(
    alloc: Global,
    diagram: &Diagram,
    depth: usize,
    node: usize,
) -> Result<StoredNode, OutOfMemory>
    requires first { (layers_of diagram.now).first ≤ depth }
    requires place { IsSome (node_at (layers_of diagram.now) depth node) }
    ensures { IfOk result (λ n. option_map body_of (node_at (layers_of diagram.now) depth node) ≡ Some n) }
{
    Ok(StoredNode {
        value: diagram.value(depth, node),
        suffix: diagram.suffix(depth, node),
        exact: diagram.exact(depth, node),
        arcs: arcs_of(alloc, diagram, depth, node)?,
    })
}

/// The nodes of a layer.
fn make_nodes(
    alloc: Global,
    diagram: &Diagram,
    depth: usize,
) -> Result<Vec<StoredNode>, OutOfMemory>
    requires first { (layers_of diagram.now).first ≤ depth }
    requires last { depth ≤ last_of (layers_of diagram.now) }
    ensures { IfOk result (λ nodes. nodes.items ≡ map body_of (layer_in (layers_of diagram.now) depth)) }
{
    let count = diagram.nodes(depth);
    let mut nodes = Vec::with_capacity(alloc, count)?;
    'nodes: for node in 0..count {
        nodes.push_reserved(make_node(alloc, diagram, depth, node)?);
    }
    Ok(nodes)
}

/// Layers in memory, and how many nodes they have.
#[derive(Drop)]
pub(crate) struct Made {
    pub(crate) layers: Vec<StoredLayer>,
    pub(crate) nodes: usize,
}

/// The layers. It fails where 64 bits do not tell how many nodes there are.
pub(crate) fn make_layers(alloc: Global, diagram: &Diagram) -> Result<Made, OutOfMemory>
    requires some { 0 < length (layers_of diagram.now).layers }
    requires low { last_of (layers_of diagram.now) < 2 ^ 32 }
    ensures layers { IfOk result (λ made. made.layers.items ≡ numbered 0 (layers_of diagram.now).layers) }
    ensures nodes { IfOk result (λ made. made.nodes ≡ nodes_of (layers_of diagram.now).layers) }
{
    let first = diagram.first_depth();
    let count = diagram.last_depth() - first + 1;
    let mut layers = Vec::with_capacity(alloc, count)?;
    let mut start = 0usize;
    'layers: for i in 0..count {
        let nodes = make_nodes(alloc, diagram, first + i)?;
        let Some(end) = start.checked_add(nodes.len()) else {
            return Err(OutOfMemory);
        };
        layers.push_reserved(StoredLayer { start, nodes });
        start = end;
    }
    Ok(Made {
        layers,
        nodes: start,
    })
}

/// A child with its decisions.
fn make_child(
    alloc: Global,
    diagram: &Diagram,
    place: Place,
    fate: Fate,
) -> Result<StoredChild, OutOfMemory>
    requires { IsExactPlace (layers_of diagram.now) place }
    ensures { IfOk result (λ child. child ≡ record { place = place; decisions = path_in (layers_of diagram.now) place; fate = fate }) }
{
    let mut decisions = vec![in alloc; 0u32; place.depth]?;
    diagram.path(place.depth, place.node, &mut decisions);
    Ok(StoredChild {
        place,
        decisions,
        fate,
    })
}

/// The children with their fates.
pub(crate) fn make_children(
    alloc: Global,
    diagram: &Diagram,
    places: &[Place],
    fates: &[Fate],
) -> Result<Vec<StoredChild>, OutOfMemory>
    requires places { Each (IsExactPlace (layers_of diagram.now)) places.now }
    requires fates { length fates.now ≡ length places.now }
    ensures { IfOk result (λ children. children.items ≡ children_of (layers_of diagram.now) places.now fates.now) }
{
    let mut children = Vec::with_capacity(alloc, places.len())?;
    'children: for i in 0..places.len() {
        children.push_reserved(make_child(alloc, diagram, places[i], fates[i])?);
    }
    Ok(children)
}
