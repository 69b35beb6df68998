//! The worked relaxed diagrams of the empty prefix, with what they leave.

ghost use Rattle.std.specs.Prelude.{◌<◌, ◌≤◌, IsSome, IsTrue};
ghost use Rattle.dp_laws.specs.Diagrams.Nodes.{node_at};
ghost use Rattle.dp_model.specs.Subproblem.{IsOwn};
ghost use Rattle.layer_build.specs.Layers.{IsPreparedFor};
ghost use Rattle.relaxed_dd.specs.Shown.{layers_of};
ghost use Rattle.exact_cutset.specs.Prepared.{IsListPreparedFor};

use crate::roots::{THREE_ITEMS, instance, root_of, space_for};
use dp_model::{CutKind, DpModel, Sub};
use exact_cutset::{Children, children};
use knapsack::Knapsack;
use layer_build::Workspace;
use relaxed_dd::{Diagram, relaxed};
use std::alloc::Global;
use std::process::Abort;

/// A child: the depth and the place of its node, its bound, and its decisions, state, value and bound as a subproblem.
type Child = (
    (usize, usize),
    i64,
    &'static [u32],
    &'static [i64],
    i64,
    i64,
);

/// The first node of a layer: its depth, its state, its value, whether it is exact, its suffix, and the decisions of its arcs.
type First = (
    usize,
    &'static [i64],
    i64,
    bool,
    Option<i64>,
    &'static [u32],
);

/// A diagram that is made, and what is known of it and of what it leaves.
#[derive(Clone, Copy)]
struct Case {
    text: &'static [u8],
    width: u32,
    threshold: Option<i64>,
    kind: CutKind,
    /// The least depth that was reduced.
    reduced: Option<usize>,
    last: usize,
    /// Depths, and how many nodes they have.
    counts: &'static [(usize, usize)],
    firsts: &'static [First],
    /// Depths, and the decisions of their first nodes.
    paths: &'static [(usize, &'static [u32])],
    children: &'static [Child],
    found: Option<(i64, &'static [u32])>,
}

/// With the last exact layer: the diagram is reduced below the first layer.
const LAST_EXACT: Case = Case {
    text: THREE_ITEMS,
    width: 1,
    threshold: Some(110),
    kind: CutKind::LastExactLayer,
    reduced: Some(2),
    last: 3,
    counts: &[(1, 2), (2, 1)],
    firsts: &[(2, &[6], 110, false, Some(70), &[0, 1])],
    paths: &[],
    children: &[
        ((1, 0), 121, &[1], &[5], 60, 121),
        ((1, 1), 120, &[0], &[10], 0, 120),
    ],
    found: None,
};

/// With the frontier. The first node of layer 3 is exact, and below another child.
const FRONTIER: Case = Case {
    text: b"5 12\n60 5\n50 4\n70 6\n30 3\n20 2\n",
    width: 3,
    threshold: None,
    kind: CutKind::Frontier,
    reduced: Some(2),
    last: 5,
    counts: &[],
    firsts: &[],
    paths: &[(3, &[1, 0, 1])],
    children: &[
        ((1, 1), 140, &[0], &[12], 0, 140),
        ((2, 0), 145, &[1, 1], &[3], 110, 145),
        ((2, 1), 140, &[1, 0], &[7], 60, 140),
    ],
    found: None,
};

/// Of a width at which nothing is reduced.
const NOT_REDUCED: Case = Case {
    text: THREE_ITEMS,
    width: 4,
    threshold: Some(110),
    kind: CutKind::LastExactLayer,
    reduced: None,
    last: 3,
    counts: &[],
    firsts: &[],
    paths: &[],
    children: &[],
    found: Some((120, &[0, 1, 1])),
};

/// How many nodes the depth has.
fn has_count(rt: &impl Abort, diagram: &Diagram, depth: usize, wanted: usize) {
    assert!(rt; diagram.first_depth() <= depth && depth <= diagram.last_depth());
    assert_eq!(rt; diagram.nodes(depth), wanted);
}

/// Each of the depths has this many nodes.
fn has_counts(rt: &impl Abort, diagram: &Diagram, counts: &[(usize, usize)]) {
    for (depth, count) in counts.iter().copied() {
        has_count(rt, diagram, depth, count);
    }
}

/// Whether a layer of the depth has a node.
pub fn has_nodes(diagram: &Diagram, depth: usize) -> bool
    ensures first { IsTrue result → (layers_of diagram.now).first ≤ depth }
    ensures node { IsTrue result → IsSome (node_at (layers_of diagram.now) depth 0) }
{
    let is_layer = diagram.first_depth() <= depth && depth <= diagram.last_depth();
    is_layer && diagram.nodes(depth) > 0
}

/// The first node of a depth, but for its arcs.
fn has_first(rt: &impl Abort, diagram: &Diagram, first: First) {
    let (depth, row, value, exact, suffix, _) = first;
    assert!(rt; has_nodes(diagram, depth));
    let found = (
        diagram.row(depth, 0),
        diagram.value(depth, 0),
        diagram.exact(depth, 0),
        diagram.suffix(depth, 0),
    );
    assert_eq!(rt; found, (row, value, exact, suffix));
}

/// The decisions of the arcs of the first node of a depth.
fn has_arcs(rt: &impl Abort, diagram: &Diagram, depth: usize, wanted: &[u32]) {
    assert!(rt; has_nodes(diagram, depth) && diagram.arcs(depth, 0) == wanted.len());
    for i in 0..wanted.len() {
        assert_eq!(rt; diagram.arc(depth, 0, i).decision, wanted[i]);
    }
}

/// The first nodes of some depths, with their arcs.
fn has_firsts(rt: &impl Abort, diagram: &Diagram, firsts: &[First]) {
    for first in firsts.iter().copied() {
        has_first(rt, diagram, first);
        has_arcs(rt, diagram, first.0, first.5);
    }
}

/// The decisions of the first node of the depth.
fn has_path(rt: &impl Abort, alloc: Global, diagram: &Diagram, depth: usize, wanted: &[u32]) {
    assert!(rt; has_nodes(diagram, depth) && diagram.exact(depth, 0));
    let mut path = vec![in alloc; 0u32; depth].expect(rt, "a path");
    diagram.path(depth, 0, path.as_mut_slice());
    assert_eq!(rt; path.as_slice(), wanted);
}

/// The decisions of the first nodes of some depths.
fn has_paths(rt: &impl Abort, alloc: Global, diagram: &Diagram, paths: &[(usize, &[u32])]) {
    for (depth, path) in paths.iter().copied() {
        has_path(rt, alloc, diagram, depth, path);
    }
}

/// The diagram is that of the case.
fn is_diagram(rt: &impl Abort, alloc: Global, diagram: &Diagram, case: &Case) {
    let found = (diagram.first_reduced(), diagram.last_depth());
    assert_eq!(rt; found, (case.reduced, case.last));
    has_counts(rt, diagram, case.counts);
    has_firsts(rt, diagram, case.firsts);
    has_paths(rt, alloc, diagram, case.paths);
}

/// A child with its node, its bound and its subproblem.
fn is_child(rt: &impl Abort, node: (usize, usize), bound: i64, sub: &Sub, wanted: Child) {
    let (decisions, row) = (sub.decisions.as_slice(), sub.row.as_slice());
    let found = (node, bound, decisions, row, sub.value, sub.bound);
    assert_eq!(rt; found, wanted);
}

/// The children are these.
fn are_children(rt: &impl Abort, alloc: Global, list: &Children, wanted: &[Child]) {
    let subs = list.subs(alloc).expect(rt, "the children");
    assert!(rt; subs.len() == wanted.len() && list.len() == wanted.len());
    for i in 0..wanted.len() {
        is_child(rt, list.node(i), list.bound(i), &subs[i], wanted[i]);
    }
}

/// The solution that is found.
fn finds(rt: &impl Abort, list: &Children, wanted: Option<(i64, &[u32])>) {
    let found = list.found().map(|found| (found.value, found.decisions));
    assert_eq!(rt; found, wanted);
}

/// The diagram that is made of the empty prefix is that of the case, and leaves what the case says.
fn makes<M: DpModel>(
    rt: &impl Abort,
    alloc: Global,
    model: &M,
    root: &Sub,
    space: &mut Workspace,
    list: &mut Children,
    case: &Case,
)
    requires own { IsOwn (M.meaning (M.numbers model.now)) root.now.subproblem }
    requires space { IsPreparedFor (M.meaning (M.numbers model.now)) space.old }
    requires list { IsListPreparedFor (M.meaning (M.numbers model.now)) space.old.width case.now.kind list.old }
{
    let diagram = relaxed(space, model, root, case.threshold);
    is_diagram(rt, alloc, &diagram, case);
    children(model, &diagram, case.kind, list);
}

/// The diagram of the case and what it leaves.
fn is_made<M: DpModel>(rt: &impl Abort, alloc: Global, model: &M, case: &Case)
    requires { 0 < (M.meaning (M.numbers model.now)).vars }
{
    let root = root_of(rt, alloc, model);
    let mut space = space_for(rt, alloc, model, case.width);
    let list = Children::prepare(alloc, model, case.width, case.kind);
    let mut list = list.expect(rt, "a list");
    makes(rt, alloc, model, &root, &mut space, &mut list, case);
    are_children(rt, alloc, &list, case.children);
    finds(rt, &list, case.found);
}

/// The case of a knapsack.
fn leaves(rt: &impl Abort, alloc: Global, case: &Case) {
    let model: Knapsack = instance(rt, alloc, case.text);
    is_made(rt, alloc, &model, case);
}

#[test]
fn the_last_exact_layer_is_left(rt: HostRuntime) {
    leaves(&rt, rt.alloc(), &LAST_EXACT);
}

#[test]
fn the_frontier_is_left(rt: HostRuntime) {
    leaves(&rt, rt.alloc(), &FRONTIER);
}

#[test]
fn a_diagram_that_is_not_reduced_leaves_none(rt: HostRuntime) {
    leaves(&rt, rt.alloc(), &NOT_REDUCED);
}
