//! What supplies a cover with rows: compiled diagrams, and the pages of books.

ghost use Rattle.std.specs.Prelude.{◌≡◌, ◌^◌, ◌<◌, ◌≤◌, true, IsSome};
ghost use Rattle.dp_laws.specs.Diagrams.Nodes.{node_at};
ghost use Rattle.relaxed_dd.specs.Shown.{layers_of};

use crate::rows::{claim_of, is_deep, is_last_exact, leads_at};
use bound_cover::CoverArc;
use dp_model::OutOfMemory;
use relaxed_dd::Diagram;
use std::alloc::Global;

/// What stands below the row of a node.
#[derive(Clone, Copy, Debug, PartialEq, Eq)]
pub(crate) enum Below {
    /// The rows that the node's arcs lead to.
    Arcs,
    /// Those of a diagram of its own, for which it waits.
    Waits,
    /// Nothing, as in the last layer.
    Nothing,
}

/// The row of a node: its words, the greatest length of a path to it, what it claims, and what stands below it.
#[derive(Clone, Copy, Debug)]
pub(crate) struct NodeRow<'d> {
    pub(crate) words: &'d [i64],
    pub(crate) value: i64,
    pub(crate) bound: Option<i128>,
    pub(crate) below: Below,
}

/// What a row waits for: a diagram of these decisions, or that of the subproblem with the ticket.
#[derive(Debug, Drop)]
pub(crate) struct Wait {
    pub(crate) decisions: Vec<u32>,
    pub(crate) ticket: Option<u64>,
}

/// A diagram that supplies rows. Layers stand by depth, and the nodes of a layer by their places; the first layer has one node.
pub(crate) trait RowSource {
    /// The depth of the first layer.
    fn first_depth(&self) -> usize;

    /// The depth of the last layer.
    fn last_depth(&self) -> usize;

    /// The decisions before the first layer; none where they are not known.
    fn prefix(&self) -> Option<&[u32]>;

    /// How many nodes there are at a depth.
    fn nodes(&self, depth: usize) -> usize;

    /// The row of a node; none where there is no such node.
    fn row(&self, claim: Option<i64>, depth: usize, node: usize) -> Option<NodeRow<'_>>
        requires { depth < 2 ^ 32 };

    /// Puts the arcs of a node, whose targets are places in the next layer, after those that are there.
    fn add_arcs(
        &self,
        depth: usize,
        node: usize,
        arcs: &mut Vec<CoverArc>,
    ) -> Result<(), OutOfMemory>;

    /// What a node waits for; none where the diagram does not tell it.
    fn wait(&self, alloc: Global, depth: usize, node: usize) -> Result<Option<Wait>, OutOfMemory>;
}

/// Whether a diagram has a node at the place.
fn has_node(diagram: &Diagram, depth: usize, node: usize) -> bool
    ensures first { result ≡ true → (layers_of diagram.now).first ≤ depth }
    ensures place { result ≡ true → IsSome (node_at (layers_of diagram.now) depth node) }
{
    if depth < diagram.first_depth() || diagram.last_depth() < depth {
        return false;
    }
    node < diagram.nodes(depth)
}

/// What stands below the row of a node: nothing in the last layer, and not the node's arcs where it waits for a diagram of its own.
fn below_of(claim: Option<i64>, diagram: &Diagram, depth: usize, node: usize) -> Below
    requires low { depth < 2 ^ 32 }
    requires first { (layers_of diagram.now).first ≤ depth }
    requires place { IsSome (node_at (layers_of diagram.now) depth node) }
{
    if diagram.last_depth() <= depth {
        return Below::Nothing;
    }
    if is_last_exact(diagram.first_reduced(), depth) && leads_at(claim, diagram, depth, node) {
        return Below::Waits;
    }
    Below::Arcs
}

/// Puts the arcs of a node after those that are there.
fn add_arcs(
    diagram: &Diagram,
    depth: usize,
    node: usize,
    arcs: &mut Vec<CoverArc>,
) -> Result<(), OutOfMemory>
    requires first { (layers_of diagram.now).first ≤ depth }
    requires place { IsSome (node_at (layers_of diagram.now) depth node) }
{
    let count = diagram.arcs(depth, node);
    arcs.reserve(count)?;
    'arcs: for i in 0..count {
        let arc = diagram.arc(depth, node, i);
        arcs.push(CoverArc {
            decision: arc.decision,
            target: arc.target,
        })?;
    }
    Ok(())
}

impl<'w> RowSource for Diagram<'w> {
    fn first_depth(&self) -> usize {
        Diagram::first_depth(self)
    }

    fn last_depth(&self) -> usize {
        Diagram::last_depth(self)
    }

    fn prefix(&self) -> Option<&[u32]> {
        None
    }

    fn nodes(&self, depth: usize) -> usize {
        if depth < Diagram::first_depth(self) || Diagram::last_depth(self) < depth {
            return 0;
        }
        Diagram::nodes(self, depth)
    }

    fn row(&self, claim: Option<i64>, depth: usize, node: usize) -> Option<NodeRow<'_>> {
        if !has_node(self, depth, node) {
            return None;
        }
        let deep = is_deep(self.first_reduced(), depth);
        Some(NodeRow {
            words: Diagram::row(self, depth, node),
            value: Diagram::value(self, depth, node),
            bound: claim_of(claim, deep, self, depth, node),
            below: below_of(claim, self, depth, node),
        })
    }

    fn add_arcs(
        &self,
        depth: usize,
        node: usize,
        arcs: &mut Vec<CoverArc>,
    ) -> Result<(), OutOfMemory> {
        if has_node(self, depth, node) {
            add_arcs(self, depth, node, arcs)?;
        }
        Ok(())
    }

    fn wait(&self, alloc: Global, depth: usize, node: usize) -> Result<Option<Wait>, OutOfMemory> {
        if !has_node(self, depth, node) || !self.exact(depth, node) {
            return Ok(None);
        }
        let mut decisions = vec![in alloc; 0u32; depth]?;
        self.path(depth, node, &mut decisions);
        Ok(Some(Wait {
            decisions,
            ticket: None,
        }))
    }
}
