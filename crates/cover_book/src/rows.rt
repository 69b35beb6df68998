//! The rows of the nodes of a diagram.

ghost use Rattle.std.specs.Prelude.{◌≡◌, ◌+◌, ◌^◌, ◌≤◌, ◌<◌, Some, IsSome, IfOk, IfSome, map, option_map, option_and_then, slice_get, cond};
ghost use Rattle.dp_laws.specs.Diagrams.Nodes.{node_at};
ghost use Rattle.bound_cover.specs.Exploring.{moved, claim_of, is_deep, is_last_exact, leads_above, has_arcs, row_for};
ghost use Rattle.cover_book.specs.Nodes.{row_with};

use crate::claims::{greater_of, leads_above, rest_of};
use crate::diagrams::ShownDiagram;
use crate::drafting::DraftRow;
use bound_cover::CoverArc;
use dp_laws::DdArc;
use dp_model::{DpModel, OutOfMemory};
use std::alloc::Global;

/// The number of a node's row where this many rows stand before those of its layer; none where it does not fit.
fn moved_place(before: u32, target: Option<u32>) -> Option<Option<u32>>
    ensures { IfSome result (λ place. place ≡ option_map (λ i. before + i) target) }
{
    let Some(target) = target else {
        return Some(None);
    };
    let place = before.checked_add(target)?;
    Some(Some(place))
}

/// The arc of a row for an arc of a node. It fails where the number of the target's row does not fit.
fn moved(before: u32, arc: &DdArc) -> Result<CoverArc, OutOfMemory>
    ensures { IfOk result (λ a. a ≡ moved before arc.now) }
{
    let Some(target) = moved_place(before, arc.target) else {
        return Err(OutOfMemory);
    };
    Ok(CoverArc {
        decision: arc.decision,
        target,
    })
}

/// The arcs of the row of a node, whose targets' rows have this many rows before them.
pub(crate) fn arcs_of<D: ShownDiagram>(
    alloc: Global,
    diagram: &D,
    depth: usize,
    node: usize,
    before: u32,
) -> Result<Vec<CoverArc>, OutOfMemory>
    requires first { (D.layers diagram.now).first ≤ depth }
    requires place { IsSome (node_at (D.layers diagram.now) depth node) }
    ensures { IfOk result (λ arcs. option_map (λ n. map (moved before) n.arcs) (node_at (D.layers diagram.now) depth node) ≡ Some arcs.items) }
{
    let count = diagram.arcs(depth, node);
    let mut arcs = Vec::with_capacity(alloc, count)?;
    'arcs: for i in 0..count {
        let arc = diagram.arc(depth, node, i);
        arcs.push_reserved(moved(before, &arc)?);
    }
    Ok(arcs)
}

/// What the row of a node claims: what its value leaves of the claim, and below the last exact layer the suffix where that is greater.
pub(crate) fn claim_of<D: ShownDiagram>(
    claim: Option<i64>,
    deep: bool,
    diagram: &D,
    depth: usize,
    node: usize,
) -> Option<i128>
    requires first { (D.layers diagram.now).first ≤ depth }
    requires place { IsSome (node_at (D.layers diagram.now) depth node) }
    ensures { option_map (claim_of claim deep) (node_at (D.layers diagram.now) depth node) ≡ Some result }
{
    let rest = rest_of(claim, diagram.value(depth, node));
    if deep {
        greater_of(diagram.suffix(depth, node), rest)
    } else {
        rest
    }
}

/// How a node becomes a row: whether its suffix counts, and whether the row has arcs.
#[derive(Clone, Copy)]
pub(crate) struct RowForm {
    deep: bool,
    has_arcs: bool,
}

/// The row of a node, with or without arcs.
pub(crate) fn row_with<D: ShownDiagram>(
    alloc: Global,
    claim: Option<i64>,
    form: RowForm,
    diagram: &D,
    depth: usize,
    node: usize,
    before: u32,
) -> Result<DraftRow, OutOfMemory>
    requires first { (D.layers diagram.now).first ≤ depth }
    requires place { IsSome (node_at (D.layers diagram.now) depth node) }
    ensures { IfOk result (λ row. option_map (row_with claim form.deep form.has_arcs before) (node_at (D.layers diagram.now) depth node) ≡ Some row) }
{
    let bound = claim_of(claim, form.deep, diagram, depth, node);
    let words = diagram.row(depth, node).to_vec(alloc)?;
    let mut arcs = None;
    if form.has_arcs {
        arcs = Some(arcs_of(alloc, diagram, depth, node, before)?);
    }
    Ok(DraftRow { bound, words, arcs })
}

/// Whether the layer at the depth is the first reduced one or stands below it.
pub(crate) fn is_deep(reduced: Option<usize>, depth: usize) -> bool
    ensures { result ≡ is_deep reduced depth }
{
    let Some(reduced) = reduced else {
        return false;
    };
    reduced <= depth
}

/// Whether the layer at the depth is the last exact one.
pub(crate) fn is_last_exact(reduced: Option<usize>, depth: usize) -> bool
    requires { depth < 2 ^ 32 }
    ensures { result ≡ is_last_exact reduced depth }
{
    let Some(reduced) = reduced else {
        return false;
    };
    reduced == depth + 1
}

/// Whether the suffix of a node leads above the claim.
pub(crate) fn leads_at<D: ShownDiagram>(
    claim: Option<i64>,
    diagram: &D,
    depth: usize,
    node: usize,
) -> bool
    requires first { (D.layers diagram.now).first ≤ depth }
    requires place { IsSome (node_at (D.layers diagram.now) depth node) }
    ensures { option_map (leads_above claim) (node_at (D.layers diagram.now) depth node) ≡ Some result }
{
    let value = diagram.value(depth, node);
    leads_above(claim, value, diagram.suffix(depth, node))
}

/// Whether the row of a node has arcs: not in the last layer, and not where it waits for a diagram of its own.
pub(crate) fn has_arcs<M: DpModel, D: ShownDiagram>(
    model: &M,
    claim: Option<i64>,
    diagram: &D,
    depth: usize,
    node: usize,
) -> bool
    requires low { depth < 2 ^ 32 }
    requires first { (D.layers diagram.now).first ≤ depth }
    requires place { IsSome (node_at (D.layers diagram.now) depth node) }
    ensures { option_map (has_arcs (M.meaning (M.numbers model.now)) claim (D.layers diagram.now).first_reduced depth) (node_at (D.layers diagram.now) depth node) ≡ Some result }
{
    let leads = leads_at(claim, diagram, depth, node);
    let last = is_last_exact(diagram.first_reduced(), depth);
    depth < model.vars() && !(last && leads)
}

/// The row of a node, where this many rows stand before those of the next layer.
pub(crate) fn row_for<M: DpModel, D: ShownDiagram>(
    alloc: Global,
    model: &M,
    claim: Option<i64>,
    diagram: &D,
    depth: usize,
    node: usize,
    before: u32,
) -> Result<DraftRow, OutOfMemory>
    requires low { depth < 2 ^ 32 }
    requires first { (D.layers diagram.now).first ≤ depth }
    requires place { IsSome (node_at (D.layers diagram.now) depth node) }
    ensures { IfOk result (λ row. option_map (row_for (M.meaning (M.numbers model.now)) claim (D.layers diagram.now).first_reduced depth before) (node_at (D.layers diagram.now) depth node) ≡ Some row) }
{
    let deep = is_deep(diagram.first_reduced(), depth);
    let has_arcs = has_arcs(model, claim, diagram, depth, node);
    let form = RowForm { deep, has_arcs };
    row_with(alloc, claim, form, diagram, depth, node, before)
}
