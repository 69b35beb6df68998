//! A diagram is put into a cover under way.

ghost use Rattle.std.specs.Prelude.{◌≡◌, ◌+◌, ◌-◌, ◌^◌, ◌<◌, ◌≤◌, ◌++◌, Some, IsSome, IfOk, OnOk, length, map};
ghost use Rattle.dp_laws.specs.Diagrams.Nodes.{node_at};
ghost use Rattle.relaxed_dd.specs.Shown.{layer_in, last_of};
ghost use Rattle.bound_cover.specs.Exploring.{layer_of, row_for, all_wait};
ghost use Rattle.cover_book.specs.Adding.{with_root_arcs, AreAdded, last_needed, IsCutWithin};

use crate::diagrams::ShownDiagram;
use crate::drafting::DraftLayer;
use crate::rows::{arcs_of, leads_at, row_for};
use bound_cover::MOST_ROWS;
use dp_model::{DpModel, OutOfMemory};
use std::alloc::Global;

/// How many rows a layer has; there are none where there is no such layer. It fails where 32 bits don't tell it.
pub(crate) fn rows_at(rows: &[DraftLayer], depth: usize) -> Result<u32, OutOfMemory>
    ensures { IfOk result (λ count. count ≡ length (layer_of rows.now depth)) }
{
    if depth >= rows.len() {
        return Ok(0);
    }
    let count = rows[depth].len();
    if count > MOST_ROWS {
        return Err(OutOfMemory);
    }
    Ok(count as u32)
}

/// Gives the arcs of the diagram's root to the row at the place.
pub(crate) fn set_root_arcs<D: ShownDiagram>(
    alloc: Global,
    diagram: &D,
    place: usize,
    rows: &mut Vec<DraftLayer>,
) -> Result<(), OutOfMemory>
    requires root { IsSome (node_at (D.layers diagram.now) (D.layers diagram.now).first 0) }
    requires layer { (D.layers diagram.now).first + 1 < length rows.old.items }
    ensures { OnOk result (rows.new.items ≡ with_root_arcs (D.layers diagram.now) place rows.old.items) }
{
    let first = diagram.first_depth();
    let before = rows_at(rows.as_slice(), first + 1)?;
    let arcs = arcs_of(alloc, diagram, first, 0, before)?;
    rows[first].set_arcs(place, arcs);
    Ok(())
}

/// Puts the rows of a layer's nodes after those that are there.
fn add_nodes<M: DpModel, D: ShownDiagram>(
    alloc: Global,
    model: &M,
    claim: Option<i64>,
    diagram: &D,
    depth: usize,
    before: u32,
    layer: &mut DraftLayer,
) -> Result<(), OutOfMemory>
    requires low { depth < 2 ^ 32 }
    requires first { (D.layers diagram.now).first ≤ depth }
    requires last { depth ≤ last_of (D.layers diagram.now) }
    ensures { OnOk result (layer.new ≡ layer.old ++ map (row_for (M.meaning (M.numbers model.now)) claim (D.layers diagram.now).first_reduced depth before) (layer_in (D.layers diagram.now) depth)) }
{
    let nodes = diagram.nodes(depth);
    'nodes: for node in 0..nodes {
        let row = row_for(alloc, model, claim, diagram, depth, node, before)?;
        layer.push(row)?;
    }
    Ok(())
}

/// Puts the rows of all nodes below the root's layer, down to the last needed layer, after those that are there.
pub(crate) fn add_layers<M: DpModel, D: ShownDiagram>(
    alloc: Global,
    model: &M,
    claim: Option<i64>,
    diagram: &D,
    end: usize,
    rows: &mut Vec<DraftLayer>,
) -> Result<(), OutOfMemory>
    requires low { end ≤ 2 ^ 32 }
    requires first { (D.layers diagram.now).first < end }
    requires last { end ≤ last_of (D.layers diagram.now) + 1 }
    requires long { end ≤ length rows.old.items }
    ensures { OnOk result (AreAdded (M.meaning (M.numbers model.now)) claim (D.layers diagram.now) end rows.old.items rows.new.items) }
{
    let first = diagram.first_depth();
    'layers: for depth in first + 1..end {
        let before = rows_at(rows.as_slice(), depth + 1)?;
        add_nodes(
            alloc,
            model,
            claim,
            diagram,
            depth,
            before,
            &mut rows[depth],
        )?;
    }
    Ok(())
}

/// Whether all nodes of a layer wait for diagrams of their own.
pub(crate) fn all_wait<D: ShownDiagram>(claim: Option<i64>, diagram: &D, depth: usize) -> bool
    requires first { (D.layers diagram.now).first ≤ depth }
    requires last { depth ≤ last_of (D.layers diagram.now) }
    ensures { result ≡ all_wait claim (layer_in (D.layers diagram.now) depth) }
{
    'nodes: for node in 0..diagram.nodes(depth) {
        if !leads_at(claim, diagram, depth, node) {
            return false;
        }
    }
    true
}

/// The depth of the last layer that needs rows.
pub(crate) fn last_needed<D: ShownDiagram>(claim: Option<i64>, diagram: &D) -> usize
    requires { IsCutWithin (D.layers diagram.now) (D.layers diagram.now).first_reduced }
    ensures { result ≡ last_needed claim (D.layers diagram.now) (D.layers diagram.now).first_reduced }
{
    let last = diagram.last_depth();
    let Some(reduced) = diagram.first_reduced() else {
        return last;
    };
    if all_wait(claim, diagram, reduced - 1) {
        reduced - 1
    } else {
        last
    }
}
