//! Rows that wait for a diagram of their own.

ghost use Rattle.std.specs.Prelude.{◌≡◌, ◌+◌, ◌<◌, ◌≤◌, ◌++◌, ◌∷◌, [], true, slice_get, Some, IfOk, OnOk, length, option_map};
ghost use Rattle.dp_laws.specs.Diagrams.Nodes.{node_at};
ghost use Rattle.relaxed_dd.specs.Shown.{layer_in, last_of};
ghost use Rattle.bound_cover.specs.Exploring.{waiting_in};
ghost use Rattle.cover_book.specs.Waits.{sub_of, waiting_of, AreOwn, AreOwnAt};

use crate::diagrams::ShownDiagram;
use crate::rows::leads_at;
use dp_model::{DpModel, OutOfMemory, Sub};
use std::alloc::Global;

/// A row that waits for its arcs: its number in its layer, and the prefix that it stands for.
#[derive(Debug, Drop)]
pub(crate) struct WaitingRow {
    pub(crate) place: usize,
    pub(crate) sub: Sub,
}

/// An exact node as a subproblem. Its bound says nothing.
fn sub_at<D: ShownDiagram>(
    alloc: Global,
    diagram: &D,
    depth: usize,
    node: usize,
) -> Result<Sub, OutOfMemory>
    requires first { (D.layers diagram.now).first ≤ depth }
    requires exact { option_map (λ n. n.exact) (node_at (D.layers diagram.now) depth node) ≡ Some true }
    ensures { IfOk result (λ sub. option_map sub_of (node_at (D.layers diagram.now) depth node) ≡ Some sub.subproblem) }
{
    let mut decisions = vec![in alloc; 0u32; depth]?;
    diagram.path(depth, node, &mut decisions);
    Ok(Sub {
        decisions,
        row: diagram.row(depth, node).to_vec(alloc)?,
        value: diagram.value(depth, node),
        bound: 0,
    })
}

/// The number of a node's row, where that of the layer's first one is `start`. It fails where no such number fits.
fn number_of(start: u32, node: usize) -> Result<usize, OutOfMemory>
    ensures { IfOk result (λ number. number ≡ start + node) }
{
    match (start as usize).checked_add(node) {
        Some(number) => Ok(number),
        None => Err(OutOfMemory),
    }
}

/// Puts a row after the others.
fn push(waiting: &mut Vec<WaitingRow>, row: WaitingRow) -> Result<(), OutOfMemory>
    ensures { OnOk result (waiting.new.items ≡ waiting.old.items ++ row ∷ []) }
{
    waiting.reserve(1)?;
    waiting.push_reserved(row);
    Ok(())
}

/// The number of the row that waits at a place.
pub(crate) fn number_at(waiting: &[WaitingRow], next: usize) -> usize
    requires { next < length waiting.now }
    ensures { option_map (λ w. w.place) (slice_get waiting.now next) ≡ Some result }
{
    waiting[next].place
}

/// The prefix of the row that waits at a place.
pub(crate) fn prefix_at(waiting: &[WaitingRow], next: usize) -> &Sub
    requires { next < length waiting.now }
    ensures { option_map (λ w. w.sub.subproblem) (slice_get waiting.now next) ≡ Some result.now.subproblem }
{
    &waiting[next].sub
}

/// Adds the nodes of a layer that lead above the claim to the waiting rows, after those that are there. The first row has the number
/// `start`.
pub(crate) fn add_waiting<M: DpModel, D: ShownDiagram>(
    alloc: Global,
    model: &M,
    claim: Option<i64>,
    diagram: &D,
    depth: usize,
    start: u32,
    waiting: &mut Vec<WaitingRow>,
) -> Result<(), OutOfMemory>
    requires first { (D.layers diagram.now).first ≤ depth }
    requires last { depth ≤ last_of (D.layers diagram.now) }
    requires nodes { AreOwnAt (M.meaning (M.numbers model.now)) (D.layers diagram.now) depth }
    requires own { AreOwn (M.meaning (M.numbers model.now)) waiting.old.items }
    ensures waiting { OnOk result (waiting_of waiting.new.items ≡ waiting_of waiting.old.items ++ waiting_in claim start (layer_in (D.layers diagram.now) depth)) }
    ensures own { OnOk result (AreOwn (M.meaning (M.numbers model.now)) waiting.new.items) }
{
    let nodes = diagram.nodes(depth);
    'nodes: for node in 0..nodes {
        if leads_at(claim, diagram, depth, node) {
            let sub = sub_at(alloc, diagram, depth, node)?;
            let place = number_of(start, node)?;
            push(waiting, WaitingRow { place, sub })?;
        }
    }
    Ok(())
}
