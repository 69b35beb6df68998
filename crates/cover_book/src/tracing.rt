//! The decisions by which a node of a diagram is reached.

ghost use Rattle.std.specs.Prelude.{◌≤◌, ◌<◌};

use crate::aim::Aim;
use crate::sources::{NodeRow, RowSource};
use bound_cover::{CoverArc, is_state_row};
use dp_model::{DpModel, OutOfMemory};

/// Whether a decision leads from one node to another, and adds to the value what the other one has more.
fn leads<M: DpModel>(
    aim: &Aim<M>,
    k: usize,
    from: &NodeRow,
    decision: u32,
    to: &NodeRow,
) -> Result<bool, OutOfMemory>
    requires { k < (M.meaning (M.numbers aim.now.model.now)).vars }
{
    let model = aim.model;
    if !is_state_row(model, k, from.words) || decision >= model.choices(k) {
        return Ok(false);
    }
    if !model.allowed(k, from.words, decision) {
        return Ok(false);
    }
    let gain = model.gain(k, from.words, decision);
    if i128::from(from.value) + i128::from(gain) != i128::from(to.value) {
        return Ok(false);
    }
    let mut next = vec![in aim.alloc; 0i64; model.words()]?;
    model.step(k, from.words, decision, &mut next);
    Ok(next.as_slice() == to.words)
}

/// A step from a node of a layer to one of the next layer.
#[derive(Clone, Copy)]
struct Step {
    from: usize,
    decision: u32,
}

/// The decision by which a node leads to one of the next layer; none where none does.
fn decision_to<M: DpModel>(
    aim: &Aim<M>,
    k: usize,
    from: &NodeRow,
    arcs: &[CoverArc],
    node: usize,
    to: &NodeRow,
) -> Result<Option<u32>, OutOfMemory>
    requires { k < (M.meaning (M.numbers aim.now.model.now)).vars }
{
    'arcs: for arc in arcs {
        let Some(target) = arc.target else {
            continue;
        };
        if target as usize == node && leads(aim, k, from, arc.decision, to)? {
            return Ok(Some(arc.decision));
        }
    }
    Ok(None)
}

/// The last step on a way to a node of the layer below depth `k`; none where there is no such way.
fn step_to<M: DpModel, S: RowSource>(
    aim: &Aim<M>,
    source: &S,
    k: usize,
    node: usize,
) -> Result<Option<Step>, OutOfMemory>
    requires { k < (M.meaning (M.numbers aim.now.model.now)).vars }
{
    let Some(to) = source.row(aim.claim, k + 1, node) else {
        return Ok(None);
    };
    let mut arcs = Vec::new(aim.alloc);
    'nodes: for i in 0..source.nodes(k) {
        let Some(from) = source.row(aim.claim, k, i) else {
            continue;
        };
        arcs.clear();
        source.add_arcs(k, i, &mut arcs)?;
        if let Some(decision) = decision_to(aim, k, &from, arcs.as_slice(), node, &to)? {
            return Ok(Some(Step { from: i, decision }));
        }
    }
    Ok(None)
}

/// The decisions of a way to a node, from the first variable on; none where there is no such way.
pub(crate) fn path_to<M: DpModel, S: RowSource>(
    aim: &Aim<M>,
    source: &S,
    depth: usize,
    node: usize,
) -> Result<Option<Vec<u32>>, OutOfMemory>
    requires { depth ≤ (M.meaning (M.numbers aim.now.model.now)).vars }
{
    let Some(prefix) = source.prefix() else {
        return Ok(None);
    };
    let mut back = Vec::new(aim.alloc);
    let mut place = node;
    'layers: for i in 0..depth.saturating_sub(source.first_depth()) {
        let Some(step) = step_to(aim, source, depth - 1 - i, place)? else {
            return Ok(None);
        };
        back.push(step.decision)?;
        place = step.from;
    }
    let mut decisions = prefix.to_vec(aim.alloc)?;
    'decisions: for decision in back.iter().rev() {
        decisions.push(*decision)?;
    }
    Ok(Some(decisions))
}
