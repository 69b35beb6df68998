//! Exploration: each row that waits gets a diagram, one after another.

ghost use Rattle.std.specs.Prelude.{◌≡◌, ◌+◌, ◌<◌, ◌≤◌, ◌++◌, None, IfOk, OnOk, length, slice_get, replicate};
ghost use Rattle.bound_cover.specs.Exploring.{start_cover, start_waiting};
ghost use Rattle.cover_book.specs.Waits.{waiting_of, AreOwn};
ghost use Rattle.cover_book.specs.Steps.{waits_after, CutIsOwn, IsDiagramAt, IsPutAt};

use crate::adding::{add_layers, last_needed, rows_at, set_root_arcs};
use crate::claims::rest_of;
use crate::diagrams::ShownDiagram;
use crate::drafting::{DraftLayer, DraftRow};
use crate::waiting::{WaitingRow, add_waiting, number_at};
use dp_model::{DpModel, OutOfMemory, Sub};
use std::alloc::Global;

/// Adds the nodes of the last exact layer that lead above the claim to the waiting rows, after those that are there.
fn add_cut<M: DpModel, D: ShownDiagram>(
    alloc: Global,
    model: &M,
    claim: Option<i64>,
    diagram: &D,
    rows: &[DraftLayer],
    waiting: &mut Vec<WaitingRow>,
) -> Result<(), OutOfMemory>
    requires cut { CutIsOwn (M.meaning (M.numbers model.now)) (D.layers diagram.now) (D.layers diagram.now).first_reduced }
    requires own { AreOwn (M.meaning (M.numbers model.now)) waiting.old.items }
    ensures waiting { OnOk result (waiting_of waiting.new.items ≡ waiting_of waiting.old.items ++ waits_after claim (D.layers diagram.now) rows.now (D.layers diagram.now).first_reduced) }
    ensures own { OnOk result (AreOwn (M.meaning (M.numbers model.now)) waiting.new.items) }
{
    let Some(reduced) = diagram.first_reduced() else {
        return Ok(());
    };
    let start = rows_at(rows, reduced - 1)?;
    add_waiting(alloc, model, claim, diagram, reduced - 1, start, waiting)
}

/// Puts a diagram into the cover, for the row that waits at a place.
pub(crate) fn put_in<M: DpModel, D: ShownDiagram>(
    alloc: Global,
    model: &M,
    claim: Option<i64>,
    diagram: &D,
    next: usize,
    rows: &mut Vec<DraftLayer>,
    waiting: &mut Vec<WaitingRow>,
) -> Result<(), OutOfMemory>
    requires next { next < length waiting.old.items }
    requires diagram { IsDiagramAt (M.meaning (M.numbers model.now)) claim (slice_get waiting.old.items next) (D.layers diagram.now) }
    requires long { length rows.old.items ≡ (M.meaning (M.numbers model.now)).vars + 1 }
    requires own { AreOwn (M.meaning (M.numbers model.now)) waiting.old.items }
    ensures put { OnOk result (IsPutAt (M.meaning (M.numbers model.now)) claim (slice_get waiting.old.items next) (D.layers diagram.now) rows.old.items (waiting_of waiting.old.items) rows.new.items (waiting_of waiting.new.items)) }
    ensures own { OnOk result (AreOwn (M.meaning (M.numbers model.now)) waiting.new.items) }
{
    let place = number_at(waiting.as_slice(), next);
    add_cut(alloc, model, claim, diagram, rows.as_slice(), waiting)?;
    set_root_arcs(alloc, diagram, place, rows)?;
    let end = last_needed(claim, diagram) + 1;
    add_layers(alloc, model, claim, diagram, end, rows)?;
    Ok(())
}

/// The cover before an exploration: one row for the root.
pub(crate) fn start_rows<M: DpModel>(
    alloc: Global,
    model: &M,
    claim: Option<i64>,
) -> Result<Vec<DraftLayer>, OutOfMemory>
    ensures { IfOk result (λ rows. rows.items ≡ start_cover (M.meaning (M.numbers model.now)) claim) }
{
    let vars = model.vars();
    let mut words = vec![in alloc; 0i64; model.words()]?;
    model.root(&mut words);
    let bound = rest_of(claim, model.root_value());
    let mut top = DraftLayer::new(alloc);
    top.push(DraftRow {
        bound,
        words,
        arcs: None,
    })?;
    let mut rows = Vec::with_capacity(alloc, vars + 1)?;
    rows.push_reserved(top);
    'layers: for _ in 0..vars {
        rows.push_reserved(DraftLayer::new(alloc));
    }
    Ok(rows)
}

/// What waits before an exploration: the root, where there is something to decide.
pub(crate) fn start_waiting<M: DpModel>(
    alloc: Global,
    model: &M,
) -> Result<Vec<WaitingRow>, OutOfMemory>
    ensures waiting { IfOk result (λ waiting. waiting_of waiting.items ≡ start_waiting (M.meaning (M.numbers model.now))) }
    ensures own { IfOk result (λ waiting. AreOwn (M.meaning (M.numbers model.now)) waiting.items) }
{
    let mut waiting = Vec::new(alloc);
    if model.vars() == 0 {
        return Ok(waiting);
    }
    let mut row = vec![in alloc; 0i64; model.words()]?;
    model.root(&mut row);
    let sub = Sub {
        decisions: Vec::new(alloc),
        row,
        value: model.root_value(),
        bound: 0,
    };
    waiting.push(WaitingRow { place: 0, sub })?;
    Ok(waiting)
}
