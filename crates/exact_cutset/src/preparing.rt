ghost use Rattle.std.specs.Prelude.{◌≡◌, ◌<◌, ◌≤◌, ◌*◌, ◌^◌, IfOk};
ghost use Rattle.dp_model.specs.declared.limits.TheConstants.{MOST_WIDTH};
ghost use Rattle.layer_build.specs.Layers.{IsWidth};
ghost use Rattle.relaxed_dd.specs.Cut.{IsWideEnough};
ghost use Rattle.exact_cutset.specs.Prepared.{IsListPreparedFor, IsListPrepared, room_for};

use crate::filled::Children;
use crate::listed::Listed;
use dp_model::{CutKind, DpModel, OutOfMemory};
use layer_build::{PrepareError, greatest_width};
use relaxed_dd::widest_layer;
use std::alloc::Global;

/// How many children of the kind a diagram leaves at most whose layers have this many nodes.
fn room_for<M: DpModel>(model: &M, kind: CutKind, wide: usize) -> usize
    requires { wide ≤ MOST_WIDTH }
    ensures room { result ≡ room_for (M.meaning (M.numbers model.now)) kind wide }
    ensures few { result ≤ 2 ^ 34 }
{
    match kind {
        CutKind::LastExactLayer => wide,
        CutKind::Frontier => model.vars() * wide,
    }
}

/// A list with room for the children of the kind where layers have this many nodes.
fn prepare_list<M: DpModel>(
    alloc: Global,
    model: &M,
    width: usize,
    kind: CutKind,
    wide: usize,
) -> Result<Listed, OutOfMemory>
    requires width { IsWidth (M.meaning (M.numbers model.now)) width }
    requires enough { IsWideEnough (M.meaning (M.numbers model.now)) width (M.meaning (M.numbers model.now)).vars wide }
    requires few { wide ≤ MOST_WIDTH }
    ensures prepared { IfOk result (λ c. IsListPreparedFor (M.meaning (M.numbers model.now)) width kind c) }
    ensures wide { IfOk result (λ c. c.wide ≡ wide) }
{
    let words = model.words();
    let vars = model.vars();
    let room = room_for(model, kind, wide);
    Ok(Listed {
        width,
        words,
        vars,
        wide,
        room,
        places: Vec::with_capacity(alloc, room)?,
        rows: Vec::with_capacity(alloc, room * words)?,
        paths: Vec::with_capacity(alloc, room * vars)?,
        found: None,
        decisions: vec![in alloc; 0u32; vars]?,
        path: vec![in alloc; 0u32; vars]?,
    })
}

impl Children {
    /// A list for the children of the kind of diagrams of the model and the width, which is at least 1 and at most the greatest
    /// one. There is room for as many children as a layer has nodes, and of the frontier for as many as all layers have.
    pub fn prepare<M: DpModel>(
        alloc: Global,
        model: &M,
        width: u32,
        kind: CutKind,
    ) -> Result<Children, PrepareError>
        ensures { IsListPrepared (M.meaning (M.numbers model.now)) width kind result }
    {
        if width == 0 || width > greatest_width(model) {
            return Err(PrepareError::Width);
        }
        match Children::make(alloc, model, width as usize, kind) {
            Ok(children) => Ok(children),
            Err(_) => Err(PrepareError::OutOfMemory),
        }
    }

    /// A list for a width that fits.
    fn make<M: DpModel>(
        alloc: Global,
        model: &M,
        width: usize,
        kind: CutKind,
    ) -> Result<Children, OutOfMemory>
        requires { IsWidth (M.meaning (M.numbers model.now)) width }
        ensures { IfOk result (λ c. IsListPreparedFor (M.meaning (M.numbers model.now)) width kind c) }
    {
        let wide = widest_layer(model, width);
        Ok(Children {
            list: prepare_list(alloc, model, width, kind, wide)?,
            above: Vec::with_capacity(alloc, wide)?,
            here: Vec::with_capacity(alloc, wide)?,
        })
    }
}
