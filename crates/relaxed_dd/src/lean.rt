//! The same diagrams, whose rows are given back layer by layer.

ghost use Rattle.std.specs.Prelude.{◌≡◌, ◌+◌, ◌<◌, ◌≤◌, length};
ghost use Rattle.dp_model.specs.Subproblem.{IsOwn};
ghost use Rattle.layer_build.specs.Layers.{IsPreparedFor, last_depth, last_layer};
ghost use Rattle.layer_build.specs.UnderWay.{IsUnderWay};
ghost use Rattle.relaxed_dd.specs.Building.{IsStarted};
ghost use Rattle.relaxed_dd.specs.Cut.{HasCutRoom};
ghost use Rattle.relaxed_dd.specs.Lean.{rows_above, cut_at, MayCopy, HasBuiltLean, HasCompiledLean, IsMadeLean};

use crate::cut::CutRows;
use crate::suffixes::set_all;
use crate::widely::build_layer;
use dp_model::{DpModel, Sub};
use layer_build::Workspace;
use std::thread::Threads;
use wide_layers::Expander;

/// Copies the rows of the layer above the last one.
fn copy_above(space: &Workspace, cut: &mut CutRows)
    requires { MayCopy space.now cut.old }
    ensures { cut.new ≡ record cut.old { rows = rows_above space.now } }
{
    let above = space.last_depth() - 1;
    cut.clear();
    'nodes: for node in 0..space.nodes(above) {
        cut.keep(space.row(above, node));
    }
}

/// Copies the rows of the layer above the last one where the last one is the first reduced layer. `whole` tells that no layer
/// before it was reduced.
fn keep_cut(space: &Workspace, whole: bool, cut: &mut CutRows)
    requires { MayCopy space.now cut.old }
    ensures { cut.new ≡ cut_at whole space.now cut.old }
{
    if whole && space.first_reduced().is_some() {
        copy_above(space, cut);
    }
}

/// Builds the next layer, and gives back the rows of those above it.
fn build_lean_layer<M: DpModel, R: Threads + Sync>(
    space: &mut Workspace,
    model: &M,
    threshold: Option<i64>,
    cut: &mut CutRows,
    expander: &mut Expander<'_, R>,
)
    requires under_way { IsUnderWay (M.meaning (M.numbers model.now)) space.old }
    requires some { 0 < length space.old.layers }
    requires below { last_depth space.old < (M.meaning (M.numbers model.now)).vars }
    requires narrow { length space.old.prefix + 2 ≤ last_depth space.old → length (last_layer space.old.layers) ≤ space.old.width }
    requires held { space.old.held ≤ last_depth space.old }
    requires room { HasCutRoom (M.meaning (M.numbers model.now)) space.old.width cut.old }
    ensures { HasBuiltLean (M.meaning (M.numbers model.now)) threshold space.old space.new cut.old cut.new }
{
    let whole = space.first_reduced().is_none();
    build_layer(space, model, threshold, expander);
    keep_cut(space, whole, cut);
    space.drop_above();
}

/// Builds all layers below the first one.
fn build<M: DpModel, R: Threads + Sync>(
    space: &mut Workspace,
    model: &M,
    threshold: Option<i64>,
    cut: &mut CutRows,
    expander: &mut Expander<'_, R>,
)
    requires under_way { IsUnderWay (M.meaning (M.numbers model.now)) space.old }
    requires started { IsStarted (M.meaning (M.numbers model.now)) space.old }
    requires held { space.old.held ≤ last_depth space.old }
    requires room { HasCutRoom (M.meaning (M.numbers model.now)) space.old.width cut.old }
    ensures { HasCompiledLean (M.meaning (M.numbers model.now)) threshold space.old space.new cut.new }
{
    let first = space.first_depth();
    let vars = model.vars();
    'layers: for _ in first..vars {
        build_lean_layer(space, model, threshold, cut, expander);
    }
}

/// Compiles the relaxed diagram as `compile_with` does, but once a layer is built the rows of the layers above it are held no
/// longer. `cut` has the rows of the last exact layer then, where a layer was reduced; it was prepared for the model and the
/// width. All else of the diagram is read from the workspace. It takes no memory but the expander's.
pub fn compile_lean<M: DpModel, R: Threads + Sync>(
    space: &mut Workspace,
    model: &M,
    sub: &Sub,
    threshold: Option<i64>,
    cut: &mut CutRows,
    expander: &mut Expander<'_, R>,
)
    requires prepared { IsPreparedFor (M.meaning (M.numbers model.now)) space.old }
    requires own { IsOwn (M.meaning (M.numbers model.now)) sub.now.subproblem }
    requires cut { HasCutRoom (M.meaning (M.numbers model.now)) space.old.width cut.old }
    ensures { IsMadeLean (M.meaning (M.numbers model.now)) sub.now.subproblem.decisions threshold space.old space.new cut.new }
{
    space.begin(model, sub);
    build(space, model, threshold, cut, expander);
    set_all(space, model);
}
