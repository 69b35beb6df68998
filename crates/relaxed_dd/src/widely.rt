//! The same diagrams, whose layers are expanded by an expander of the caller.

ghost use Rattle.std.specs.Prelude.{◌≡◌, ◌+◌, ◌<◌, ◌≤◌, length};
ghost use Rattle.std.specs.Borrow.{sem};
ghost use Rattle.dp_model.specs.Reached.{reached};
ghost use Rattle.dp_model.specs.Subproblem.{IsOwn};
ghost use Rattle.dp_laws.specs.Rules.Compiling.{relaxed};
ghost use Rattle.layer_build.specs.Kept.{StaysPrepared};
ghost use Rattle.layer_build.specs.Layers.{IsPreparedFor, last_depth, last_layer};
ghost use Rattle.layer_build.specs.UnderWay.{IsUnderWay};
ghost use Rattle.relaxed_dd.specs.Building.{HasBuilt, HasCompiled, IsMade, IsStarted};
ghost use Rattle.relaxed_dd.specs.Shown.{layers_of, width_of, IsDiagramOf};

use crate::building::is_next_reduced;
use crate::diagram::Diagram;
use crate::suffixes::set_all;
use dp_model::{DpModel, Sub};
use layer_build::Workspace;
use std::thread::Threads;
use wide_layers::Expander;

/// Builds the next layer.
pub(super) fn build_layer<M: DpModel, R: Threads + Sync>(
    space: &mut Workspace,
    model: &M,
    threshold: Option<i64>,
    expander: &mut Expander<'_, R>,
)
    requires under_way { IsUnderWay (M.meaning (M.numbers model.now)) space.old }
    requires some { 0 < length space.old.layers }
    requires below { last_depth space.old < (M.meaning (M.numbers model.now)).vars }
    requires narrow { length space.old.prefix + 2 ≤ last_depth space.old → length (last_layer space.old.layers) ≤ space.old.width }
    ensures { HasBuilt (M.meaning (M.numbers model.now)) threshold space.old space.new }
{
    if is_next_reduced(space, model) {
        expander.expand_within(space, model, threshold);
    } else {
        expander.expand_pruned(space, model, threshold);
    }
}

/// Builds all layers below the first one.
fn build<M: DpModel, R: Threads + Sync>(
    space: &mut Workspace,
    model: &M,
    threshold: Option<i64>,
    expander: &mut Expander<'_, R>,
)
    requires under_way { IsUnderWay (M.meaning (M.numbers model.now)) space.old }
    requires started { IsStarted (M.meaning (M.numbers model.now)) space.old }
    ensures { HasCompiled (M.meaning (M.numbers model.now)) threshold space.old space.new }
{
    let first = space.first_depth();
    let vars = model.vars();
    'layers: for _ in first..vars {
        build_layer(space, model, threshold, expander);
    }
}

/// Compiles the relaxed diagram as `compile` does, and expands its layers by the expander.
pub fn compile_with<M: DpModel, R: Threads + Sync>(
    space: &mut Workspace,
    model: &M,
    sub: &Sub,
    threshold: Option<i64>,
    expander: &mut Expander<'_, R>,
)
    requires prepared { IsPreparedFor (M.meaning (M.numbers model.now)) space.old }
    requires own { IsOwn (M.meaning (M.numbers model.now)) sub.now.subproblem }
    ensures { IsMade (M.meaning (M.numbers model.now)) sub.now.subproblem.decisions threshold space.old space.new }
{
    space.begin(model, sub);
    build(space, model, threshold, expander);
    set_all(space, model);
}

/// The relaxed diagram of a prefix with its own state and value, as `relaxed` gives it. Its layers are expanded by the
/// expander.
pub fn relaxed_with<'w, M: DpModel, R: Threads + Sync>(
    space: &'w mut Workspace,
    model: &M,
    sub: &Sub,
    threshold: Option<i64>,
    expander: &mut Expander<'_, R>,
) -> Diagram<'w>
    requires prepared { IsPreparedFor (M.meaning (M.numbers model.now)) space.old }
    requires own { IsOwn (M.meaning (M.numbers model.now)) sub.now.subproblem }
    ensures* kept { sem 𝓛 (StaysPrepared (M.meaning (M.numbers model.now)) space.entry) }
    ensures shown { layers_of result ≡ relaxed (M.meaning (M.numbers model.now)) (reached (M.meaning (M.numbers model.now)) sub.now.subproblem.decisions) space.old.width threshold }
    ensures width { width_of result ≡ space.old.width }
    ensures diagram { IsDiagramOf (M.meaning (M.numbers model.now)) result }
{
    compile_with(space, model, sub, threshold, expander);
    Diagram { space }
}
