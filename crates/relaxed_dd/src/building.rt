//! The layers of a relaxed diagram, from the first to the last.

ghost use Rattle.std.specs.Prelude.{◌≡◌, ◌+◌, ◌<◌, ◌≤◌, length};
ghost use Rattle.dp_laws.specs.Restricted.Beam.{is_reduced};
ghost use Rattle.layer_build.specs.Layers.{last_depth, last_layer};
ghost use Rattle.layer_build.specs.UnderWay.{IsUnderWay};
ghost use Rattle.relaxed_dd.specs.Building.{HasBuilt, HasCompiled, IsStarted};

use dp_model::DpModel;
use layer_build::Workspace;

/// Whether the next layer is reduced where it is too wide: not the one below the first, and not the last.
pub(super) fn is_next_reduced<M: DpModel>(space: &Workspace, model: &M) -> bool
    requires first { length space.now.prefix ≤ last_depth space.now }
    requires below { last_depth space.now < (M.meaning (M.numbers model.now)).vars }
    ensures { result ≡ is_reduced (M.meaning (M.numbers model.now)) (length space.now.prefix) (last_depth space.now + 1) }
{
    let depth = space.last_depth();
    space.first_depth() < depth && model.vars() - depth >= 2
}

/// Builds the next layer.
fn build_layer<M: DpModel>(space: &mut Workspace, model: &M, threshold: Option<i64>)
    requires under_way { IsUnderWay (M.meaning (M.numbers model.now)) space.old }
    requires some { 0 < length space.old.layers }
    requires below { last_depth space.old < (M.meaning (M.numbers model.now)).vars }
    requires narrow { length space.old.prefix + 2 ≤ last_depth space.old → length (last_layer space.old.layers) ≤ space.old.width }
    ensures { HasBuilt (M.meaning (M.numbers model.now)) threshold space.old space.new }
{
    if is_next_reduced(space, model) {
        space.expand_within(model, threshold);
    } else {
        space.expand_pruned(model, threshold);
    }
}

/// Builds all layers below the first one.
pub fn build<M: DpModel>(space: &mut Workspace, model: &M, threshold: Option<i64>)
    requires under_way { IsUnderWay (M.meaning (M.numbers model.now)) space.old }
    requires started { IsStarted (M.meaning (M.numbers model.now)) space.old }
    ensures { HasCompiled (M.meaning (M.numbers model.now)) threshold space.old space.new }
{
    let first = space.first_depth();
    let vars = model.vars();
    'layers: for _ in first..vars {
        build_layer(space, model, threshold);
    }
}
