ghost use Rattle.std.specs.Prelude.{◌≡◌, length};
ghost use Rattle.std.specs.Borrow.{sem};
ghost use Rattle.dp_model.specs.Reached.{reached};
ghost use Rattle.dp_model.specs.Subproblem.{IsOwn};
ghost use Rattle.dp_laws.specs.Rules.Compiling.{relaxed};
ghost use Rattle.layer_build.specs.Layers.{IsPreparedFor, diagram_of};
ghost use Rattle.relaxed_dd.specs.Building.{IsMade};
ghost use Rattle.layer_build.specs.Kept.{StaysPrepared};
ghost use Rattle.relaxed_dd.specs.Shown.{layers_of, width_of, IsDiagramOf};

use crate::building::build;
use crate::diagram::Diagram;
use crate::suffixes::set_all;
use dp_model::{DpModel, Sub};
use layer_build::Workspace;

/// Compiles the relaxed diagram of a prefix with its own state and value into the workspace, which `shown` shows. It takes no memory.
pub fn compile<M: DpModel>(space: &mut Workspace, model: &M, sub: &Sub, threshold: Option<i64>)
    requires prepared { IsPreparedFor (M.meaning (M.numbers model.now)) space.old }
    requires own { IsOwn (M.meaning (M.numbers model.now)) sub.now.subproblem }
    ensures { IsMade (M.meaning (M.numbers model.now)) sub.now.subproblem.decisions threshold space.old space.new }
{
    space.begin(model, sub);
    build(space, model, threshold);
    set_all(space, model);
}

/// The relaxed diagram of a prefix with its own state and value, for the workspace's width: layer by layer each node is
/// extended by each allowed decision, what the threshold strikes and what a leader dominates is taken out, and where a layer
/// has more nodes than the width all but the first ones are merged into one. Each node has the greatest length of a path from
/// it to the last layer. It takes no memory.
pub fn relaxed<'w, M: DpModel>(
    space: &'w mut Workspace,
    model: &M,
    sub: &Sub,
    threshold: Option<i64>,
) -> Diagram<'w>
    requires prepared { IsPreparedFor (M.meaning (M.numbers model.now)) space.old }
    requires own { IsOwn (M.meaning (M.numbers model.now)) sub.now.subproblem }
    ensures* kept { sem 𝓛 (StaysPrepared (M.meaning (M.numbers model.now)) space.entry) }
    ensures shown { layers_of result ≡ relaxed (M.meaning (M.numbers model.now)) (reached (M.meaning (M.numbers model.now)) sub.now.subproblem.decisions) space.old.width threshold }
    ensures width { width_of result ≡ space.old.width }
    ensures diagram { IsDiagramOf (M.meaning (M.numbers model.now)) result }
{
    compile(space, model, sub, threshold);
    Diagram { space }
}

/// The relaxed diagram that was compiled into the workspace, in which the rows of all layers are held.
pub fn shown(space: &Workspace) -> Diagram<'_>
    requires held { space.now.held ≡ length space.now.prefix }
    ensures shown { layers_of result ≡ diagram_of space.now }
    ensures width { width_of result ≡ space.now.width }
{
    Diagram { space }
}
