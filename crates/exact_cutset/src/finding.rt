//! The first exact node of the last layer.

ghost use Rattle.std.specs.Prelude.{◌≡◌, ◌-◌, ◌<◌, length, None};
ghost use Rattle.dp_laws.specs.Diagrams.Cutsets.{found_in};
ghost use Rattle.layer_build.specs.Layers.{diagram_of};
ghost use Rattle.relaxed_dd.specs.Shown.{last_of, layer_in};
ghost use Rattle.exact_cutset.specs.Ready.{FindsExact};

use crate::listed::Listed;
use dp_model::DpModel;
use layer_build::Workspace;

/// The place of the first exact node of the last layer, or none where it has none.
fn first_exact(space: &Workspace) -> Option<usize>
    requires { 0 < length (diagram_of space.now).layers }
    ensures { FindsExact (layer_in (diagram_of space.now) (last_of (diagram_of space.now))) result }
{
    let last = space.last_depth();
    let nodes = space.nodes(last);
    'nodes: for node in 0..nodes {
        if space.exact(last, node) {
            return Some(node);
        }
    }
    None
}

/// Puts in the solution that the diagram finds.
pub(crate) fn find<M: DpModel>(model: &M, space: &Workspace, out: &mut Listed)
    requires none { out.old.found ≡ None }
    requires some { 0 < length (diagram_of space.now).layers }
    requires last { last_of (diagram_of space.now) ≡ out.old.vars }
    requires vars { out.old.vars ≡ (M.meaning (M.numbers model.now)).vars }
    ensures { out.new ≡ record out.old { found = found_in (M.meaning (M.numbers model.now)) (diagram_of space.now) } }
{
    if let Some(node) = first_exact(space) {
        out.keep_solution(space, node);
    }
}
