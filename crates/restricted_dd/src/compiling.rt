ghost use Rattle.std.specs.Prelude.{◌≡◌, is_some, Option};
ghost use Rattle.dp_model.specs.Reached.{Reached};
ghost use Rattle.layer_candidates.specs.Beaming.{IsFirst};
ghost use Rattle.std.specs.Borrow.{sem};
ghost use Rattle.dp_model.specs.Subproblem.{IsOwn};
ghost use Rattle.dp_laws.specs.Restricted.Beams.{beam, wide};
ghost use Rattle.layer_build.specs.Layers.{IsPreparedFor};
ghost use Rattle.layer_build.specs.Kept.{StaysPrepared};
ghost use Rattle.restricted_dd.specs.Beams.{ShowsBeam};

use dp_model::{DpModel, Found, Sub};
use layer_build::Workspace;

/// What a restricted diagram gives.
#[derive(Clone, Copy, Debug)]
pub struct Compiled<'w> {
    /// The beam, or none where the last layer is empty.
    pub found: Option<Found<'w>>,
    /// Whether the width took something from a layer. Where it did not, no completion of the prefix is better than both the
    /// threshold and the beam.
    pub reduced: bool,
}

/// Compiles the restricted diagram of a prefix with its own state and value, for the workspace's width. It takes no memory.
pub fn compile<'w, M: DpModel>(
    space: &'w mut Workspace,
    model: &M,
    sub: &Sub,
    threshold: Option<i64>,
) -> Compiled<'w>
    requires prepared { IsPreparedFor (M.meaning (M.numbers model.now)) space.old }
    requires own { IsOwn (M.meaning (M.numbers model.now)) sub.now.subproblem }
    ensures* kept { sem 𝓛 (StaysPrepared (M.meaning (M.numbers model.now)) space.entry) }
    ensures beam { ShowsBeam (beam (M.meaning (M.numbers model.now)) sub.now.subproblem.decisions space.old.width threshold) result.found }
    ensures reduced { result.reduced ≡ is_some (wide (M.meaning (M.numbers model.now)) sub.now.subproblem.decisions space.old.width threshold) }
{
    let beamed = space.beam(model, sub, threshold);
    Compiled {
        found: found(beamed.value, space.decisions()),
        reduced: beamed.reduced,
    }
}

/// The value, where there is one, with the decisions.
fn found<'w>(value: Option<i64>, decisions: &'w [u32]) -> Option<Found<'w>>
    ensures { (beam : Option Reached) → IsFirst beam value decisions.now → ShowsBeam beam result }
{
    match value {
        Some(value) => Some(Found { value, decisions }),
        None => None,
    }
}

/// The beam of a restricted diagram, or none where its last layer is empty: the greatest terminal value with its decisions from
/// the root, and of equal values the first in the reduction order. It takes no memory.
pub fn restricted<'w, M: DpModel>(
    space: &'w mut Workspace,
    model: &M,
    sub: &Sub,
    threshold: Option<i64>,
) -> Option<Found<'w>>
    requires prepared { IsPreparedFor (M.meaning (M.numbers model.now)) space.old }
    requires own { IsOwn (M.meaning (M.numbers model.now)) sub.now.subproblem }
    ensures* kept { sem 𝓛 (StaysPrepared (M.meaning (M.numbers model.now)) space.entry) }
    ensures beam { ShowsBeam (beam (M.meaning (M.numbers model.now)) sub.now.subproblem.decisions space.old.width threshold) result }
{
    compile(space, model, sub, threshold).found
}
