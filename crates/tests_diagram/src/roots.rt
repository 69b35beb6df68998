//! Instances of short texts, with their empty prefixes and the memory for a diagram of them.

ghost use Rattle.std.specs.Prelude.{◌≡◌, ◌<◌};
ghost use Rattle.dp_model.specs.Subproblem.{IsOwn};
ghost use Rattle.layer_build.specs.Layers.{IsPreparedFor};

use dp_model::{DpModel, Sub};
use layer_build::Workspace;
use problem_theory::Problem;
use std::alloc::Global;
use std::process::Abort;

/// Three items in a room of 10.
pub const THREE_ITEMS: &[u8] = b"3 10\n60 5\n50 4\n70 6\n";

/// The text's instance, which has variables.
pub fn instance<P: Problem>(rt: &impl Abort, alloc: Global, text: &[u8]) -> P
    ensures { 0 < (P.meaning (P.numbers result)).vars }
{
    assert!(rt; text.len() < 1000);
    let model = P::read(alloc, text).expect(rt, "an instance");
    assert!(rt; model.vars() > 0);
    model
}

/// The empty prefix of a problem with variables.
pub fn root_of<M: DpModel>(rt: &impl Abort, alloc: Global, model: &M) -> Sub
    requires { 0 < (M.meaning (M.numbers model.now)).vars }
    ensures { IsOwn (M.meaning (M.numbers model.now)) result.subproblem }
{
    let mut row = vec![in alloc; 0i64; model.words()].expect(rt, "a row");
    model.root(row.as_mut_slice());
    Sub {
        decisions: Vec::new(alloc),
        row,
        value: model.root_value(),
        bound: 0,
    }
}

/// A workspace for the model and the width.
pub fn space_for<M: DpModel>(rt: &impl Abort, alloc: Global, model: &M, width: u32) -> Workspace
    ensures prepared { IsPreparedFor (M.meaning (M.numbers model.now)) result }
    ensures width { result.width ≡ width }
{
    Workspace::prepare(alloc, model, width).expect(rt, "a workspace")
}
