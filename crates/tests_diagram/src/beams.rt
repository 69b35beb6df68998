//! The worked beams, and beams of problems whose best value is known.

ghost use Rattle.std.specs.Prelude.{◌<◌};
ghost use Rattle.dp_model.specs.Subproblem.{IsOwn};
ghost use Rattle.layer_build.specs.Layers.{IsPreparedFor};

use crate::roots::{THREE_ITEMS, instance, root_of, space_for};
use dp_model::{CutKind, DpModel, Sub};
use exact_cutset::Children;
use knapsack::Knapsack;
use layer_build::{PrepareError, Workspace, greatest_width};
use max_cut::MaxCut;
use pair_problem::PairModel;
use restricted_dd::restricted;
use std::alloc::Global;
use std::process::Abort;

/// A width, a threshold, and the beam: the value and the decisions, or none.
type Beam = (u32, Option<i64>, Option<(i64, &'static [u32])>);

/// The beam below a prefix of its own.
fn is_beam<M: DpModel>(
    rt: &impl Abort,
    space: &mut Workspace,
    model: &M,
    sub: &Sub,
    threshold: Option<i64>,
    wanted: Option<(i64, &[u32])>,
)
    requires prepared { IsPreparedFor (M.meaning (M.numbers model.now)) space.old }
    requires own { IsOwn (M.meaning (M.numbers model.now)) sub.now.subproblem }
{
    let found = restricted(space, model, sub, threshold);
    let found = found.map(|found| (found.value, found.decisions));
    assert_eq!(rt; found, wanted);
}

/// The beam below the empty prefix.
fn has_beam<M: DpModel>(rt: &impl Abort, alloc: Global, model: &M, beam: Beam)
    requires { 0 < (M.meaning (M.numbers model.now)).vars }
{
    let (width, threshold, wanted) = beam;
    let root = root_of(rt, alloc, model);
    let mut space = space_for(rt, alloc, model, width);
    is_beam(rt, &mut space, model, &root, threshold, wanted);
}

#[test]
fn knapsacks_have_their_beams(rt: HostRuntime) {
    let model: Knapsack = instance(&rt, rt.alloc(), THREE_ITEMS);
    has_beam(&rt, rt.alloc(), &model, (1, None, Some((110, &[1, 1, 0]))));
    has_beam(&rt, rt.alloc(), &model, (3, None, Some((120, &[0, 1, 1]))));
    has_beam(&rt, rt.alloc(), &model, (1, Some(121), None));
}

#[test]
fn wide_beams_are_best(rt: HostRuntime) {
    let model: PairModel<MaxCut> = instance(&rt, rt.alloc(), b"3 3\n1 2 3\n2 3 1\n1 3 2\n");
    has_beam(&rt, rt.alloc(), &model, (8, None, Some((5, &[0, 1, 1]))));
    let model: PairModel<MaxCut> = instance(
        &rt,
        rt.alloc(),
        b"4 4\n1 2 -2\n1 4 7\n2 3 4\n3 4 -4\n",
    );
    has_beam(
        &rt,
        rt.alloc(),
        &model,
        (8, None, Some((11, &[0, 0, 1, 1]))),
    );
}

/// There is no workspace and no list of children for the width.
fn is_refused<M: DpModel>(rt: &impl Abort, alloc: Global, model: &M, width: u32) {
    let space = Workspace::prepare(alloc, model, width).err();
    let list = Children::prepare(alloc, model, width, CutKind::LastExactLayer).err();
    let refused = Some(PrepareError::Width);
    assert_eq!(rt; (space, list), (refused, refused), "at {width}");
}

#[test]
fn widths_out_of_range_are_refused(rt: HostRuntime) {
    let model: Knapsack = instance(&rt, rt.alloc(), THREE_ITEMS);
    is_refused(&rt, rt.alloc(), &model, 0);
    let greatest = greatest_width(&model);
    is_refused(&rt, rt.alloc(), &model, greatest.saturating_add(1));
}
