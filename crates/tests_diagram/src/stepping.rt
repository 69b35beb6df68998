//! The steps by which the layers below the empty prefix are made, one by one.

ghost use Rattle.std.specs.Prelude.{◌<◌};
ghost use Rattle.dp_model.specs.Dp.{Dp};
ghost use Rattle.dp_model.specs.Subproblem.{IsOwn};
ghost use Rattle.layer_build.specs.Layers.{IsPreparedFor};
ghost use Rattle.layer_build.specs.UnderWay.{IsUnderWay};

use crate::roots::{THREE_ITEMS, instance, root_of, space_for};
use dp_model::{DpModel, Sub};
use knapsack::Knapsack;
use layer_build::Workspace;
use std::alloc::Global;
use std::process::Abort;

/// Makes the next layer where the last one is the first, or stands just below it.
fn expand<M: DpModel>(space: &mut Workspace, model: &M)
    requires { IsUnderWay (M.meaning (M.numbers model.now)) space.old }
    ensures { IsUnderWay (M.meaning (M.numbers model.now)) space.new }
{
    let last = space.last_depth();
    if last >= model.vars() || last - space.first_depth() >= 2 {
        return;
    }
    space.expand_layer(model);
}

/// Merges the last layer where it is wider than the width.
fn merge<M: DpModel>(space: &mut Workspace, model: &M)
    requires { IsUnderWay (M.meaning (M.numbers model.now)) space.old }
    ensures { IsUnderWay (M.meaning (M.numbers model.now)) space.new }
{
    if space.nodes(space.last_depth()) <= space.width() {
        return;
    }
    space.merge_rest(model);
}

/// Keeps the first nodes of the last layer where it is wider than the width.
fn keep(space: &mut Workspace)
    requires { (dp : Dp) × IsUnderWay dp space.old }
    ensures { (dp : Dp) → IsUnderWay dp space.old → IsUnderWay dp space.new }
{
    if space.nodes(space.last_depth()) <= space.width() {
        return;
    }
    space.keep_first();
}

/// How many rows are held after the start, after the first layer is made and struck, after the second one is made, struck and
/// merged, and after those above it are dropped.
fn holds_rows<M: DpModel>(
    rt: &impl Abort,
    space: &mut Workspace,
    model: &M,
    sub: &Sub,
    threshold: Option<i64>,
    wanted: [usize; 6],
)
    requires prepared { IsPreparedFor (M.meaning (M.numbers model.now)) space.old }
    requires own { IsOwn (M.meaning (M.numbers model.now)) sub.now.subproblem }
{
    space.begin(model, sub);
    let begun = space.live_rows();
    expand(space, model);
    space.strike(model, threshold);
    let first = space.live_rows();
    expand(space, model);
    let second = space.live_rows();
    space.strike(model, threshold);
    let struck = space.live_rows();
    merge(space, model);
    let merged = space.live_rows();
    space.drop_above();
    let found = [begun, first, second, struck, merged, space.live_rows()];
    assert_eq!(rt; found, wanted);
}

/// The rows that are held below the empty prefix, at a width of 1 and a threshold of 110.
fn holds_rows_below_root<M: DpModel>(rt: &impl Abort, alloc: Global, model: &M, wanted: [usize; 6])
    requires { 0 < (M.meaning (M.numbers model.now)).vars }
{
    let root = root_of(rt, alloc, model);
    let mut space = space_for(rt, alloc, model, 1);
    holds_rows(rt, &mut space, model, &root, Some(110), wanted);
}

/// After two layers are made and struck and the second one is kept to the width: how many nodes it has, and the value and the
/// decisions of its first exact node.
fn keeps_first<M: DpModel>(
    rt: &impl Abort,
    space: &mut Workspace,
    model: &M,
    sub: &Sub,
    threshold: Option<i64>,
    wanted: (usize, i64, &[u32]),
)
    requires prepared { IsPreparedFor (M.meaning (M.numbers model.now)) space.old }
    requires own { IsOwn (M.meaning (M.numbers model.now)) sub.now.subproblem }
{
    space.begin(model, sub);
    expand(space, model);
    space.strike(model, threshold);
    expand(space, model);
    space.strike(model, threshold);
    keep(space);
    let nodes = space.nodes(space.last_depth());
    let found = space.first_exact();
    let found = found.map(|found| (nodes, found.value, found.decisions));
    assert_eq!(rt; found, Some(wanted));
}

/// What is kept of the second layer below the empty prefix, at a width of 1 and a threshold of 110.
fn keeps_first_below_root<M: DpModel>(
    rt: &impl Abort,
    alloc: Global,
    model: &M,
    wanted: (usize, i64, &[u32]),
)
    requires { 0 < (M.meaning (M.numbers model.now)).vars }
{
    let root = root_of(rt, alloc, model);
    let mut space = space_for(rt, alloc, model, 1);
    keeps_first(rt, &mut space, model, &root, Some(110), wanted);
}

#[test]
fn rows_are_held_as_layers_are_made(rt: HostRuntime) {
    let model: Knapsack = instance(&rt, rt.alloc(), THREE_ITEMS);
    holds_rows_below_root(&rt, rt.alloc(), &model, [1, 3, 7, 6, 4, 1]);
}

#[test]
fn the_first_nodes_are_kept(rt: HostRuntime) {
    let model: Knapsack = instance(&rt, rt.alloc(), THREE_ITEMS);
    keeps_first_below_root(&rt, rt.alloc(), &model, (1, 110, &[1, 1]));
}
