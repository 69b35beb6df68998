//! Candidates that are made ahead, and diagrams whose layers are expanded in pieces, beside those that are made plainly.

ghost use Rattle.std.specs.Prelude.{◌<◌};
ghost use Rattle.dp_model.specs.Subproblem.{IsOwn};
ghost use Rattle.layer_build.specs.Layers.{IsPreparedFor};

use crate::relaxing::has_nodes;
use crate::roots::{THREE_ITEMS, instance, root_of, space_for};
use dp_model::{DpModel, MOST_LAYER_PARTS, Sub};
use knapsack::Knapsack;
use layer_build::Workspace;
use relaxed_dd::{Diagram, relaxed, relaxed_with};
use std::alloc::Global;
use std::process::Abort;
use std::thread::Threads;
use wide_layers::{Expander, candidates};

/// Twelve items whose weights are the powers of two, each worth what it weighs, in a room for all of them: each choice of items
/// leaves another room, and no choice is better than another.
const POWERS: &[u8] =
    b"12 4095\n1 1\n2 2\n4 4\n8 8\n16 16\n32 32\n64 64\n128 128\n256 256\n512 512\n1024 1024\n2048 2048\n";

/// A width at which layers are reduced that are wide enough for pieces.
const WIDTH: u32 = 300;

/// How many nodes a depth has, and the value and the suffix of the first one.
fn first_of(rt: &impl Abort, diagram: &Diagram, depth: usize) -> (usize, i64, Option<i64>) {
    assert!(rt; diagram.first_depth() <= depth && depth <= diagram.last_depth());
    let count = diagram.nodes(depth);
    assert!(rt; has_nodes(diagram, depth));
    (count, diagram.value(depth, 0), diagram.suffix(depth, 0))
}

/// The diagram in this many parts is the plain one, as far as it is told. Layer 8 has as many nodes as eight items have choices, and
/// layer 9 is the first one that is reduced.
fn is_same_in_parts<R: Abort + Threads + Sync, M: DpModel>(
    rt: &R,
    alloc: Global,
    model: &M,
    parts: u32,
)
    requires { 0 < (M.meaning (M.numbers model.now)).vars }
{
    assert!(rt; parts > 0 && parts <= MOST_LAYER_PARTS);
    let root = root_of(rt, alloc, model);
    let mut plain_space = space_for(rt, alloc, model, WIDTH);
    let mut wide_space = space_for(rt, alloc, model, WIDTH);
    let mut expander = Expander::in_parts(rt, alloc, parts);
    let plain = relaxed(&mut plain_space, model, &root, None);
    let wide = relaxed_with(&mut wide_space, model, &root, None, &mut expander);
    assert_eq!(rt; first_of(rt, &wide, 8).0, 256);
    assert_eq!(rt; wide.first_reduced(), Some(9));
    assert_eq!(rt; plain.first_reduced(), Some(9));
    for depth in 0..13 {
        assert_eq!(rt; first_of(rt, &wide, depth), first_of(rt, &plain, depth));
    }
}

/// A candidate of the root by the decision: what it gains, and the room that it leaves.
fn is_candidate<M: DpModel>(
    rt: &impl Abort,
    alloc: Global,
    model: &M,
    space: &mut Workspace,
    root: &Sub,
    wanted: (usize, u32, Option<i64>, i64),
)
    requires prepared { IsPreparedFor (M.meaning (M.numbers model.now)) space.old }
    requires own { IsOwn (M.meaning (M.numbers model.now)) root.now.subproblem }
{
    let (place, decision, gain, room) = wanted;
    space.begin(model, root);
    let piece = candidates(alloc, space, model, 0, 1).expect(rt, "candidates");
    assert_eq!(rt; piece.len(), 2);
    assert!(rt; place < piece.len());
    let mut left = [0i64];
    let told = piece.tell(place, root.row.as_slice(), decision, &mut left);
    assert_eq!(rt; (told.map(|told| told.gain), left), (gain, [room]));
}

/// The candidates of the root of three items: the first item is left or taken.
fn are_candidates<M: DpModel>(rt: &impl Abort, alloc: Global, model: &M)
    requires { 0 < (M.meaning (M.numbers model.now)).vars }
{
    let root = root_of(rt, alloc, model);
    for wanted in [(0, 0, Some(0), 10), (1, 1, Some(60), 5), (0, 1, None, 0)] {
        let mut space = space_for(rt, alloc, model, 1);
        is_candidate(rt, alloc, model, &mut space, &root, wanted);
    }
}

#[test]
fn a_diagram_in_parts_is_the_plain_one(rt: HostRuntime) {
    let model: Knapsack = instance(&rt, rt.alloc(), POWERS);
    for parts in [1, 2, 7, 64] {
        is_same_in_parts(&rt, rt.alloc(), &model, parts);
    }
}

#[test]
fn the_candidates_of_the_root_stand_in_order(rt: HostRuntime) {
    let model: Knapsack = instance(&rt, rt.alloc(), THREE_ITEMS);
    are_candidates(&rt, rt.alloc(), &model);
}
