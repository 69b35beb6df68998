//! The children of a last exact layer whose rows alone were kept, beside those of the whole diagram.

ghost use Rattle.std.specs.Prelude.{◌<◌};
ghost use Rattle.dp_model.specs.Subproblem.{IsOwn};

use crate::roots::{instance, root_of, space_for};
use dp_model::{CutKind, DpModel, Sub};
use exact_cutset::{Children, children, cut_children};
use max_cut::MaxCut;
use pair_problem::PairModel;
use relaxed_dd::{CutRows, compile_lean, relaxed};
use std::alloc::Global;
use std::process::Abort;
use std::thread::Threads;
use wide_layers::Expander;

/// Six vertices, with an edge between any two.
const SIX_VERTICES: &[u8] =
    b"6 15\n1 2 3\n1 3 5\n1 4 -6\n1 5 2\n1 6 4\n2 3 7\n2 4 -2\n2 5 8\n2 6 1\n3 4 6\n3 5 -4\n3 6 9\n4 5 11\n4 6 -3\n5 6 10\n";

/// The children of the last exact layer of the whole diagram of the prefix.
fn whole_children<M: DpModel>(
    rt: &impl Abort,
    alloc: Global,
    model: &M,
    root: &Sub,
    width: u32,
) -> Children
    requires { IsOwn (M.meaning (M.numbers model.now)) root.now.subproblem }
{
    let mut space = space_for(rt, alloc, model, width);
    let list = Children::prepare(alloc, model, width, CutKind::LastExactLayer);
    let mut list = list.expect(rt, "a list");
    let diagram = relaxed(&mut space, model, root, None);
    children(model, &diagram, CutKind::LastExactLayer, &mut list);
    list
}

/// The same from the kept rows of that layer.
fn lean_children<R: Abort + Threads + Sync, M: DpModel>(
    rt: &R,
    alloc: Global,
    model: &M,
    root: &Sub,
    width: u32,
) -> Children
    requires { IsOwn (M.meaning (M.numbers model.now)) root.now.subproblem }
{
    let mut space = space_for(rt, alloc, model, width);
    let list = Children::prepare(alloc, model, width, CutKind::LastExactLayer);
    let mut list = list.expect(rt, "a list");
    let mut cut = CutRows::prepare(alloc, model, width as usize).expect(rt, "rows");
    let mut expander = Expander::in_parts(rt, alloc, 1);
    compile_lean(&mut space, model, root, None, &mut cut, &mut expander);
    cut_children(model, &space, &cut, &mut list);
    list
}

/// Two subproblems are the same.
fn is_same(rt: &impl Abort, lean: &Sub, whole: &Sub) {
    assert_eq!(rt; lean.decisions.as_slice(), whole.decisions.as_slice());
    assert_eq!(rt; lean.row.as_slice(), whole.row.as_slice());
    assert_eq!(rt; (lean.value, lean.bound), (whole.value, whole.bound));
}

/// Two lists have the same children, of which there are this many, and find the same solution.
fn are_same(rt: &impl Abort, alloc: Global, lean: &Children, whole: &Children, count: usize) {
    let found = lean.subs(alloc).expect(rt, "the children");
    let wanted = whole.subs(alloc).expect(rt, "the children");
    assert!(rt; lean.len() == count && whole.len() == count);
    assert!(rt; found.len() == count && wanted.len() == count);
    for i in 0..count {
        assert_eq!(rt;
            (lean.node(i), lean.bound(i)),
            (whole.node(i), whole.bound(i))
        );
        is_same(rt, &found[i], &wanted[i]);
    }
    let value = lean.found().map(|found| found.value);
    assert_eq!(rt; value, whole.found().map(|found| found.value));
}

/// Both forms leave the same of the empty prefix.
fn leave_the_same<R: Abort + Threads + Sync, M: DpModel>(
    rt: &R,
    alloc: Global,
    model: &M,
    width: u32,
    count: usize,
)
    requires { 0 < (M.meaning (M.numbers model.now)).vars }
{
    let root = root_of(rt, alloc, model);
    let whole = whole_children(rt, alloc, model, &root, width);
    let lean = lean_children(rt, alloc, model, &root, width);
    are_same(rt, alloc, &lean, &whole, count);
}

#[test]
fn the_kept_rows_leave_the_same_children(rt: HostRuntime) {
    let model: PairModel<MaxCut> = instance(&rt, rt.alloc(), SIX_VERTICES);
    for (width, count) in [(1, 1), (2, 2), (4, 4)] {
        leave_the_same(&rt, rt.alloc(), &model, width, count);
    }
}
