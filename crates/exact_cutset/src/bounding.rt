//! The bound of a node.

ghost use Rattle.std.specs.Prelude.{◌≡◌, ◌≤◌, ◌+ℤ◌, int_le, cond, Some, option_map};
ghost use Rattle.dp_model.specs.Numbers.{IsFar};
ghost use Rattle.dp_laws.specs.Diagrams.Nodes.{node_at};
ghost use Rattle.layer_build.specs.Layers.{diagram_of};
ghost use Rattle.exact_cutset.specs.Ready.{IsChildReadyAt, bound_at};

use dp_model::DpModel;
use layer_build::Workspace;

/// The lesser of two numbers.
fn lesser(a: i64, b: i64) -> i64
    ensures { result ≡ cond (int_le a b) a b }
{
    if a <= b { a } else { b }
}

/// The sum of two numbers, which is of a bounded size.
fn sum(a: i64, b: i64) -> i64
    requires { IsFar (a +ℤ b) }
    ensures { result ≡ a +ℤ b }
{
    a + b
}

/// The value of a node with its row and the lesser of its suffix and its rough bound, or none where it has no suffix or no rough bound.
pub(crate) fn bound_of<M: DpModel>(
    model: &M,
    space: &Workspace,
    depth: usize,
    node: usize,
    row: &[i64],
) -> Option<i64>
    requires first { (diagram_of space.now).first ≤ depth }
    requires ready { IsChildReadyAt (M.meaning (M.numbers model.now)) depth (node_at (diagram_of space.now) depth node) }
    requires row { option_map (λ n. n.row) (node_at (diagram_of space.now) depth node) ≡ Some row.now }
    ensures { result ≡ bound_at (M.meaning (M.numbers model.now)) (diagram_of space.now) depth node }
{
    let suffix = space.suffix(depth, node)?;
    let rough = model.rough(depth, row)?;
    let value = space.value(depth, node);
    Some(sum(value, lesser(suffix, rough)))
}
