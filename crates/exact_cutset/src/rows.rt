//! The rows of the nodes that become children.

ghost use Rattle.std.specs.Prelude.{◌≡◌, ◌≤◌, Some, IsSome, option_map};
ghost use Rattle.dp_laws.specs.Diagrams.Nodes.{node_at};
ghost use Rattle.layer_build.specs.Layers.{diagram_of};
ghost use Rattle.exact_cutset.specs.Rows.{HasRowsAt};

use layer_build::Workspace;
use relaxed_dd::CutRows;

/// Where the rows of the last exact layer are: held in the workspace, or copied from it.
#[derive(Clone, Copy, Debug)]
pub(crate) enum Rows<'a> {
    Held,
    Copied(&'a CutRows),
}

/// The row of a node.
pub(crate) fn row_of<'a>(
    space: &'a Workspace,
    rows: Rows<'a>,
    depth: usize,
    node: usize,
) -> &'a [i64]
    requires first { (diagram_of space.now).first ≤ depth }
    requires rows { HasRowsAt space.now depth rows }
    requires place { IsSome (node_at (diagram_of space.now) depth node) }
    ensures { option_map (λ n. n.row) (node_at (diagram_of space.now) depth node) ≡ Some result.now }
{
    match rows {
        Rows::Held => space.row(depth, node),
        Rows::Copied(cut) => cut.row(node),
    }
}
