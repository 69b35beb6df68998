//! What a child needs in memory is put after that of the others.

ghost use Rattle.std.specs.Prelude.{◌≡◌, ◌+◌, ◌≤◌, ◌++◌, true, Some, length, option_map, vec_capacity};
ghost use Rattle.dp_laws.specs.Diagrams.Nodes.{node_at};
ghost use Rattle.layer_build.specs.Layers.{diagram_of};

use layer_build::Workspace;

/// Puts a row after the others, for which there is room.
pub(crate) fn append_row(rows: &mut Vec<i64>, row: &[i64])
    requires { length rows.old.items + length row.now ≤ vec_capacity rows.old }
    ensures items { rows.new.items ≡ rows.old.items ++ row.now }
    ensures room { vec_capacity rows.old ≤ vec_capacity rows.new }
{
    let _ = rows.extend_from_slice(row);
}

/// Puts decisions after the others, for which there is room.
fn append_decisions(paths: &mut Vec<u32>, path: &[u32])
    requires { length paths.old.items + length path.now ≤ vec_capacity paths.old }
    ensures items { paths.new.items ≡ paths.old.items ++ path.now }
    ensures room { vec_capacity paths.old ≤ vec_capacity paths.new }
{
    let _ = paths.extend_from_slice(path);
}

/// Puts the kept decisions of an exact node after the others, for which there is room. They are written to `path` first.
pub(crate) fn append_path(
    paths: &mut Vec<u32>,
    path: &mut [u32],
    space: &Workspace,
    depth: usize,
    node: usize,
)
    requires first { (diagram_of space.now).first ≤ depth }
    requires exact { option_map (λ n. n.exact) (node_at (diagram_of space.now) depth node) ≡ Some true }
    requires cells { depth ≤ length path.old }
    requires room { length paths.old.items + depth ≤ vec_capacity paths.old }
    ensures items { option_map (λ n. paths.old.items ++ n.path) (node_at (diagram_of space.now) depth node) ≡ Some paths.new.items }
    ensures len { length paths.new.items ≡ length paths.old.items + depth }
    ensures room { vec_capacity paths.old ≤ vec_capacity paths.new }
{
    let own = &mut path[..depth];
    space.path(depth, node, own);
    append_decisions(paths, own);
}
