//! The lines of a canonical text.

ghost use Rattle.std.specs.Prelude.{◌≡◌, ◌+◌, ◌<◌, ◌≤◌, ◌++◌, [], if◌then◌else◌, length, OnOk};
ghost use Rattle.max_cut.specs.Graph.{IsGraph};
ghost use Rattle.max_cut.specs.EdgeLines.{edge_line, edges_in, is_none, lines_from, row_lines};

use pair_rows::row_of;
use std::alloc::AllocError;
use tokens::{push_ended, push_spaced};

/// How many weights are other than 0.
pub(crate) fn count_edges(weights: &[i64]) -> usize
    ensures edges { result ≡ edges_in weights.now }
    ensures few { result ≤ length weights.now }
{
    let mut count = 0;
    for weight in weights {
        count += usize::from(*weight != 0);
    }
    count
}

/// Appends a line for each edge.
pub(crate) fn push_lines(
    out: &mut Vec<u8>,
    vertices: usize,
    weights: &[i64],
) -> Result<(), AllocError>
    requires { IsGraph (record { vertices = vertices; weights = weights.now }) }
    ensures { OnOk result (out.new.items ≡ out.old.items ++ lines_from (record { vertices = vertices; weights = weights.now }) 0 vertices) }
{
    for k in 0..vertices {
        push_row(out, k, row_of(weights, vertices, k))?;
    }
    Ok(())
}

/// Appends a line for each edge between `i` and a later vertex.
fn push_row(out: &mut Vec<u8>, i: usize, row: &[i64]) -> Result<(), AllocError>
    requires { i + length row.now < 1024 }
    ensures { OnOk result (out.new.items ≡ out.old.items ++ row_lines i (i + 1) row.now) }
{
    for (at, weight) in row.iter().enumerate() {
        push_pair(out, i, i + 1 + at, *weight)?;
    }
    Ok(())
}

/// Appends the line of a pair where it is an edge.
fn push_pair(out: &mut Vec<u8>, i: usize, j: usize, weight: i64) -> Result<(), AllocError>
    requires first { i < 1024 }
    requires second { j < 1024 }
    ensures { OnOk result (out.new.items ≡ out.old.items ++ (if is_none weight then [] else edge_line i j weight)) }
{
    if weight == 0 {
        return Ok(());
    }
    push_edge(out, i, j, weight)
}

/// Appends the line of an edge.
fn push_edge(out: &mut Vec<u8>, i: usize, j: usize, weight: i64) -> Result<(), AllocError>
    requires first { i < 1024 }
    requires second { j < 1024 }
    ensures { OnOk result (out.new.items ≡ out.old.items ++ edge_line i j weight) }
{
    push_spaced(out, i as u64 + 1)?;
    push_spaced(out, j as u64 + 1)?;
    push_ended(out, weight)
}
