//! Subproblems of their own, made of the children in memory.

ghost use Rattle.std.specs.Prelude.{◌≡◌, ◌*◌, IfOk, length};
ghost use Rattle.exact_cutset.specs.Seen.{subproblems};
ghost use Rattle.exact_cutset.specs.Stored.{shown_sub, shown_subs, depths_of};

use crate::child::Child;
use dp_model::{OutOfMemory, Sub};
use std::alloc::Global;

/// The subproblem of one child.
fn make_sub(alloc: Global, child: &Child, row: &[i64], path: &[u32]) -> Result<Sub, OutOfMemory>
    ensures { IfOk result (λ sub. sub.subproblem ≡ shown_sub child.now row.now path.now) }
{
    Ok(Sub {
        decisions: path.to_vec(alloc)?,
        row: row.to_vec(alloc)?,
        value: child.value,
        bound: child.bound,
    })
}

/// The subproblems of all children, whose rows and decisions stand one after another.
pub(crate) fn make_subs(
    alloc: Global,
    words: usize,
    places: &[Child],
    rows: &[i64],
    paths: &[u32],
) -> Result<Vec<Sub>, OutOfMemory>
    requires rows { length rows.now ≡ length places.now * words }
    requires paths { length paths.now ≡ depths_of places.now }
    ensures { IfOk result (λ subs. subproblems subs.items ≡ shown_subs words places.now rows.now paths.now) }
{
    let mut subs = Vec::with_capacity(alloc, places.len())?;
    let mut rows_left = rows;
    let mut paths_left = paths;
    'places: for child in places {
        let (row, more_rows) = rows_left.split_at(words);
        let (path, more_paths) = paths_left.split_at(child.depth);
        subs.push_reserved(make_sub(alloc, child, row, path)?);
        rows_left = more_rows;
        paths_left = more_paths;
    }
    Ok(subs)
}
