//! The sides of vertices, and the weight between them.

ghost use Rattle.std.specs.Prelude.{◌≡◌, ◌^◌, ◌≤◌, ◌≤ℤ◌, ◌==◌, if◌then◌else◌, [], drop, length, pos};
ghost use Rattle.benefit_rows.specs.Benefits.{rank_of};
ghost use Rattle.max_cut.specs.Cuts.{across_from, begins_on_S, is_cut, weight_across};
ghost use Rattle.pair_rows.specs.Pairs.{pair_count};

use pair_problem::are_binary;

/// Whether there is a side for each vertex, with vertex 0 on S.
pub(crate) fn are_sides(vertices: usize, sides: &[u32]) -> bool
    ensures { result ≡ is_cut (record { vertices = vertices; weights = [] }) sides.now }
{
    sides.len() == vertices && begin_on_first(sides) && are_binary(sides)
}

/// Whether vertex 0, where there is one, is on S.
fn begin_on_first(sides: &[u32]) -> bool
    ensures { result ≡ begins_on_S sides.now }
{
    match sides {
        [] => true,
        [first, ..] => *first == 0,
    }
}

/// The weight of the pairs on different sides.
pub(crate) fn weight_of_cut(weights: &[i64], sides: &[u32]) -> i64
    requires pairs { length weights.now ≡ pair_count (length sides.now) }
    requires sizes { rank_of weights.now ≤ℤ pos (2 ^ 50) }
    ensures { result ≡ weight_across weights.now sides.now }
{
    let mut total = 0;
    let mut rest = weights;
    for k in 0..sides.len() {
        let later = tail(sides, k + 1);
        let (row, below) = rest.split_at(later.len());
        total += weight_from(sides[k], row, later);
        rest = below;
    }
    total
}

/// The weight between a vertex on a side and the later vertices on the other.
fn weight_from(side: u32, row: &[i64], later: &[u32]) -> i64
    requires lengths { length row.now ≡ length later.now }
    requires sizes { rank_of row.now ≤ℤ pos (2 ^ 50) }
    ensures { result ≡ across_from side row.now later.now }
{
    let mut total = 0;
    for i in 0..row.len() {
        total += weight_between(side, later[i], row[i]);
    }
    total
}

/// The weight, where the sides differ.
fn weight_between(side: u32, other: u32, weight: i64) -> i64
    ensures { result ≡ (if side == other then pos 0 else weight) }
{
    if side == other { 0 } else { weight }
}

/// The sides from a vertex on.
fn tail(sides: &[u32], from: usize) -> &[u32]
    requires { from ≤ length sides.now }
    ensures { result.now ≡ drop from sides.now }
{
    &sides[from..]
}
