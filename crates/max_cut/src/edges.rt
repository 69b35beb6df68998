//! The edges of a text, read one after another.

ghost use Rattle.std.specs.Prelude.{◌≡◌, ◌≢◌, ◌<◌, ◌≤◌, pos, ◌+ℤ◌, int_le, false, OnOk, IfOk, MatchOption};
ghost use Rattle.benefit_rows.specs.Benefits.{size_of};
ghost use Rattle.tokens.specs.Grammar.{Reads, times};
ghost use Rattle.pair_rows.specs.Pairs.{pair_count};
ghost use Rattle.max_cut.specs.Graph.{IsGraph, IsWeight};
ghost use Rattle.max_cut.specs.Program.{zeros};
ghost use Rattle.max_cut.specs.Edges.{edge_at, place_among, vertex_at, with_edge};

use benefit_rows::size;
use pair_problem::{count_of_pairs, place_of_pair};
use std::alloc::Global;
use tokens::{InstanceError, InstanceFault, Place, ReadModelError, TextError, Tokens};

const GREATEST_WEIGHT: i64 = 500_000_000;

/// Reads this many edges, and adds up the weights of each pair.
pub(crate) fn read_totals(
    alloc: Global,
    tokens: &mut Tokens<'_>,
    vertices: usize,
    edges: usize,
) -> Result<Vec<i64>, ReadModelError>
    requires { vertices ≤ 1024 }
    ensures read { Reads (λ v. (v.items, tokens.new)) result (times (edge_at vertices) edges (zeros (pair_count vertices)) tokens.old) }
    ensures graph { IfOk result (λ v. IsGraph (record { vertices = vertices; weights = v.items })) }
{
    let mut totals = vec![in alloc; 0i64; count_of_pairs(vertices)]?;
    read_edges(tokens, vertices, edges, totals.as_mut_slice())?;
    Ok(totals)
}

/// Reads this many edges, and adds their weights to the totals of their pairs.
#[tactic(auto, using(tokens::proofs::Chains::times_steps))]
fn read_edges(
    tokens: &mut Tokens<'_>,
    vertices: usize,
    edges: usize,
    totals: &mut [i64],
) -> Result<(), ReadModelError>
    requires { IsGraph (record { vertices = vertices; weights = totals.old }) }
    ensures read { Reads (λ _. (totals.new, tokens.new)) result (times (edge_at vertices) edges totals.old tokens.old) }
    ensures graph { OnOk result (IsGraph (record { vertices = vertices; weights = totals.new })) }
{
    for _ in 0..edges {
        read_edge(tokens, vertices, totals)?;
    }
    Ok(())
}

/// Reads an edge, and adds its weight to the total of its pair.
#[tactic(auto, unfolding(crate::specs::Edges::edge_at), using(tokens::proofs::Chains::part_fails))]
fn read_edge(
    tokens: &mut Tokens<'_>,
    vertices: usize,
    totals: &mut [i64],
) -> Result<(), ReadModelError>
    requires { IsGraph (record { vertices = vertices; weights = totals.old }) }
    ensures read { Reads (λ _. (totals.new, tokens.new)) result (edge_at vertices totals.old tokens.old) }
    ensures graph { OnOk result (IsGraph (record { vertices = vertices; weights = totals.new })) }
{
    let i = read_vertex(tokens, vertices)?;
    let j = read_vertex(tokens, vertices)?;
    let place = tokens.place();
    let weight = tokens.next_number(-GREATEST_WEIGHT, GREATEST_WEIGHT)?;
    add_edge(totals, vertices, i, j, weight, place)
}

/// Reads a vertex, which the text numbers from 1.
#[tactic(auto, unfolding(crate::specs::Edges::vertex_at))]
fn read_vertex(tokens: &mut Tokens<'_>, vertices: usize) -> Result<usize, ReadModelError>
    requires { vertices ≤ 1024 }
    ensures read { Reads (λ v. (v, tokens.new)) result (vertex_at vertices tokens.old) }
    ensures vertex { IfOk result (λ v. v < vertices) }
{
    match tokens.next_number(1, vertices as i64) {
        Ok(vertex) => Ok(vertex as usize - 1),
        Err(TextError::OutOfRange(place)) => Err(ReadModelError::Text(InstanceError {
            fault: InstanceFault::Vertex,
            place,
        })),
        Err(fault) => Err(ReadModelError::from(fault)),
    }
}

/// Adds the weight of an edge to the total of its pair. `Limit` says that the total got too large.
#[tactic(auto, unfolding(crate::specs::Edges::with_edge))]
fn add_edge(
    totals: &mut [i64],
    vertices: usize,
    i: usize,
    j: usize,
    weight: i64,
    place: Place,
) -> Result<(), ReadModelError>
    requires graph { IsGraph (record { vertices = vertices; weights = totals.old }) }
    requires first { i < vertices }
    requires second { j < vertices }
    requires weight { IsWeight weight }
    ensures read { Reads (λ _. totals.new) result (with_edge vertices totals.old i j weight place) }
    ensures graph { OnOk result (IsGraph (record { vertices = vertices; weights = totals.new })) }
{
    if i == j {
        return Ok(());
    }
    let at = place_of_two(vertices, i, j);
    let Some(total) = total_with(totals[at], weight) else {
        return Err(ReadModelError::Text(InstanceError {
            fault: InstanceFault::Limit,
            place,
        }));
    };
    totals[at] = total;
    Ok(())
}

/// The total of a pair with the weight of an edge more, or none where it gets too large.
fn total_with(total: i64, weight: i64) -> Option<i64>
    requires total { IsWeight total }
    requires weight { IsWeight weight }
    ensures { MatchOption result (int_le (size_of (total +ℤ weight)) (pos 500000000) ≡ false) (λ t. (t ≡ total +ℤ weight) × IsWeight t) }
{
    let sum = total + weight;
    if size(sum) > GREATEST_WEIGHT {
        return None;
    }
    Some(sum)
}

/// Where the weight of the pair of two different vertices stands.
fn place_of_two(vertices: usize, i: usize, j: usize) -> usize
    requires few { vertices ≤ 1024 }
    requires first { i < vertices }
    requires second { j < vertices }
    requires different { i ≢ j }
    ensures place { result ≡ place_among vertices i j }
    ensures within { result < pair_count vertices }
{
    if i < j {
        place_of_pair(vertices, i, j)
    } else {
        place_of_pair(vertices, j, i)
    }
}
