//! The ways to a layer are merged but for the first ones, before they become nodes.

ghost use Rattle.std.specs.Prelude.{◌≡◌, ◌≢◌, ℕ, ℤ, ◌<◌, ◌≤◌, ◌^◌, List, IsTrue, drop, length, vec_capacity};
ghost use Rattle.dp_model.specs.Gaps.{IsStateOf};
ghost use Rattle.dp_model.specs.Lists.{Each};
ghost use Rattle.dp_model.specs.Numbers.{greatest};
ghost use Rattle.dp_laws.specs.Pairs.{EachTwo};
ghost use Rattle.layer_candidates.specs.HeldRows.{AreLive, held_row};
ghost use Rattle.layer_candidates.specs.KeyOrder.{key_rows};
ghost use Rattle.layer_nodes.specs.Expanding.{HaveParents};
ghost use Rattle.layer_nodes.specs.Merging.{lifted};
ghost use Rattle.layer_nodes.specs.Reducing.{key_node, bare_keys, IsKeyNode, AreInexact, merged_route, LeadToMerged, HasMergedKeys};
ghost use Rattle.layer_nodes.specs.Routing.{route_at};

use crate::merging::{MergedRow, gap_to, greater, lifted, merge_rows};
use crate::node::{Node, lone_node};
use crate::numbering::{list_nodes, number_ways};
use crate::routing::{Route, nowhere};
use dp_model::DpModel;
use layer_candidates::{Key, Way, give_rows, put_row, row_of};
use row_region::Region;

/// What a key tells of a node.
fn key_node(key: Key) -> Node
    ensures { result ≡ key_node key }
{
    lone_node(key.row, key.value, key.rank, 0, false)
}

/// Whether none of the keys' ways is exact.
pub(crate) fn are_inexact(keys: &[Key], marks: &[bool]) -> bool
    requires { Each (λ key. key.place < length marks.now) keys.now }
    ensures { IsTrue result → AreInexact marks.now keys.now }
{
    'keys: for i in 0..keys.len() {
        if marks[keys[i].place as usize] {
            return false;
        }
    }
    true
}

/// The route to the merged node at the place, lengthened by the gap, or none where there is no gap.
fn merged_route(place: u32, gap: Option<i64>) -> Route
    ensures { result ≡ merged_route place gap }
{
    match gap {
        Some(longer) => Route {
            target: Some(place),
            longer,
        },
        None => nowhere(),
    }
}

/// The routes of the keys' ways lead to the node of the merged row, lengthened by the gaps from it. Answers the greatest of the
/// values, each with its gap.
fn lead_to_merged<M: DpModel>(
    model: &M,
    k: usize,
    region: &Region,
    into: MergedRow,
    keys: &[Key],
    routes: &mut [Route],
) -> Option<i64>
    requires state { IsStateOf (M.meaning (M.numbers model.now)) k into.state.now }
    requires rank { into.rank ≡ (M.meaning (M.numbers model.now)).rank k into.state.now }
    requires keys { Each (IsKeyNode (M.meaning (M.numbers model.now)) k region.now) keys.now }
    requires within { Each (λ key. key.place < length routes.old) keys.now }
    requires apart { EachTwo (λ a b. a.place ≢ b.place) keys.now }
    ensures value { result ≡ greatest (lifted (M.meaning (M.numbers model.now)) k into.entry.state.now (bare_keys (held_row region.now) keys.now)) }
    ensures lead { LeadToMerged (M.meaning (M.numbers model.now)) k (held_row region.now) into.entry.state.now into.entry.place keys.now routes.new }
    ensures others { (p : ℕ) → Each (λ key. key.place ≢ p) keys.now → route_at routes.new p ≡ route_at routes.old p }
    ensures same { length routes.new ≡ length routes.old }
{
    let mut best = None;
    'keys: for i in 0..keys.len() {
        let key = keys[i];
        let node = key_node(key);
        let gap = gap_to(model, k, region, into, &node);
        best = greater(best, lifted(&node, gap));
        routes[key.place as usize] = merged_route(into.place, gap);
    }
    best
}

/// The keys from the place on.
fn keys_from(keys: &[Key], first: usize) -> &[Key]
    requires { first ≤ length keys.now }
    ensures { result.now ≡ drop first keys.now }
{
    &keys[first..]
}

/// The first keys become nodes, as many as `first`, and the others are merged into one that stands last, whose row is made in the
/// cells `into` and put into the region in place of theirs. The routes of the ways lead to the places of these nodes, those of
/// merged ways lengthened by the gaps.
pub(crate) fn merge_keys<M: DpModel>(
    model: &M,
    k: usize,
    first: usize,
    region: &mut Region,
    ways: &[Way],
    marks: &[bool],
    keys: &[Key],
    into: &mut [i64],
    routes: &mut Vec<Route>,
    nodes: &mut Vec<Node>,
)
    requires some { first < length keys.now }
    requires keys { Each (IsKeyNode (M.meaning (M.numbers model.now)) k region.old) keys.now }
    requires live { AreLive region.old (key_rows keys.now) }
    requires words { region.old.words ≡ (M.meaning (M.numbers model.now)).words }
    requires cells { length into.old ≡ (M.meaning (M.numbers model.now)).words }
    requires ways { Each (λ key. key.place < length ways.now) keys.now }
    requires parents { HaveParents ways.now }
    requires marks { Each (λ key. key.place < length marks.now) keys.now }
    requires apart { EachTwo (λ a b. a.place ≢ b.place) keys.now }
    requires small { length keys.now < 2 ^ 32 }
    requires routes_room { length ways.now ≤ vec_capacity routes.old }
    requires nodes_room { length keys.now ≤ vec_capacity nodes.old }
    ensures merged { HasMergedKeys (M.meaning (M.numbers model.now)) k first region.old ways.now marks.now keys.now region.new routes.new.items nodes.new.items }
    ensures cells { length into.new ≡ length into.old }
    ensures count { length routes.new.items ≡ length ways.now }
    ensures routes_capacity { vec_capacity routes.old ≤ vec_capacity routes.new }
    ensures nodes_capacity { vec_capacity nodes.new ≡ vec_capacity nodes.old }
{
    let front = &keys[..first];
    let last = keys_from(keys, first);
    number_ways(front, ways.len(), routes);
    merge_rows(model, k, region, last, into);
    let rank = model.rank(k, into);
    let hash = model.hash(k, into);
    let merged = MergedRow {
        state: into,
        rank,
        place: first as u32,
    };
    let best = lead_to_merged(model, k, region, merged, last, routes.as_mut_slice());
    give_rows(region, last);
    let place = put_row(region, into);
    list_nodes(ways, front, marks, nodes);
    let value = best.unwrap_or(0);
    nodes.push_reserved(lone_node(place, value, rank, hash, false));
}
