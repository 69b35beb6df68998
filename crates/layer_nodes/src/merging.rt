//! The last nodes of a layer are merged into one.

ghost use Rattle.std.specs.Prelude.{◌≡◌, ℕ, ℤ, ◌+◌, ◌<◌, ◌≤◌, ◌^◌, ◌++◌, List, IfSome, IsSome, length, map, vec_capacity};
ghost use Rattle.dp_model.specs.Gaps.{IsStateOf};
ghost use Rattle.dp_model.specs.Lists.{Each};
ghost use Rattle.dp_model.specs.Numbers.{IsSmall, add_some, greatest};
ghost use Rattle.dp_laws.specs.Rules.Redirects.{with_redirected};
ghost use Rattle.dp_laws.specs.Rules.Reducing.{merged_layer, merge_redirect, merge_redirects};
ghost use Rattle.layer_candidates.specs.HeldRows.{AreLive, HasExchanged, held_row};
ghost use Rattle.layer_candidates.specs.Ways.{IsNearly};
ghost use Rattle.layer_nodes.specs.Holding.{AreHeld, places_of};
ghost use Rattle.layer_nodes.specs.Leading.{IsNodeIn, bare};
ghost use Rattle.layer_nodes.specs.Merging.{IsStateIn, row_of_places, greater, lifted, HasMerged};
ghost use Rattle.layer_nodes.specs.Nodes.{shown_layer, shown_below};
ghost use Rattle.layer_nodes.specs.Redirecting.{IsShort};
ghost use Rattle.layer_nodes.specs.Steps.{IsNodeOf, IsRanked, MayBeLengthened, KeepsNodes, KeepsRoom};
ghost use Rattle.layer_nodes.specs.Stored.{rows_in};

use crate::layer::Layer;
use crate::leading::redirect_by;
use crate::node::{Node, lone_node, nodes_from};
use crate::redirecting::{Redirect, Redirects, redirect_layer_after};
use dp_model::DpModel;
use layer_candidates::{HasRow, give_rows, put_row, row_of};
use row_region::Region;
use std::snapshot::Snapshot;

/// The greatest gap of a lawful problem.
const GREATEST_GAP: i64 = 1 << 50;

/// The node's value with the gap, or none where there is none.
pub(crate) fn lifted(node: &Node, gap: Option<i64>) -> Option<i64>
    requires near { IsNearly node.now.value }
    requires small { IfSome gap (λ g. IsSmall g) }
    ensures { result ≡ add_some node.now.value gap }
{
    let gap = gap?;
    Some(node.value + gap)
}

/// The greater of two numbers, of which none may be there.
pub(crate) fn greater(best: Option<i64>, other: Option<i64>) -> Option<i64>
    ensures { result ≡ greater best other }
{
    let Some(z) = best else {
        return other;
    };
    let Some(y) = other else {
        return best;
    };
    if z < y { Some(y) } else { Some(z) }
}

/// Writes the row into which the rows of the things are merged in order.
pub(crate) fn merge_rows<M: DpModel, T: HasRow>(
    model: &M,
    k: usize,
    region: &Region,
    things: &[T],
    into: &mut [i64],
)
    requires some { 0 < length things.now }
    requires states { Each (IsStateIn (M.meaning (M.numbers model.now)) k region.now) (map T.place things.now) }
    requires cells { length into.old ≡ (M.meaning (M.numbers model.now)).words }
    ensures merged { into.new ≡ row_of_places (M.meaning (M.numbers model.now)) k (held_row region.now) (map T.place things.now) }
    ensures state { IsStateOf (M.meaning (M.numbers model.now)) k into.new }
    ensures cells { length into.new ≡ (M.meaning (M.numbers model.now)).words }
{
    into.copy_from_slice(row_of(region, things[0].row()));
    'things: for i in 1..things.len() {
        model.merge_into(k, into, row_of(region, things[i].row()));
    }
}

/// The row into which nodes are merged, while their arcs are led to it.
#[derive(Clone, Copy)]
pub(crate) struct MergedRow<'r> {
    pub(crate) state: &'r [i64],
    pub(crate) rank: i64,
    // the place of its node among those of the layer
    pub(crate) place: u32,
}

/// The gap from the merged row to the node's row. The ranks spare a part of the sums over the cells.
pub(crate) fn gap_to<M: DpModel>(
    model: &M,
    k: usize,
    region: &Region,
    into: MergedRow,
    node: &Node,
) -> Option<i64>
    requires state { IsStateOf (M.meaning (M.numbers model.now)) k into.state.now }
    requires rank { into.rank ≡ (M.meaning (M.numbers model.now)).rank k into.state.now }
    requires node { IsStateIn (M.meaning (M.numbers model.now)) k region.now node.now.row }
    requires node_rank { node.now.rank ≡ (M.meaning (M.numbers model.now)).rank k (held_row region.now node.now.row) }
    ensures gap { result ≡ (M.meaning (M.numbers model.now)).gap k into.entry.state.now (held_row region.now node.now.row) }
    ensures small { IfSome result (λ g. IsSmall g) }
{
    let s = row_of(region, node.row);
    model.covers_within(k, into.state, into.rank, s, node.rank, GREATEST_GAP)
}

/// Arcs into the nodes go to that of the merged row, lengthened by the gaps from it. Answers the greatest of
/// the values, each with its gap.
fn merge_targets<M: DpModel>(
    model: &M,
    k: usize,
    region: &Region,
    into: MergedRow,
    nodes: &[Node],
    redirects: &mut Vec<Option<Redirect>>,
) -> Option<i64>
    requires state { IsStateOf (M.meaning (M.numbers model.now)) k into.state.now }
    requires rank { into.rank ≡ (M.meaning (M.numbers model.now)).rank k into.state.now }
    requires nodes { Each (IsNodeIn (M.meaning (M.numbers model.now)) k region.now) nodes.now }
    requires short { Each IsShort redirects.old.items }
    requires redirects_room { length redirects.old.items + length nodes.now ≤ vec_capacity redirects.old }
    ensures value { result ≡ greatest (lifted (M.meaning (M.numbers model.now)) k into.entry.state.now (map (bare (held_row region.now)) nodes.now)) }
    ensures redirects { redirects.new.items ≡ redirects.old.items ++ map (merge_redirect (M.meaning (M.numbers model.now)) k into.entry.place into.entry.state.now) (map (bare (held_row region.now)) nodes.now) }
    ensures short { Each IsShort redirects.new.items }
    ensures capacity { vec_capacity redirects.new ≡ vec_capacity redirects.old }
{
    let mut best = None;
    'nodes: for i in 0..nodes.len() {
        let node = &nodes[i];
        let gap = gap_to(model, k, region, into, node);
        best = greater(best, lifted(node, gap));
        redirects.push_reserved(redirect_by(into.place, gap));
    }
    best
}

/// Merges the nodes but for the first `width - 1` into one, and tells where the arcs into them go. Their rows are given back, and
/// the one into which they are merged, which is made in the cells `into`, is put into the region.
fn merge_nodes<M: DpModel>(
    model: &M,
    k: usize,
    width: usize,
    region: &mut Region,
    nodes: &mut Vec<Node>,
    into: &mut [i64],
    redirects: &mut Vec<Option<Redirect>>,
)
    requires positive { 1 ≤ width }
    requires wide { width < length nodes.old.items }
    requires cells { length into.old ≡ (M.meaning (M.numbers model.now)).words }
    requires words { region.old.words ≡ (M.meaning (M.numbers model.now)).words }
    requires nodes { Each (IsNodeIn (M.meaning (M.numbers model.now)) k region.old) nodes.old.items }
    requires live { AreLive region.old (rows_in nodes.old.items) }
    requires few { length nodes.old.items < 2 ^ 32 }
    requires redirects_room { length nodes.old.items ≤ vec_capacity redirects.old }
    ensures merged { HasMerged (M.meaning (M.numbers model.now)) k width region.old nodes.old.items region.new nodes.new.items redirects.new.items }
    ensures nodes_capacity { vec_capacity nodes.new ≡ vec_capacity nodes.old }
    ensures redirects_capacity { vec_capacity redirects.new ≡ vec_capacity redirects.old }
    ensures cells { length into.new ≡ length into.old }
{
    let first = width - 1;
    let last = nodes_from(nodes.as_slice(), first);
    merge_rows(model, k, region, last, into);
    let rank = model.rank(k, into);
    let hash = model.hash(k, into);
    redirects.clear();
    let merged = MergedRow {
        state: into,
        rank,
        place: first as u32,
    };
    let best = merge_targets(model, k, region, merged, last, redirects);
    give_rows(region, last);
    let place = put_row(region, into);
    nodes.truncate(first);
    let value = best.unwrap_or(0);
    nodes.push_reserved(lone_node(place, value, rank, hash, false));
}

/// Merges the nodes of the next layer, at depth `k`, but for the first `width - 1`, into one that stands last; the arcs of the
/// nodes above follow, lengthened by the gaps. The rows of the merged nodes are given back, and one is taken in their place. It
/// takes no memory.
pub fn merge_rest<M: DpModel>(
    model: &M,
    k: usize,
    width: usize,
    region: &mut Region,
    above: &mut Layer,
    next: &mut Layer,
    redirects: &mut Redirects,
)
    requires positive { 1 ≤ width }
    requires wide { width < length next.old.nodes }
    requires region_words { region.old.words ≡ (M.meaning (M.numbers model.now)).words }
    requires words { redirects.old.words ≡ (M.meaning (M.numbers model.now)).words }
    requires nodes { Each (IsNodeOf (M.meaning (M.numbers model.now)) k) next.old.nodes }
    requires lengths { Each MayBeLengthened above.old.nodes }
    requires room { length next.old.nodes ≤ redirects.old.most }
    requires held { AreHeld region.old next.old.nodes }
    requires live { AreLive region.old (places_of next.old.nodes) }
    ensures next { (paths : ℕ → List ℕ) → shown_below paths next.new.nodes ≡ merged_layer (M.meaning (M.numbers model.now)) k width (shown_below paths next.old.nodes) }
    ensures above { (paths below : ℕ → List ℕ) → shown_layer paths above.new.nodes ≡ with_redirected (merge_redirects (M.meaning (M.numbers model.now)) k width (shown_below below next.old.nodes)) (shown_layer paths above.old.nodes) }
    ensures ranked { Each (IsRanked (M.meaning (M.numbers model.now)) k) next.new.nodes }
    ensures rest { KeepsNodes above.old above.new }
    ensures next_rooms { KeepsRoom next.old next.new }
    ensures redirects { redirects.new ≡ redirects.old }
    ensures held { AreHeld region.new next.new.nodes }
    ensures exchanged { HasExchanged region.old (places_of next.old.nodes) region.new (places_of next.new.nodes) }
{
    merge_nodes(
        model,
        k,
        width,
        region,
        &mut next.nodes,
        redirects.merged.as_mut_slice(),
        &mut redirects.all,
    );
    next.held = Snapshot::of(region);
    redirect_layer_after(above, width - 1, redirects.all.as_slice());
}
