//! A layer is expanded.

ghost use Rattle.std.specs.Prelude.{◌≡◌, ℕ, ◌+◌, ◌*◌, ◌^◌, ◌<◌, ◌≤◌, true, false, [], List, length, map, vec_capacity, IfOk, IsSome};
ghost use Rattle.dp_model.specs.Lists.{Each};
ghost use Rattle.dp_laws.specs.declared.arc.DdArc.{DdArc};
ghost use Rattle.dp_laws.specs.Diagrams.Nodes.{DdNode};
ghost use Rattle.layer_candidates.specs.HeldRows.{held_row, HasExchanged};
ghost use Rattle.layer_candidates.specs.Members.{IsMemberOf};
ghost use Rattle.layer_nodes.specs.Expanding.{members_from, IsExpanded};
ghost use Rattle.layer_nodes.specs.Holding.{AreHeld, places_of};
ghost use Rattle.layer_nodes.specs.Nodes.{shown_layer, shown_below};
ghost use Rattle.layer_nodes.specs.Routing.{routed_arcs};
ghost use Rattle.layer_nodes.specs.Sifting.{expanded_by, expand_sifted, expanded_within};
ghost use Rattle.layer_nodes.specs.Steps.{IsParent, IsRanked, KeepsNodes, KeepsRoom};
ghost use Rattle.layer_nodes.specs.Stored.{node_view_by, rows_in};

use crate::extending::{MarkedWays, extend_layer};
use crate::layer::Layer;
use crate::node::Node;
use crate::numbering::Arrangement;
use crate::redirecting::Redirects;
use crate::routing::{Route, StoredArc};
use crate::striking::Strikes;
use dp_model::{DpModel, OutOfMemory};
use layer_candidates::WayTable;
use row_region::Region;
use std::alloc::Global;
use std::marker::Model;
use std::snapshot::Snapshot;

/// The memory in which a layer is expanded. It is made once and used again.
#[derive(Debug, Drop)]
pub struct Expansion {
    room: usize,
    // the parent's state, while it is extended
    from: Vec<i64>,
    ways: Arrangement,
}

impl Model for Expansion {
    ghost use Rattle.std.specs.Prelude.{length, vec_len, vec_capacity};
    ghost use Rattle.layer_nodes.specs.Stored.{Room, HasExpansion};

    ghost Value = { Room };

    ghost view = { λ e. record { most = e.room; words = vec_len e.from } };

    ghost invariant = { λ e. HasExpansion e.room e.ways.found.table (vec_capacity e.ways.keys) (length e.ways.found.marks.items) };
}

impl Expansion {
    /// Memory for this many candidates, whose rows have this many cells.
    pub fn prepare(alloc: Global, room: usize, words: usize) -> Result<Expansion, OutOfMemory>
        requires { room + 1 < 2 ^ 32 }
        ensures { IfOk result (λ e. e ≡ record { most = room; words = words }) }
    {
        Ok(Expansion {
            room,
            from: vec![in alloc; 0i64; words]?,
            ways: Arrangement {
                found: MarkedWays {
                    table: WayTable::prepare(alloc, room)?,
                    marks: vec![in alloc; false; room]?,
                },
                keys: Vec::with_capacity(alloc, room)?,
            },
        })
    }
}

/// From which layer the next one is made, and which nodes of the next one are struck.
#[derive(Clone, Copy, Debug)]
struct Descent {
    k: usize,
    strikes: Strikes,
}

/// Extends the nodes of a layer, whose rows the region has, and makes the nodes of the next layer that are not
/// struck, whose rows are put into it.
fn expand_nodes<M: DpModel>(
    model: &M,
    descent: Descent,
    region: &mut Region,
    above: &mut [Node],
    arcs: &mut Vec<StoredArc>,
    routes: &mut Vec<Route>,
    below: &mut Vec<Node>,
    expansion: &mut Expansion,
)
    requires layer { descent.k < (M.meaning (M.numbers model.now)).vars }
    requires region_words { region.old.words ≡ (M.meaning (M.numbers model.now)).words }
    requires row_words { expansion.old.words ≡ (M.meaning (M.numbers model.now)).words }
    requires members { Each (IsMemberOf (M.meaning (M.numbers model.now)) descent.k region.old) (members_from 0 above.old) }
    requires few_nodes { length above.old < 2 ^ 32 }
    requires arcs_room { length above.old * (M.meaning (M.numbers model.now)).choices descent.k ≤ vec_capacity arcs.old }
    requires routes_room { length above.old * (M.meaning (M.numbers model.now)).choices descent.k ≤ vec_capacity routes.old }
    requires below_room { length above.old * (M.meaning (M.numbers model.now)).choices descent.k ≤ vec_capacity below.old }
    requires room { length above.old * (M.meaning (M.numbers model.now)).choices descent.k ≤ expansion.old.most }
    requires spare { length above.old * (M.meaning (M.numbers model.now)).choices descent.k + 1 ≤ region.old.spare }
    ensures expanded { IsExpanded (expanded_by descent.strikes (M.meaning (M.numbers model.now)) descent.k) (M.meaning (M.numbers model.now)) descent.k (held_row region.old) above.old above.new (routed_arcs routes.new.items arcs.new.items) (held_row region.new) below.new.items }
    ensures unmerged { Each (λ n. IsSome n.parent) below.new.items }
    ensures exchanged { HasExchanged region.old [] region.new (rows_in below.new.items) }
    ensures arcs_capacity { vec_capacity arcs.new ≡ vec_capacity arcs.old }
    ensures routes_capacity { vec_capacity routes.old ≤ vec_capacity routes.new }
    ensures below_capacity { vec_capacity below.new ≡ vec_capacity below.old }
    ensures expansion { expansion.new ≡ expansion.old }
{
    extend_layer(
        model,
        descent.k,
        region,
        expansion.from.as_mut_slice(),
        above,
        arcs,
        &mut expansion.ways.found,
    );
    match descent.strikes {
        Strikes::AtMost(threshold) => expansion
            .ways
            .arrange_unstruck(model, descent.k + 1, threshold, region, routes, below),
        Strikes::Nothing => expansion
            .ways
            .arrange(region, model.first_live(descent.k + 1), routes, below),
    }
}

/// Extends the nodes of a layer as `expand_nodes` does without those that the threshold strikes. Where the next layer has more nodes
/// than the width, none of them is exact, and the problem merges in any order, all but the first `width - 1` are merged into one,
/// whose row is made in the cells `into`. Answers whether it did so.
fn expand_nodes_within<M: DpModel>(
    model: &M,
    k: usize,
    threshold: Option<i64>,
    width: usize,
    region: &mut Region,
    above: &mut [Node],
    arcs: &mut Vec<StoredArc>,
    routes: &mut Vec<Route>,
    below: &mut Vec<Node>,
    expansion: &mut Expansion,
    into: &mut [i64],
) -> bool
    requires layer { k < (M.meaning (M.numbers model.now)).vars }
    requires positive { 1 ≤ width }
    requires region_words { region.old.words ≡ (M.meaning (M.numbers model.now)).words }
    requires row_words { expansion.old.words ≡ (M.meaning (M.numbers model.now)).words }
    requires cells { length into.old ≡ (M.meaning (M.numbers model.now)).words }
    requires members { Each (IsMemberOf (M.meaning (M.numbers model.now)) k region.old) (members_from 0 above.old) }
    requires few_nodes { length above.old < 2 ^ 32 }
    requires arcs_room { length above.old * (M.meaning (M.numbers model.now)).choices k ≤ vec_capacity arcs.old }
    requires routes_room { length above.old * (M.meaning (M.numbers model.now)).choices k ≤ vec_capacity routes.old }
    requires below_room { length above.old * (M.meaning (M.numbers model.now)).choices k ≤ vec_capacity below.old }
    requires room { length above.old * (M.meaning (M.numbers model.now)).choices k ≤ expansion.old.most }
    requires spare { length above.old * (M.meaning (M.numbers model.now)).choices k + 1 ≤ region.old.spare }
    ensures expanded { IsExpanded (expanded_within result (M.meaning (M.numbers model.now)) k threshold width) (M.meaning (M.numbers model.now)) k (held_row region.old) above.old above.new (routed_arcs routes.new.items arcs.new.items) (held_row region.new) below.new.items }
    ensures wide { result ≡ true → (before : List DdArc) (paths : ℕ → List ℕ) → width < length (expand_sifted (M.meaning (M.numbers model.now)) k threshold (shown_layer paths (map (node_view_by (held_row region.old) before) above.old))).next }
    ensures inexact { result ≡ true → (before : List DdArc) (paths : ℕ → List ℕ) → Each (λ (n : DdNode). n.exact ≡ false) (expand_sifted (M.meaning (M.numbers model.now)) k threshold (shown_layer paths (map (node_view_by (held_row region.old) before) above.old))).next }
    ensures unmerged { result ≡ false → Each (λ n. IsSome n.parent) below.new.items }
    ensures exchanged { HasExchanged region.old [] region.new (rows_in below.new.items) }
    ensures arcs_capacity { vec_capacity arcs.new ≡ vec_capacity arcs.old }
    ensures routes_capacity { vec_capacity routes.old ≤ vec_capacity routes.new }
    ensures below_capacity { vec_capacity below.new ≡ vec_capacity below.old }
    ensures expansion { expansion.new ≡ expansion.old }
    ensures cells { length into.new ≡ length into.old }
{
    extend_layer(
        model,
        k,
        region,
        expansion.from.as_mut_slice(),
        above,
        arcs,
        &mut expansion.ways.found,
    );
    expansion.ways.arrange_within(model, k + 1, threshold, width, region, into, routes, below)
}

/// Expands the layer at depth `k`, whose rows the region holds: its nodes get an arc for each allowed decision, and of each
/// state the best candidate, in the reduction order, is a node of the next layer, exact where all arcs to its state come from
/// exact nodes; whatever the paths of the nodes above are. Of the next layer the nodes that are struck are left out: the arcs to
/// them have no target, and they are neither put in order nor made. Nothing else of the nodes above changes. The rows of the nodes
/// that the next layer had before stay as they are; those of its new ones are put into the region, which has a free row for each
/// candidate and one more. It takes no memory.
pub fn expand<M: DpModel>(
    model: &M,
    k: usize,
    strikes: Strikes,
    region: &mut Region,
    above: &mut Layer,
    next: &mut Layer,
    expansion: &mut Expansion,
)
    requires layer { k < (M.meaning (M.numbers model.now)).vars }
    requires above_words { above.old.words ≡ (M.meaning (M.numbers model.now)).words }
    requires next_words { next.old.words ≡ (M.meaning (M.numbers model.now)).words }
    requires region_words { region.old.words ≡ (M.meaning (M.numbers model.now)).words }
    requires row_words { expansion.old.words ≡ (M.meaning (M.numbers model.now)).words }
    requires held { AreHeld region.old above.old.nodes }
    requires nodes { Each (IsParent (M.meaning (M.numbers model.now)) k) above.old.nodes }
    requires arcs_room { length above.old.nodes * (M.meaning (M.numbers model.now)).choices k ≤ above.old.arcs_room }
    requires nodes_room { length above.old.nodes * (M.meaning (M.numbers model.now)).choices k ≤ next.old.nodes_room }
    requires room { length above.old.nodes * (M.meaning (M.numbers model.now)).choices k ≤ expansion.old.most }
    requires spare { length above.old.nodes * (M.meaning (M.numbers model.now)).choices k + 1 ≤ region.old.spare }
    ensures above { (paths : ℕ → List ℕ) → shown_layer paths above.new.nodes ≡ (expanded_by strikes (M.meaning (M.numbers model.now)) k (shown_layer paths above.old.nodes)).above }
    ensures next { (paths : ℕ → List ℕ) → shown_below paths next.new.nodes ≡ (expanded_by strikes (M.meaning (M.numbers model.now)) k (shown_layer paths above.old.nodes)).next }
    ensures ranked { Each (IsRanked (M.meaning (M.numbers model.now)) (k + 1)) next.new.nodes }
    ensures unmerged { Each (λ n. IsSome n.parent) next.new.nodes }
    ensures few { length next.new.nodes ≤ length above.old.nodes * (M.meaning (M.numbers model.now)).choices k }
    ensures rest { KeepsNodes above.old above.new }
    ensures next_rooms { KeepsRoom next.old next.new }
    ensures expansion { expansion.new ≡ expansion.old }
    ensures held { AreHeld region.new next.new.nodes }
    ensures exchanged { HasExchanged region.old [] region.new (places_of next.new.nodes) }
{
    expand_nodes(
        model,
        Descent { k, strikes },
        region,
        above.nodes.as_mut_slice(),
        &mut above.arcs,
        &mut above.routes,
        &mut next.nodes,
        expansion,
    );
    next.held = Snapshot::of(region);
}

/// Expands the layer at depth `k` as `expand` does without the nodes that are struck. Where the next layer has more nodes than the
/// width, none of them is exact, and the problem merges in any order, all but its first `width - 1` nodes are merged into one at
/// once, as `merge_rest` does, and only those first ones are put in order. Answers whether it did so.
pub fn expand_merged<M: DpModel>(
    model: &M,
    k: usize,
    threshold: Option<i64>,
    width: usize,
    region: &mut Region,
    above: &mut Layer,
    next: &mut Layer,
    expansion: &mut Expansion,
    redirects: &mut Redirects,
) -> bool
    requires layer { k < (M.meaning (M.numbers model.now)).vars }
    requires positive { 1 ≤ width }
    requires above_words { above.old.words ≡ (M.meaning (M.numbers model.now)).words }
    requires next_words { next.old.words ≡ (M.meaning (M.numbers model.now)).words }
    requires region_words { region.old.words ≡ (M.meaning (M.numbers model.now)).words }
    requires row_words { expansion.old.words ≡ (M.meaning (M.numbers model.now)).words }
    requires redirects_words { redirects.old.words ≡ (M.meaning (M.numbers model.now)).words }
    requires held { AreHeld region.old above.old.nodes }
    requires nodes { Each (IsParent (M.meaning (M.numbers model.now)) k) above.old.nodes }
    requires arcs_room { length above.old.nodes * (M.meaning (M.numbers model.now)).choices k ≤ above.old.arcs_room }
    requires nodes_room { length above.old.nodes * (M.meaning (M.numbers model.now)).choices k ≤ next.old.nodes_room }
    requires room { length above.old.nodes * (M.meaning (M.numbers model.now)).choices k ≤ expansion.old.most }
    requires redirects_room { length above.old.nodes * (M.meaning (M.numbers model.now)).choices k ≤ redirects.old.most }
    requires spare { length above.old.nodes * (M.meaning (M.numbers model.now)).choices k + 1 ≤ region.old.spare }
    ensures above { (paths : ℕ → List ℕ) → shown_layer paths above.new.nodes ≡ (expanded_within result (M.meaning (M.numbers model.now)) k threshold width (shown_layer paths above.old.nodes)).above }
    ensures next { (paths : ℕ → List ℕ) → shown_below paths next.new.nodes ≡ (expanded_within result (M.meaning (M.numbers model.now)) k threshold width (shown_layer paths above.old.nodes)).next }
    ensures wide { result ≡ true → (paths : ℕ → List ℕ) → width < length (expand_sifted (M.meaning (M.numbers model.now)) k threshold (shown_layer paths above.old.nodes)).next }
    ensures inexact { result ≡ true → (paths : ℕ → List ℕ) → Each (λ (n : DdNode). n.exact ≡ false) (expand_sifted (M.meaning (M.numbers model.now)) k threshold (shown_layer paths above.old.nodes)).next }
    ensures ranked { Each (IsRanked (M.meaning (M.numbers model.now)) (k + 1)) next.new.nodes }
    ensures unmerged { result ≡ false → Each (λ n. IsSome n.parent) next.new.nodes }
    ensures few { length next.new.nodes ≤ length above.old.nodes * (M.meaning (M.numbers model.now)).choices k }
    ensures rest { KeepsNodes above.old above.new }
    ensures next_rooms { KeepsRoom next.old next.new }
    ensures expansion { expansion.new ≡ expansion.old }
    ensures redirects { redirects.new ≡ redirects.old }
    ensures held { AreHeld region.new next.new.nodes }
    ensures exchanged { HasExchanged region.old [] region.new (places_of next.new.nodes) }
{
    let merged = expand_nodes_within(
        model,
        k,
        threshold,
        width,
        region,
        above.nodes.as_mut_slice(),
        &mut above.arcs,
        &mut above.routes,
        &mut next.nodes,
        expansion,
        redirects.merged.as_mut_slice(),
    );
    next.held = Snapshot::of(region);
    merged
}
