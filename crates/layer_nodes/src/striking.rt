//! Takes the nodes out of a layer that are struck, or that a leader dominates.

ghost use Rattle.std.specs.Prelude.{◌≡◌, ℕ, ◌≤◌, ◌<◌, ◌^◌, ◌∷◌, [], ◌++◌, List, IfSome, IsFalse, length, pos, set, slice_get, take, Some, None, vec_capacity};
ghost use Rattle.dp_model.specs.Lists.{Each};
ghost use Rattle.dp_laws.specs.Rules.Redirects.{with_redirected};
ghost use Rattle.dp_laws.specs.Rules.Pruning.{is_struck, pruned_nodes, prune_redirects};
ghost use Rattle.layer_candidates.specs.HeldRows.{AreLive, HasExchanged, held_row};
ghost use Rattle.layer_nodes.specs.Holding.{AreHeld, places_of};
ghost use Rattle.layer_nodes.specs.Leading.{IsNodeIn, IsLeaderIn, leaders_of, led_at, bare};
ghost use Rattle.layer_nodes.specs.Nodes.{shown_layer, shown_below};
ghost use Rattle.layer_nodes.specs.Redirecting.{IsShort};
ghost use Rattle.layer_nodes.specs.Steps.{AreAmong, IsNodeOf, MayBeLengthened, KeepsNodes, KeepsRoom};
ghost use Rattle.layer_nodes.specs.Stored.{rows_in};
ghost use Rattle.layer_nodes.specs.Striking.{threshold_of, AreInexact, asking, unstruck, taken_out, HasPruned, HasGiven};

use crate::keeping::keep_layer_targets;
use crate::layer::Layer;
use crate::leading::{at_leader, lead};
use crate::node::Node;
use crate::redirecting::{LeaderAt, Redirect, Redirects, redirect_layer};
use dp_model::{DpModel, MOST_LEADERS};
use layer_candidates::{is_struck_by, row_of};
use row_region::{Region, RowId};

/// Which nodes of a layer are struck.
#[derive(Clone, Copy, Debug)]
pub enum Strikes {
    /// Those whose value plus rough bound is at most the threshold, and those without a rough bound.
    AtMost(Option<i64>),
    /// No node. The rough bounds are not computed.
    Nothing,
}

/// Whether the node is struck.
fn is_struck<M: DpModel>(
    model: &M,
    k: usize,
    strikes: Strikes,
    region: &Region,
    node: &Node,
) -> bool
    requires node { IsNodeIn (M.meaning (M.numbers model.now)) k region.now node.now }
    ensures { result ≡ is_struck (asking strikes (M.meaning (M.numbers model.now))) k (threshold_of strikes) (bare (held_row region.now) node.now) }
{
    let Strikes::AtMost(threshold) = strikes else {
        return false;
    };
    let rough = model.rough_by_rank(k, row_of(region, node.row), node.rank);
    is_struck_by(node.value, rough, threshold)
}

/// Where the arcs into a node go that is struck or dominated, or none where it stays.
fn taken_out<M: DpModel>(
    model: &M,
    k: usize,
    strikes: Strikes,
    region: &Region,
    leaders: &[LeaderAt],
    node: &Node,
) -> Option<Option<Redirect>>
    requires leaders { Each (IsLeaderIn (M.meaning (M.numbers model.now)) k region.now) leaders.now }
    requires node { IsNodeIn (M.meaning (M.numbers model.now)) k region.now node.now }
    ensures out { result ≡ taken_out (M.meaning (M.numbers model.now)) k strikes (leaders_of (held_row region.now) leaders.now) (bare (held_row region.now) node.now) }
    ensures short { IfSome result (λ redirect. IsShort redirect) }
{
    if is_struck(model, k, strikes, region, node) {
        return Some(None);
    }
    let redirect = at_leader(model, k, region, leaders, node)?;
    Some(Some(redirect))
}

/// The node that stands at `from` is put at the place.
fn put_at(nodes: &mut [Node], node: &Node, from: usize, place: usize)
    requires within { place < length nodes.old }
    requires from { slice_get nodes.old from ≡ Some node.now }
    ensures { nodes.new ≡ set nodes.old place node.now }
{
    if place != from {
        nodes[place] = *node;
    }
}

/// The node, which stands at `from`, stays at the place, and leads where it may.
fn keep_at(
    nodes: &mut [Node],
    leaders: &mut Vec<LeaderAt>,
    redirects: &mut Vec<Option<Redirect>>,
    node: &Node,
    from: usize,
    place: usize,
)
    requires within { place < length nodes.old }
    requires from { slice_get nodes.old from ≡ Some node.now }
    requires small { length nodes.old < 2 ^ 32 }
    requires leaders_room { MOST_LEADERS ≤ vec_capacity leaders.old }
    requires redirects_room { length redirects.old.items < vec_capacity redirects.old }
    ensures nodes { nodes.new ≡ set nodes.old place node.now }
    ensures leaders { leaders.new.items ≡ led_at leaders.old.items place node.now }
    ensures redirects { redirects.new.items ≡ redirects.old.items ++ Some (record { place = place; longer = pos 0 }) ∷ [] }
    ensures leaders_capacity { vec_capacity leaders.new ≡ vec_capacity leaders.old }
    ensures redirects_capacity { vec_capacity redirects.new ≡ vec_capacity redirects.old }
{
    redirects.push_reserved(Some(Redirect {
        place: place as u32,
        longer: 0,
    }));
    lead(leaders, place as u32, node);
    put_at(nodes, node, from, place);
}

/// Takes out the nodes that are struck or dominated. Those that stay close up, and arcs into each node go where it stays, or to
/// the first leader that dominates it. The rows of those that go are given back. Answers how many stay.
fn prune<M: DpModel>(
    model: &M,
    k: usize,
    strikes: Strikes,
    region: &mut Region,
    nodes: &mut [Node],
    leaders: &mut Vec<LeaderAt>,
    redirects: &mut Vec<Option<Redirect>>,
) -> usize
    requires nodes { Each (IsNodeIn (M.meaning (M.numbers model.now)) k region.old) nodes.old }
    requires live { AreLive region.old (rows_in nodes.old) }
    requires small { length nodes.old < 2 ^ 32 }
    requires leaders_room { MOST_LEADERS ≤ vec_capacity leaders.old }
    requires redirects_room { length nodes.old ≤ vec_capacity redirects.old }
    ensures pruned { HasPruned (M.meaning (M.numbers model.now)) k strikes (held_row region.old) nodes.old nodes.new redirects.new.items result }
    ensures given { HasGiven region.old nodes.old region.new (take result nodes.new) }
    ensures leaders_capacity { vec_capacity leaders.new ≡ vec_capacity leaders.old }
    ensures redirects_capacity { vec_capacity redirects.new ≡ vec_capacity redirects.old }
{
    leaders.clear();
    redirects.clear();
    let mut stay = 0;
    'nodes: for i in 0..nodes.len() {
        let node = nodes[i];
        let out = taken_out(model, k, strikes, region, leaders.as_slice(), &node);
        match out {
            Some(redirect) => {
                region.give(RowId { place: node.row });
                redirects.push_reserved(redirect);
            }
            None => {
                keep_at(nodes, leaders, redirects, &node, i, stay);
                stay += 1;
            }
        }
    }
    stay
}

/// Whether a node of the layer is exact.
fn has_exact(layer: &Layer) -> bool
    ensures { IsFalse result → AreInexact layer.now.nodes }
{
    'nodes: for i in 0..layer.len() {
        if layer.exact(i) {
            return true;
        }
    }
    false
}

/// Takes out the nodes of the next layer, at depth `k`, that are struck, or that one of the first `MOST_LEADERS` exact ones that
/// stay dominates; the arcs of the nodes above follow, and the rows of those nodes are given back.
fn take_out<M: DpModel>(
    model: &M,
    k: usize,
    strikes: Strikes,
    region: &mut Region,
    above: &mut Layer,
    next: &mut Layer,
    redirects: &mut Redirects,
)
    requires nodes { Each (IsNodeOf (M.meaning (M.numbers model.now)) k) next.old.nodes }
    requires lengths { Each MayBeLengthened above.old.nodes }
    requires room { length next.old.nodes ≤ redirects.old.most }
    requires held { AreHeld region.old next.old.nodes }
    requires live { AreLive region.old (places_of next.old.nodes) }
    ensures next { (paths : ℕ → List ℕ) → shown_below paths next.new.nodes ≡ pruned_nodes (asking strikes (M.meaning (M.numbers model.now))) k (threshold_of strikes) [] 0 (shown_below paths next.old.nodes) }
    ensures above { (paths below : ℕ → List ℕ) → shown_layer paths above.new.nodes ≡ with_redirected (prune_redirects (asking strikes (M.meaning (M.numbers model.now))) k (threshold_of strikes) [] 0 (shown_below below next.old.nodes)) (shown_layer paths above.old.nodes) }
    ensures stay { AreAmong next.old.nodes next.new.nodes }
    ensures rest { KeepsNodes above.old above.new }
    ensures next_rooms { KeepsRoom next.old next.new }
    ensures redirects { redirects.new ≡ redirects.old }
    ensures held { AreHeld region.new next.new.nodes }
    ensures exchanged { HasExchanged region.old (places_of next.old.nodes) region.new (places_of next.new.nodes) }
{
    let stay = prune(
        model,
        k,
        strikes,
        region,
        next.nodes.as_mut_slice(),
        &mut redirects.leaders,
        &mut redirects.all,
    );
    next.nodes.truncate(stay);
    redirect_layer(above, redirects.all.as_slice());
}

/// Takes out the nodes of the next layer, at depth `k`, that are struck by their rough bound, or that one of the first
/// `MOST_LEADERS` exact ones that stay dominates; the arcs of the nodes above follow, and the rows of those nodes are given back.
/// It takes no memory.
pub fn strike<M: DpModel>(
    model: &M,
    k: usize,
    threshold: Option<i64>,
    region: &mut Region,
    above: &mut Layer,
    next: &mut Layer,
    redirects: &mut Redirects,
)
    requires nodes { Each (IsNodeOf (M.meaning (M.numbers model.now)) k) next.old.nodes }
    requires lengths { Each MayBeLengthened above.old.nodes }
    requires room { length next.old.nodes ≤ redirects.old.most }
    requires held { AreHeld region.old next.old.nodes }
    requires live { AreLive region.old (places_of next.old.nodes) }
    ensures next { (paths : ℕ → List ℕ) → shown_below paths next.new.nodes ≡ pruned_nodes (M.meaning (M.numbers model.now)) k threshold [] 0 (shown_below paths next.old.nodes) }
    ensures above { (paths below : ℕ → List ℕ) → shown_layer paths above.new.nodes ≡ with_redirected (prune_redirects (M.meaning (M.numbers model.now)) k threshold [] 0 (shown_below below next.old.nodes)) (shown_layer paths above.old.nodes) }
    ensures stay { AreAmong next.old.nodes next.new.nodes }
    ensures rest { KeepsNodes above.old above.new }
    ensures next_rooms { KeepsRoom next.old next.new }
    ensures redirects { redirects.new ≡ redirects.old }
    ensures held { AreHeld region.new next.new.nodes }
    ensures exchanged { HasExchanged region.old (places_of next.old.nodes) region.new (places_of next.new.nodes) }
{
    take_out(
        model,
        k,
        Strikes::AtMost(threshold),
        region,
        above,
        next,
        redirects,
    );
}

/// Takes out the nodes of the next layer, at depth `k`, that one of the first `MOST_LEADERS` exact ones that stay dominates; the
/// arcs of the nodes above follow, and the rows of those nodes are given back. No node is struck, and no rough bound is computed:
/// it is for a layer whose struck nodes were left out before. It takes no memory.
pub fn drop_dominated<M: DpModel>(
    model: &M,
    k: usize,
    region: &mut Region,
    above: &mut Layer,
    next: &mut Layer,
    redirects: &mut Redirects,
)
    requires nodes { Each (IsNodeOf (M.meaning (M.numbers model.now)) k) next.old.nodes }
    requires lengths { Each MayBeLengthened above.old.nodes }
    requires room { length next.old.nodes ≤ redirects.old.most }
    requires held { AreHeld region.old next.old.nodes }
    requires live { AreLive region.old (places_of next.old.nodes) }
    ensures next { (paths : ℕ → List ℕ) → shown_below paths next.new.nodes ≡ pruned_nodes (unstruck (M.meaning (M.numbers model.now))) k None [] 0 (shown_below paths next.old.nodes) }
    ensures above { (paths below : ℕ → List ℕ) → shown_layer paths above.new.nodes ≡ with_redirected (prune_redirects (unstruck (M.meaning (M.numbers model.now))) k None [] 0 (shown_below below next.old.nodes)) (shown_layer paths above.old.nodes) }
    ensures stay { AreAmong next.old.nodes next.new.nodes }
    ensures rest { KeepsNodes above.old above.new }
    ensures next_rooms { KeepsRoom next.old next.new }
    ensures redirects { redirects.new ≡ redirects.old }
    ensures held { AreHeld region.new next.new.nodes }
    ensures exchanged { HasExchanged region.old (places_of next.old.nodes) region.new (places_of next.new.nodes) }
{
    // Only an exact node leads.
    if has_exact(next) {
        take_out(model, k, Strikes::Nothing, region, above, next, redirects);
    } else {
        keep_layer_targets(above, next.len());
    }
}
