//! The nodes of a layer are extended by each allowed decision: the ways to the next layer, their marks, and the arcs to them.

ghost use Rattle.std.specs.Prelude.{◌≡◌, ℕ, ◌+◌, ◌*◌, ◌^◌, ◌<◌, ◌≤◌, [], ◌∷◌, ◌++◌, List, length, vec_capacity, IsTrue};
ghost use Rattle.dp_model.specs.Decisions.{below};
ghost use Rattle.dp_model.specs.Lists.{Each};
ghost use Rattle.dp_laws.specs.Restricted.Extensions.{candidates, all_joined};
ghost use Rattle.layer_candidates.specs.HeldRows.{held_row, AreLive, HasExchanged};
ghost use Rattle.layer_candidates.specs.Ways.{way_row, all_reached, IsNear, AllHaveZeros, AreDistinct};
ghost use Rattle.layer_candidates.specs.Members.{members_as, IsMemberOf};
ghost use Rattle.layer_candidates.specs.WayTables.{table_rows, HasTableRoom, IsWayTable, KeepsTableRoom, TookIn};
ghost use Rattle.row_region.specs.Region.{IsLive};
ghost use Rattle.layer_nodes.specs.Expanding.{member_of, members_from, Trial, trials_by, trials_of, spanned, all_spanned, marked, AreTried, HaveParents};
ghost use Rattle.layer_nodes.specs.Routing.{to_ways};

use crate::node::Node;
use crate::routing::StoredArc;
use dp_model::DpModel;
use layer_candidates::{Member, Parent, WayTable, extend_by, row_of, take_row};
use row_region::{Region, RowId};

/// The ways to the next layer, each with a mark.
#[derive(Debug, Drop)]
pub struct MarkedWays {
    /// The ways, with the table that finds the way of a state.
    pub table: WayTable,
    /// For each way whether all ways to its state come from exact nodes.
    pub marks: Vec<bool>,
}

/// Marks the way at the place, which is a new one where the place is `count`: it is exact while each way to its state is.
fn mark(marks: &mut [bool], count: usize, place: usize, exact: bool)
    requires { place < length marks.old }
    ensures { marks.new ≡ marked marks.old count place exact }
{
    marks[place] = exact && (place == count || marks[place]);
}

/// A node that is tried by a decision.
#[derive(Clone, Copy)]
struct Attempt<'s> {
    parent: Parent<'s>,
    // whether the node stands for one state exactly
    exact: bool,
    decision: u32,
}

/// Tries a node by a decision: where it is allowed, its way is taken in and marked, and its arc put after the others. The state
/// is written into the row at the spot.
fn try_by<M: DpModel>(
    model: &M,
    k: usize,
    attempt: Attempt,
    region: &mut Region,
    spot: &mut RowId,
    found: &mut MarkedWays,
    arcs: &mut Vec<StoredArc>,
)
    requires layer { k < (M.meaning (M.numbers model.now)).vars }
    requires state { IsTrue ((M.meaning (M.numbers model.now)).is_state k attempt.parent.state.now) }
    requires value { IsNear attempt.parent.value }
    requires rank { attempt.parent.rank ≡ (M.meaning (M.numbers model.now)).rank k attempt.parent.state.now }
    requires hash { attempt.parent.hash ≡ (M.meaning (M.numbers model.now)).hash k attempt.parent.state.now }
    requires choice { attempt.decision < (M.meaning (M.numbers model.now)).choices k }
    requires live { found.old.table.live ≤ (M.meaning (M.numbers model.now)).words }
    requires zeros { AllHaveZeros (M.meaning (M.numbers model.now)) (k + 1) found.old.table.live }
    requires words { region.old.words ≡ (M.meaning (M.numbers model.now)).words }
    requires spare { 0 < region.old.spare }
    requires held { AreLive region.old (spot.old.place ∷ table_rows found.old.table) }
    requires joined { IsWayTable (M.meaning (M.numbers model.now)) (k + 1) region.old found.old.table }
    requires room { HasTableRoom (length found.old.table.ways.items + 1) found.old.table }
    requires marks_room { length found.old.table.ways.items < length found.old.marks.items }
    requires arcs_room { length arcs.old.items < vec_capacity arcs.old }
    ensures extended { TookIn (M.meaning (M.numbers model.now)) k attempt.entry.parent.step attempt.entry.parent.state.now attempt.entry.parent.value (attempt.entry.decision ∷ []) region.old found.old.table region.new found.new.table }
    ensures exchanged { HasExchanged region.old (spot.old.place ∷ table_rows found.old.table) region.new (spot.new.place ∷ table_rows found.new.table) }
    ensures tried { (ts : List Trial) → AreTried (M.meaning (M.numbers model.now)) k (way_row region.old found.old.table.ways.items) (length found.old.table.ways.items) ts found.old.marks.items (to_ways arcs.old.items)
        → AreTried (M.meaning (M.numbers model.now)) k (way_row region.new found.new.table.ways.items) (length found.new.table.ways.items) (ts ++ trials_by (M.meaning (M.numbers model.now)) k attempt.entry.parent.state.now attempt.entry.exact (attempt.entry.decision ∷ [])) found.new.marks.items (to_ways arcs.new.items) }
    ensures live { found.new.table.live ≡ found.old.table.live }
    ensures room { KeepsTableRoom found.old.table found.new.table }
    ensures marks { length found.new.marks.items ≡ length found.old.marks.items }
    ensures arcs_few { length arcs.new.items ≤ length arcs.old.items + 1 }
    ensures arcs_capacity { vec_capacity arcs.new ≡ vec_capacity arcs.old }
{
    let count = found.table.ways.len();
    let Some(taken) = extend_by(
        model,
        k,
        attempt.parent,
        attempt.decision,
        region,
        spot,
        &mut found.table,
    ) else {
        return;
    };
    mark(
        found.marks.as_mut_slice(),
        count,
        taken.place,
        attempt.exact,
    );
    arcs.push_reserved(StoredArc {
        decision: attempt.decision,
        way: taken.place as u32,
        gain: taken.gain,
    });
}

/// A node that is tried by all decisions.
#[derive(Clone, Copy)]
struct TriedNode<'s> {
    member: Member,
    state: &'s [i64],
    // whether it stands for one state exactly
    exact: bool,
}

/// Tries a node by all decisions, the lesser first.
fn try_node<M: DpModel>(
    model: &M,
    k: usize,
    node: TriedNode,
    region: &mut Region,
    spot: &mut RowId,
    found: &mut MarkedWays,
    arcs: &mut Vec<StoredArc>,
)
    requires layer { k < (M.meaning (M.numbers model.now)).vars }
    requires state { IsTrue ((M.meaning (M.numbers model.now)).is_state k node.state.now) }
    requires value { IsNear node.member.value }
    requires rank { node.member.rank ≡ (M.meaning (M.numbers model.now)).rank k node.state.now }
    requires hash { node.member.hash ≡ (M.meaning (M.numbers model.now)).hash k node.state.now }
    requires live { found.old.table.live ≤ (M.meaning (M.numbers model.now)).words }
    requires zeros { AllHaveZeros (M.meaning (M.numbers model.now)) (k + 1) found.old.table.live }
    requires words { region.old.words ≡ (M.meaning (M.numbers model.now)).words }
    requires spare { (M.meaning (M.numbers model.now)).choices k ≤ region.old.spare }
    requires held { AreLive region.old (spot.old.place ∷ table_rows found.old.table) }
    requires joined { IsWayTable (M.meaning (M.numbers model.now)) (k + 1) region.old found.old.table }
    requires room { HasTableRoom (length found.old.table.ways.items + (M.meaning (M.numbers model.now)).choices k) found.old.table }
    requires marks_room { length found.old.table.ways.items + (M.meaning (M.numbers model.now)).choices k ≤ length found.old.marks.items }
    requires arcs_room { length arcs.old.items + (M.meaning (M.numbers model.now)).choices k ≤ vec_capacity arcs.old }
    ensures extended { TookIn (M.meaning (M.numbers model.now)) k node.entry.member.step node.entry.state.now node.entry.member.value (below ((M.meaning (M.numbers model.now)).choices k)) region.old found.old.table region.new found.new.table }
    ensures exchanged { HasExchanged region.old (spot.old.place ∷ table_rows found.old.table) region.new (spot.new.place ∷ table_rows found.new.table) }
    ensures tried { (ts : List Trial) → AreTried (M.meaning (M.numbers model.now)) k (way_row region.old found.old.table.ways.items) (length found.old.table.ways.items) ts found.old.marks.items (to_ways arcs.old.items)
        → AreTried (M.meaning (M.numbers model.now)) k (way_row region.new found.new.table.ways.items) (length found.new.table.ways.items) (ts ++ trials_by (M.meaning (M.numbers model.now)) k node.entry.state.now node.entry.exact (below ((M.meaning (M.numbers model.now)).choices k))) found.new.marks.items (to_ways arcs.new.items) }
    ensures live { found.new.table.live ≡ found.old.table.live }
    ensures room { KeepsTableRoom found.old.table found.new.table }
    ensures marks { length found.new.marks.items ≡ length found.old.marks.items }
    ensures arcs_few { length arcs.new.items ≤ length arcs.old.items + (M.meaning (M.numbers model.now)).choices k }
    ensures arcs_capacity { vec_capacity arcs.new ≡ vec_capacity arcs.old }
{
    let from = Parent::of(node.member, node.state);
    let choices = model.choices(k);
    let mut decision = model.next_choice(k, node.state, 0);
    'decisions: while decision < choices {
        let attempt = Attempt {
            parent: from,
            exact: node.exact,
            decision,
        };
        try_by(model, k, attempt, region, spot, found, arcs);
        decision = model.next_choice(k, node.state, decision + 1);
    }
}

/// The node as a member of its layer, reached by the step of its place.
fn member_of(node: &Node, place: usize) -> Member
    requires { place < 2 ^ 32 }
    ensures { result ≡ member_of node.now place }
{
    Member {
        value: node.value,
        rank: node.rank,
        hash: node.hash,
        row: node.row,
        step: place as u32,
    }
}

/// The node's arcs are those from the first to the end.
fn span(node: &mut Node, first: usize, end: usize)
    requires order { first ≤ end }
    requires small { end < 2 ^ 32 }
    ensures { (count : ℕ) → end ≡ first + count → node.new ≡ spanned first count node.old }
{
    node.first_arc = first as u32;
    node.arcs = (end - first) as u32;
}

/// Copies a live row of the region.
fn copy_row(region: &Region, place: u32, cells: &mut [i64])
    requires live { IsLive region.now place }
    requires cells { length cells.old ≡ region.now.words }
    ensures { cells.new ≡ held_row region.now place }
{
    cells.copy_from_slice(row_of(region, place));
}

/// Extends the nodes of the layer at depth `k`, whose rows the region has, by each allowed decision: of each state the first way
/// of greatest value is kept, with a mark where each way to it comes from an exact node, and an arc for each way leads to the
/// place of its state. The rows of the states are put into the region; each node's own is copied to `from` while it is extended.
pub fn extend_layer<M: DpModel>(
    model: &M,
    k: usize,
    region: &mut Region,
    from: &mut [i64],
    nodes: &mut [Node],
    arcs: &mut Vec<StoredArc>,
    found: &mut MarkedWays,
)
    requires layer { k < (M.meaning (M.numbers model.now)).vars }
    requires words { region.old.words ≡ (M.meaning (M.numbers model.now)).words }
    requires cells { length from.old ≡ (M.meaning (M.numbers model.now)).words }
    requires members { Each (IsMemberOf (M.meaning (M.numbers model.now)) k region.old) (members_from 0 nodes.old) }
    requires few_nodes { length nodes.old < 2 ^ 32 }
    requires spare { length nodes.old * (M.meaning (M.numbers model.now)).choices k + 1 ≤ region.old.spare }
    requires room { HasTableRoom (length nodes.old * (M.meaning (M.numbers model.now)).choices k) found.old.table }
    requires marks_room { length nodes.old * (M.meaning (M.numbers model.now)).choices k ≤ length found.old.marks.items }
    requires arcs_room { length nodes.old * (M.meaning (M.numbers model.now)).choices k ≤ vec_capacity arcs.old }
    ensures distinct { AreDistinct (M.meaning (M.numbers model.now)) (k + 1) (way_row region.new found.new.table.ways.items) found.new.table.ways.items }
    ensures list { (paths : ℕ → List ℕ) → all_reached paths (way_row region.new found.new.table.ways.items) found.new.table.ways.items ≡ all_joined [] (candidates (M.meaning (M.numbers model.now)) k (members_as paths region.old (members_from 0 nodes.old))) }
    ensures exchanged { HasExchanged region.old [] region.new (table_rows found.new.table) }
    ensures tried { AreTried (M.meaning (M.numbers model.now)) k (way_row region.new found.new.table.ways.items) (length found.new.table.ways.items) (trials_of (M.meaning (M.numbers model.now)) k (held_row region.old) nodes.old) found.new.marks.items (to_ways arcs.new.items) }
    ensures nodes { nodes.new ≡ all_spanned (M.meaning (M.numbers model.now)) k (held_row region.old) 0 nodes.old }
    ensures few { length found.new.table.ways.items ≤ length nodes.old * (M.meaning (M.numbers model.now)).choices k }
    ensures parents { HaveParents found.new.table.ways.items }
    ensures room { KeepsTableRoom found.old.table found.new.table }
    ensures marks { length found.new.marks.items ≡ length found.old.marks.items }
    ensures arcs_few { length arcs.new.items ≤ length nodes.old * (M.meaning (M.numbers model.now)).choices k }
    ensures arcs_capacity { vec_capacity arcs.new ≡ vec_capacity arcs.old }
{
    let live = model.first_live(k + 1);
    found
        .table
        .clear(live, nodes.len() * model.choices(k) as usize);
    arcs.clear();
    let mut spot = take_row(region);
    'nodes: for i in 0..nodes.len() {
        let node = nodes[i];
        let parent = member_of(&node, i);
        copy_row(region, node.row, from);
        let first = arcs.len();
        let tried = TriedNode {
            member: parent,
            state: from,
            exact: node.exact,
        };
        try_node(model, k, tried, region, &mut spot, found, arcs);
        span(&mut nodes[i], first, arcs.len());
    }
    region.give(spot);
}
