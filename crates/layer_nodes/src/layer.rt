ghost use Rattle.std.specs.Prelude.{◌≡◌, ◌+◌, ◌<◌, ◌≤◌, ◌^◌, [], length, map, slice_get, option_map, option_and_then, Some, IfOk, IsSome, vec_capacity};
ghost use Rattle.dp_model.specs.Lists.{Each};
ghost use Rattle.layer_candidates.specs.HeldRows.{AreLive, HasExchanged};
ghost use Rattle.layer_nodes.specs.Holding.{AreHeld, places_of, HasStarted};
ghost use Rattle.layer_nodes.specs.Nodes.{NodeView, without_arcs};
ghost use Rattle.layer_nodes.specs.Stored.{bare_of};
ghost use Rattle.layer_nodes.specs.Steps.{KeepsRoom};

use crate::node::{Node, lone_node};
use crate::routing::{Route, StoredArc, routed};
use dp_laws::DdArc;
use dp_model::OutOfMemory;
use layer_candidates::{give_rows, put_row};
use row_region::{Region, RowId};
use std::alloc::Global;
use std::fmt;
use std::marker::Model;
use std::snapshot::Snapshot;

/// A layer of a diagram: its nodes in order, with their arcs, and with the places of their rows in a region that the caller owns.
/// Its memory is made once and used again.
#[derive(Drop)]
pub struct Layer {
    pub(crate) words: usize,
    pub(crate) room: usize,
    pub(crate) nodes: Vec<Node>,
    pub(crate) arcs: Vec<StoredArc>,
    // for each way to the next layer where its arcs lead
    pub(crate) routes: Vec<Route>,
    // the region when it had the rows of the nodes
    pub(crate) held: Snapshot<Region>,
}

impl Model for Layer {
    ghost use Rattle.std.specs.Prelude.{map, vec_capacity};
    ghost use Rattle.layer_candidates.specs.HeldRows.{held_row};
    ghost use Rattle.layer_nodes.specs.Nodes.{LayerView};
    ghost use Rattle.layer_nodes.specs.Routing.{routed_arcs};
    ghost use Rattle.layer_nodes.specs.Stored.{node_view_by, HasLayer};

    ghost Value = { LayerView };

    ghost view = { λ l. record {
      words = l.words;
      nodes = map (node_view_by (held_row l.held.value) (routed_arcs l.routes.items l.arcs.items)) l.nodes.items;
      nodes_room = l.room;
      arcs_room = vec_capacity l.arcs;
    } };

    ghost invariant = { λ l. HasLayer l.room l.nodes.items (vec_capacity l.nodes) l.arcs.items (vec_capacity l.arcs) (vec_capacity l.routes) };
}

impl fmt::Debug for Layer {
    fn fmt<W: fmt::Write>(&self, f: &mut fmt::Formatter<W>) -> fmt::Result {
        f.debug_struct("Layer")
            .field("words", &self.words)
            .field("room", &self.room)
            .field("nodes", &self.nodes)
            .field("arcs", &self.arcs)
            .field("routes", &self.routes)
            .finish_non_exhaustive()
    }
}

/// The node without its arcs.
fn without_arcs(node: Node) -> Node
    ensures { result ≡ record node { first_arc = 0; arcs = 0 } }
{
    Node {
        first_arc: 0,
        arcs: 0,
        ..node
    }
}

/// Becomes copies of these nodes without arcs.
fn list_all(others: &[Node], nodes: &mut Vec<Node>)
    requires room { length others.now ≤ vec_capacity nodes.old }
    ensures nodes { nodes.new.items ≡ map bare_of others.now }
    ensures capacity { vec_capacity nodes.new ≡ vec_capacity nodes.old }
{
    nodes.clear();
    'nodes: for i in 0..others.len() {
        nodes.push_reserved(without_arcs(others[i]));
    }
}

impl Layer {
    /// An empty layer, with room for this many nodes and this many arcs in all, whose rows have this many cells and are to stand in
    /// the region.
    pub fn prepare(
        alloc: Global,
        words: usize,
        nodes: usize,
        arcs: usize,
        region: &Region,
    ) -> Result<Layer, OutOfMemory>
        requires few { nodes + 1 < 2 ^ 32 }
        requires few_arcs { arcs < 2 ^ 32 }
        ensures { IfOk result (λ l. l ≡ record { words = words; nodes = []; nodes_room = nodes; arcs_room = arcs }) }
    {
        Ok(Layer {
            words,
            room: nodes,
            nodes: Vec::with_capacity(alloc, nodes)?,
            arcs: Vec::with_capacity(alloc, arcs)?,
            routes: Vec::with_capacity(alloc, arcs)?,
            held: Snapshot::of(region),
        })
    }

    /// Becomes a layer with one exact node, which has no parent and no arcs. Its row is put into the region.
    pub fn start(&mut self, region: &mut Region, row: &[i64], value: i64, rank: i64, hash: u64)
        requires room { 1 ≤ self.old.nodes_room }
        requires cells { length row.now ≡ self.old.words }
        requires words { region.old.words ≡ self.old.words }
        requires spare { 0 < region.old.spare }
        ensures node { HasStarted row.now value rank hash region.old region.new self.new.nodes }
        ensures rooms { KeepsRoom self.old self.new }
    {
        let place = put_row(region, row);
        self.arcs.clear();
        self.routes.clear();
        self.nodes.clear();
        self.nodes
            .push_reserved(lone_node(place, value, rank, hash, true));
        self.held = Snapshot::of(region);
    }

    /// Becomes a copy of the newest layer, but for its arcs. Its nodes have the rows of the other one's, which stay where they are
    /// in the region.
    pub fn keep(&mut self, newest: &Layer, region: &Region)
        requires room { length newest.now.nodes ≤ self.old.nodes_room }
        requires words { newest.now.words ≡ self.old.words }
        requires held { AreHeld region.now newest.now.nodes }
        ensures nodes { map without_arcs self.new.nodes ≡ map without_arcs newest.now.nodes }
        ensures places { places_of self.new.nodes ≡ places_of newest.now.nodes }
        ensures bare { Each (λ (n : NodeView). n.arcs ≡ []) self.new.nodes }
        ensures held { AreHeld region.now self.new.nodes }
        ensures rooms { KeepsRoom self.old self.new }
    {
        self.arcs.clear();
        self.routes.clear();
        list_all(newest.nodes.as_slice(), &mut self.nodes);
        self.held = Snapshot::of(region);
    }

    /// Gives the rows of the nodes back to the region.
    pub fn drop_rows(&self, region: &mut Region)
        requires live { AreLive region.old (places_of self.now.nodes) }
        ensures exchanged { HasExchanged region.old (places_of self.now.nodes) region.new [] }
    {
        give_rows(region, self.nodes.as_slice());
    }

    /// How many nodes it has.
    pub fn len(&self) -> usize
        ensures count { result ≡ length self.now.nodes }
        ensures room { result ≤ self.now.nodes_room }
    {
        self.nodes.len()
    }

    /// The cells of a row.
    pub fn words(&self) -> usize
        ensures { result ≡ self.now.words }
    {
        self.words
    }

    /// The state of a node, in the region that holds the rows of the layer.
    pub fn row<'r>(&self, region: &'r Region, node: usize) -> &'r [i64]
        requires place { node < length self.now.nodes }
        requires held { AreHeld region.now self.now.nodes }
        ensures { option_map (λ n. n.row) (slice_get self.now.nodes node) ≡ Some result.now }
    {
        region.row(RowId {
            place: self.nodes[node].row,
        })
    }

    /// The greatest length of a path to a node.
    pub fn value(&self, node: usize) -> i64
        requires { node < length self.now.nodes }
        ensures { option_map (λ n. n.value) (slice_get self.now.nodes node) ≡ Some result }
    {
        self.nodes[node].value
    }

    /// The rank of a node's state in the layer.
    pub fn rank(&self, node: usize) -> i64
        requires { node < length self.now.nodes }
        ensures { option_map (λ n. n.rank) (slice_get self.now.nodes node) ≡ Some result }
    {
        self.nodes[node].rank
    }

    /// Whether a node stands for one state exactly.
    pub fn exact(&self, node: usize) -> bool
        requires { node < length self.now.nodes }
        ensures { option_map (λ n. n.exact) (slice_get self.now.nodes node) ≡ Some result }
    {
        self.nodes[node].exact
    }

    /// The place of a node's parent in the layer above, or none where it was merged or is the first of all.
    pub fn parent(&self, node: usize) -> Option<u32>
        requires { node < length self.now.nodes }
        ensures { option_map (λ n. n.parent) (slice_get self.now.nodes node) ≡ Some result }
    {
        self.nodes[node].parent.get()
    }

    /// The decision that leads to a node from its parent.
    pub fn decision(&self, node: usize) -> u32
        requires { node < length self.now.nodes }
        ensures { option_map (λ n. n.decision) (slice_get self.now.nodes node) ≡ Some result }
    {
        self.nodes[node].decision
    }

    /// The greatest length of a path from a node to the last layer, or none where there is none or it is not known yet.
    pub fn suffix(&self, node: usize) -> Option<i64>
        requires { node < length self.now.nodes }
        ensures { option_map (λ n. n.suffix) (slice_get self.now.nodes node) ≡ Some result }
    {
        self.nodes[node].suffix.get()
    }

    /// How many arcs a node has.
    pub fn arcs(&self, node: usize) -> usize
        requires { node < length self.now.nodes }
        ensures { option_map (λ n. length n.arcs) (slice_get self.now.nodes node) ≡ Some result }
    {
        self.nodes[node].arcs as usize
    }

    /// An arc of a node, by the place among its arcs, which stand by decision.
    pub fn arc(&self, node: usize, i: usize) -> DdArc
        requires { IsSome (option_and_then (λ n. slice_get n.arcs i) (slice_get self.now.nodes node)) }
        ensures { option_and_then (λ n. slice_get n.arcs i) (slice_get self.now.nodes node) ≡ Some result }
    {
        let arc = self.arcs[self.nodes[node].first_arc as usize + i];
        routed(self.routes.as_slice(), arc)
    }
}
