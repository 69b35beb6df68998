//! The ways to a layer in order become its nodes, and their routes lead to the places of these.

ghost use Rattle.std.specs.Prelude.{◌≡◌, ◌≢◌, ℕ, ◌<◌, ◌≤◌, ◌^◌, Bool, true, false, List, length, map, replicate, None, vec_capacity, IsPermutation, IsTrue};
ghost use Rattle.dp_model.specs.Lists.{Each};
ghost use Rattle.layer_nodes.specs.Expanding.{mark_at, key_in, number_at, IsNumbered, HaveParents, node_of, AreArranged};
ghost use Rattle.layer_nodes.specs.Packed.{no_place};
ghost use Rattle.layer_nodes.specs.Routing.{nowhere, IsPlain};
ghost use Rattle.layer_nodes.specs.Reducing.{AreListed, AreInexact, AreFirst, HasMergedKeys, AreReduced};
ghost use Rattle.layer_nodes.specs.Sifting.{AreOrdered, AreSifted};
ghost use Rattle.dp_model.specs.Laws.{MergesInAnyOrder};
ghost use Rattle.dp_laws.specs.Pairs.{EachTwo};
ghost use Rattle.layer_candidates.specs.KeyOrder.{key_rows};
ghost use Rattle.layer_candidates.specs.Pruning.{unstruck_keys};
ghost use Rattle.layer_candidates.specs.HeldRows.{held_row, AreLive, HasLeft};
ghost use Rattle.layer_candidates.specs.Rows.{HasZeros};
ghost use Rattle.layer_candidates.specs.Ways.{way_at, rows_of, way_row, AreDistinct};
ghost use Rattle.layer_nodes.specs.Stored.{rows_in};
ghost use Rattle.row_region.specs.Region.{IsLive};

use crate::extending::MarkedWays;
use crate::node::Node;
use crate::packed::{PackedLength, PackedPlace};
use crate::reducing::{are_inexact, merge_keys};
use crate::routing::{Route, nowhere};
use dp_model::DpModel;
use layer_candidates::{Key, Way, list_unstruck, put_in_order, sort, sort_first};
use row_region::Region;

/// The ways to the next layer, with the memory in which they are put into the reduction order.
#[derive(Debug, Drop)]
pub struct Arrangement {
    /// The ways, each with its mark.
    pub found: MarkedWays,
    // the keys of the ways in the reduction order
    pub(crate) keys: Vec<Key>,
}

/// Becomes the routes of this many ways, which lead nowhere.
fn clear_routes(routes: &mut Vec<Route>, count: usize)
    requires room { count ≤ vec_capacity routes.old }
    ensures routes { routes.new.items ≡ replicate count nowhere }
    ensures capacity { vec_capacity routes.old ≤ vec_capacity routes.new }
{
    routes.clear();
    let _ = routes.resize(count, nowhere());
}

/// Numbers the ways by the places of their keys: the route of each leads to its number. The routes of other ways stay.
fn number(keys: &[Key], routes: &mut [Route])
    requires within { Each (λ key. key.place < length routes.old) keys.now }
    requires small { length keys.now < 2 ^ 32 }
    requires plain { Each IsPlain routes.old }
    ensures numbered { (j : ℕ) → j < length keys.now → IsNumbered (length keys.now) keys.now routes.new (key_in keys.now j).place }
    ensures others { (p : ℕ) → ((j : ℕ) → j < length keys.now → (key_in keys.now j).place ≢ p) → number_at routes.new p ≡ number_at routes.old p }
    ensures plain { Each IsPlain routes.new }
    ensures same { length routes.new ≡ length routes.old }
{
    'keys: for i in 0..keys.len() {
        routes[keys[i].place as usize] = Route {
            target: Some(i as u32),
            longer: 0,
        };
    }
}

/// Numbers those of this many ways that have keys, by the places of these. The routes of the others lead nowhere.
pub(crate) fn number_ways(keys: &[Key], count: usize, routes: &mut Vec<Route>)
    requires room { count ≤ vec_capacity routes.old }
    requires within { Each (λ key. key.place < count) keys.now }
    requires small { length keys.now < 2 ^ 32 }
    ensures numbered { (j : ℕ) → j < length keys.now → IsNumbered (length keys.now) keys.now routes.new.items (key_in keys.now j).place }
    ensures others { (p : ℕ) → Each (λ key. key.place ≢ p) keys.now → number_at routes.new.items p ≡ None }
    ensures plain { Each IsPlain routes.new.items }
    ensures count { length routes.new.items ≡ count }
    ensures capacity { vec_capacity routes.old ≤ vec_capacity routes.new }
{
    clear_routes(routes, count);
    number(keys, routes.as_mut_slice());
}

/// The node of a key's way, with its mark.
fn node_of(way: Way, key: Key, exact: bool) -> Node
    requires { way.parent < no_place }
    ensures { (ways : List Way) (marks : List Bool) → way ≡ way_at ways key.place → exact ≡ mark_at marks key.place → result ≡ node_of ways marks key }
{
    Node {
        value: key.value,
        rank: key.rank,
        hash: way.hash,
        suffix: PackedLength::of(None),
        parent: PackedPlace::of(Some(way.parent)),
        row: key.row,
        decision: way.decision,
        first_arc: 0,
        arcs: 0,
        exact,
    }
}

/// Becomes the nodes of the keys, each with the way and the mark of its place.
pub(crate) fn list_nodes(ways: &[Way], keys: &[Key], marks: &[bool], nodes: &mut Vec<Node>)
    requires ways { Each (λ key. key.place < length ways.now) keys.now }
    requires parents { HaveParents ways.now }
    requires marks { Each (λ key. key.place < length marks.now) keys.now }
    requires room { length keys.now ≤ vec_capacity nodes.old }
    ensures nodes { nodes.new.items ≡ map (node_of ways.now marks.now) keys.now }
    ensures capacity { vec_capacity nodes.new ≡ vec_capacity nodes.old }
{
    nodes.clear();
    'keys: for i in 0..keys.len() {
        let key = keys[i];
        let place = key.place as usize;
        nodes.push_reserved(node_of(ways[place], key, marks[place]));
    }
}

impl Arrangement {
    /// Puts the ways into the reduction order, in which they become the nodes, each with the mark of its place; the routes of the
    /// ways lead to the places of the nodes. The first `live` cells of all rows are zero, and are not compared.
    pub fn arrange(
        &mut self,
        region: &Region,
        live: usize,
        routes: &mut Vec<Route>,
        nodes: &mut Vec<Node>,
    )
        requires held { Each (IsLive region.now) (rows_of self.old.found.table.ways.items) }
        requires zeros { (i : ℕ) → i < length self.old.found.table.ways.items → HasZeros live (way_row region.now self.old.found.table.ways.items i) }
        requires parents { HaveParents self.old.found.table.ways.items }
        requires small { length self.old.found.table.ways.items < 2 ^ 32 }
        requires marks_room { length self.old.found.table.ways.items ≤ length self.old.found.marks.items }
        requires keys_room { length self.old.found.table.ways.items ≤ vec_capacity self.old.keys }
        requires routes_room { length self.old.found.table.ways.items ≤ vec_capacity routes.old }
        requires nodes_room { length self.old.found.table.ways.items ≤ vec_capacity nodes.old }
        ensures arranged { AreArranged (held_row region.now) self.old.found.table.ways.items self.old.found.marks.items routes.new.items nodes.new.items }
        ensures found { self.new.found ≡ self.old.found }
        ensures keys_capacity { vec_capacity self.new.keys ≡ vec_capacity self.old.keys }
        ensures routes_capacity { vec_capacity routes.old ≤ vec_capacity routes.new }
        ensures nodes_capacity { vec_capacity nodes.new ≡ vec_capacity nodes.old }
    {
        let ways = self.found.table.ways.as_slice();
        put_in_order(region, live, ways, &mut self.keys);
        let keys = self.keys.as_slice();
        number_ways(keys, ways.len(), routes);
        let marks = self.found.marks.as_slice();
        list_nodes(ways, keys, marks, nodes);
    }

    /// Puts the ways that are not struck into the reduction order, in which they become the nodes, each with the mark of its place;
    /// the routes of the ways lead to the places of the nodes, and those of struck ways lead nowhere. The rows of the struck ways
    /// are given back.
    pub fn arrange_unstruck<M: DpModel>(
        &mut self,
        model: &M,
        k: usize,
        threshold: Option<i64>,
        region: &mut Region,
        routes: &mut Vec<Route>,
        nodes: &mut Vec<Node>,
    )
        requires layer { k ≤ (M.meaning (M.numbers model.now)).vars }
        requires distinct { AreDistinct (M.meaning (M.numbers model.now)) k (way_row region.old self.old.found.table.ways.items) self.old.found.table.ways.items }
        requires held { AreLive region.old (rows_of self.old.found.table.ways.items) }
        requires parents { HaveParents self.old.found.table.ways.items }
        requires small { length self.old.found.table.ways.items < 2 ^ 32 }
        requires marks_room { length self.old.found.table.ways.items ≤ length self.old.found.marks.items }
        requires keys_room { length self.old.found.table.ways.items ≤ vec_capacity self.old.keys }
        requires routes_room { length self.old.found.table.ways.items ≤ vec_capacity routes.old }
        requires nodes_room { length self.old.found.table.ways.items ≤ vec_capacity nodes.old }
        ensures arranged { AreSifted (M.meaning (M.numbers model.now)) k threshold region.old self.old.found.table.ways.items self.old.found.marks.items routes.new.items nodes.new.items }
        ensures left { HasLeft region.old (rows_of self.old.found.table.ways.items) region.new (rows_in nodes.new.items) }
        ensures found { self.new.found ≡ self.old.found }
        ensures keys_capacity { vec_capacity self.new.keys ≡ vec_capacity self.old.keys }
        ensures routes_capacity { vec_capacity routes.old ≤ vec_capacity routes.new }
        ensures nodes_capacity { vec_capacity nodes.new ≡ vec_capacity nodes.old }
    {
        self.list(model, k, threshold, region);
        self.order(model, k, region, routes, nodes);
    }

    /// Lists the keys of the ways that are not struck. The rows of the struck ways are given back.
    fn list<M: DpModel>(&mut self, model: &M, k: usize, threshold: Option<i64>, region: &mut Region)
        requires distinct { AreDistinct (M.meaning (M.numbers model.now)) k (way_row region.old self.old.found.table.ways.items) self.old.found.table.ways.items }
        requires held { AreLive region.old (rows_of self.old.found.table.ways.items) }
        requires small { length self.old.found.table.ways.items < 2 ^ 32 }
        requires keys_room { length self.old.found.table.ways.items ≤ vec_capacity self.old.keys }
        ensures keys { self.new.keys.items ≡ unstruck_keys (M.meaning (M.numbers model.now)) k threshold region.old self.old.found.table.ways.items }
        ensures left { HasLeft region.old (rows_of self.old.found.table.ways.items) region.new (key_rows self.new.keys.items) }
        ensures listed { AreListed (M.meaning (M.numbers model.now)) k region.new self.old.found.table.ways.items self.new.keys.items }
        ensures found { self.new.found ≡ self.old.found }
        ensures keys_capacity { vec_capacity self.new.keys ≡ vec_capacity self.old.keys }
    {
        let ways = self.found.table.ways.as_slice();
        list_unstruck(model, k, threshold, region, ways, &mut self.keys);
    }

    /// Puts the listed keys into the reduction order, in which their ways become the nodes, each with the mark of its place; the
    /// routes of the ways lead to the places of the nodes, and those of other ways lead nowhere.
    fn order<M: DpModel>(
        &mut self,
        model: &M,
        k: usize,
        region: &Region,
        routes: &mut Vec<Route>,
        nodes: &mut Vec<Node>,
    )
        requires layer { k ≤ (M.meaning (M.numbers model.now)).vars }
        requires listed { AreListed (M.meaning (M.numbers model.now)) k region.now self.old.found.table.ways.items self.old.keys.items }
        requires parents { HaveParents self.old.found.table.ways.items }
        requires small { length self.old.found.table.ways.items < 2 ^ 32 }
        requires marks_room { length self.old.found.table.ways.items ≤ length self.old.found.marks.items }
        requires routes_room { length self.old.found.table.ways.items ≤ vec_capacity routes.old }
        requires nodes_room { length self.old.found.table.ways.items ≤ vec_capacity nodes.old }
        ensures ordered { AreOrdered (held_row region.now) self.old.keys.items self.old.found.table.ways.items self.old.found.marks.items routes.new.items nodes.new.items }
        ensures found { self.new.found ≡ self.old.found }
        ensures keys_capacity { vec_capacity self.new.keys ≡ vec_capacity self.old.keys }
        ensures routes_capacity { vec_capacity routes.old ≤ vec_capacity routes.new }
        ensures nodes_capacity { vec_capacity nodes.new ≡ vec_capacity nodes.old }
    {
        sort(region, model.first_live(k), &mut self.keys);
        let ways = self.found.table.ways.as_slice();
        let keys = self.keys.as_slice();
        number_ways(keys, ways.len(), routes);
        let marks = self.found.marks.as_slice();
        list_nodes(ways, keys, marks, nodes);
    }

    /// Whether the listed keys may be merged but for the first ones in order: there are more of them than the width, none of their
    /// ways is exact, and the problem merges in any order.
    fn may_merge<M: DpModel>(&self, model: &M, width: usize) -> bool
        requires marks { Each (λ key. key.place < length self.now.found.marks.items) self.now.keys.items }
        ensures wide { IsTrue result → width < length self.now.keys.items }
        ensures free { IsTrue result → MergesInAnyOrder (M.meaning (M.numbers model.now)) }
        ensures inexact { IsTrue result → AreInexact self.now.found.marks.items self.now.keys.items }
    {
        self.keys.len() > width
            && model.merges_in_any_order()
            && are_inexact(self.keys.as_slice(), self.found.marks.as_slice())
    }

    /// Puts the listed keys into order as far as the first ones, as many as `first`, which become nodes. The others are merged into
    /// one that stands last, whose row is made in the cells `into` and put into the region in place of theirs.
    fn merge<M: DpModel>(
        &mut self,
        model: &M,
        k: usize,
        first: usize,
        region: &mut Region,
        into: &mut [i64],
        routes: &mut Vec<Route>,
        nodes: &mut Vec<Node>,
    )
        requires layer { k ≤ (M.meaning (M.numbers model.now)).vars }
        requires some { first < length self.old.keys.items }
        requires listed { AreListed (M.meaning (M.numbers model.now)) k region.old self.old.found.table.ways.items self.old.keys.items }
        requires words { region.old.words ≡ (M.meaning (M.numbers model.now)).words }
        requires cells { length into.old ≡ (M.meaning (M.numbers model.now)).words }
        requires parents { HaveParents self.old.found.table.ways.items }
        requires small { length self.old.found.table.ways.items < 2 ^ 32 }
        requires marks_room { length self.old.found.table.ways.items ≤ length self.old.found.marks.items }
        requires routes_room { length self.old.found.table.ways.items ≤ vec_capacity routes.old }
        requires nodes_room { length self.old.found.table.ways.items ≤ vec_capacity nodes.old }
        ensures all { IsPermutation self.old.keys.items self.new.keys.items }
        ensures first { AreFirst (held_row region.old) first self.new.keys.items }
        ensures merged { HasMergedKeys (M.meaning (M.numbers model.now)) k first region.old self.old.found.table.ways.items self.old.found.marks.items self.new.keys.items region.new routes.new.items nodes.new.items }
        ensures count { length routes.new.items ≡ length self.old.found.table.ways.items }
        ensures cells { length into.new ≡ length into.old }
        ensures found { self.new.found ≡ self.old.found }
        ensures keys_capacity { vec_capacity self.new.keys ≡ vec_capacity self.old.keys }
        ensures routes_capacity { vec_capacity routes.old ≤ vec_capacity routes.new }
        ensures nodes_capacity { vec_capacity nodes.new ≡ vec_capacity nodes.old }
    {
        sort_first(region, model.first_live(k), first, &mut self.keys);
        let ways = self.found.table.ways.as_slice();
        let keys = self.keys.as_slice();
        let marks = self.found.marks.as_slice();
        merge_keys(
            model, k, first, region, ways, marks, keys, into, routes, nodes,
        );
    }

    /// Makes the nodes as `arrange_unstruck` does. Where there are more of them than the width, none is exact, and the problem merges
    /// in any order, all but the first `width - 1` are merged into one, and only those are put into order. Answers whether it did so.
    pub fn arrange_within<M: DpModel>(
        &mut self,
        model: &M,
        k: usize,
        threshold: Option<i64>,
        width: usize,
        region: &mut Region,
        into: &mut [i64],
        routes: &mut Vec<Route>,
        nodes: &mut Vec<Node>,
    ) -> bool
        requires layer { k ≤ (M.meaning (M.numbers model.now)).vars }
        requires positive { 1 ≤ width }
        requires words { region.old.words ≡ (M.meaning (M.numbers model.now)).words }
        requires cells { length into.old ≡ (M.meaning (M.numbers model.now)).words }
        requires distinct { AreDistinct (M.meaning (M.numbers model.now)) k (way_row region.old self.old.found.table.ways.items) self.old.found.table.ways.items }
        requires held { AreLive region.old (rows_of self.old.found.table.ways.items) }
        requires parents { HaveParents self.old.found.table.ways.items }
        requires small { length self.old.found.table.ways.items < 2 ^ 32 }
        requires marks_room { length self.old.found.table.ways.items ≤ length self.old.found.marks.items }
        requires keys_room { length self.old.found.table.ways.items ≤ vec_capacity self.old.keys }
        requires routes_room { length self.old.found.table.ways.items ≤ vec_capacity routes.old }
        requires nodes_room { length self.old.found.table.ways.items ≤ vec_capacity nodes.old }
        ensures arranged { result ≡ false → AreSifted (M.meaning (M.numbers model.now)) k threshold region.old self.old.found.table.ways.items self.old.found.marks.items routes.new.items nodes.new.items }
        ensures left { result ≡ false → HasLeft region.old (rows_of self.old.found.table.ways.items) region.new (rows_in nodes.new.items) }
        ensures reduced { result ≡ true → AreReduced (M.meaning (M.numbers model.now)) k threshold width region.old self.old.found.table.ways.items self.old.found.marks.items region.new routes.new.items nodes.new.items }
        ensures cells { length into.new ≡ length into.old }
        ensures found { self.new.found ≡ self.old.found }
        ensures keys_capacity { vec_capacity self.new.keys ≡ vec_capacity self.old.keys }
        ensures routes_capacity { vec_capacity routes.old ≤ vec_capacity routes.new }
        ensures nodes_capacity { vec_capacity nodes.new ≡ vec_capacity nodes.old }
    {
        self.list(model, k, threshold, region);
        if !self.may_merge(model, width) {
            self.order(model, k, region, routes, nodes);
            return false;
        }
        self.merge(model, k, width - 1, region, into, routes, nodes);
        true
    }
}
