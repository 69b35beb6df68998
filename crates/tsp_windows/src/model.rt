ghost use Rattle.std.specs.Prelude.{◌≡◌, ℕ, ◌+◌, ◌*◌, ◌^◌, ◌<◌, ◌≤◌, ◌≤ℤ◌, ◌↔◌, pos, nat_le, if◌then◌else◌, true, false, Some, None, IsTrue, IsNone, IfSome, is_some, length};
ghost use Rattle.dp_model.specs.Gaps.{within};
ghost use Rattle.node_sets.specs.Sets as sets;
ghost use Rattle.node_sets.specs.Sets.{AreWords};
ghost use Rattle.node_sets.specs.Sums.{count_below};
ghost use Rattle.pending_rows.specs.Pending.{is_open};
ghost use Rattle.tsp_windows.specs.Instance.{closing};
ghost use Rattle.tsp_windows.specs.Program.{gap_of};
ghost use Rattle.tsp_windows.specs.States as states;
ghost use Rattle.tsp_windows.specs.States.{shown, row_for, is_state_row};
ghost use Rattle.tsp_windows.specs.FromHome.{IsFromHome};
ghost use Rattle.tsp_windows.specs.Shown.{instance_in};

use crate::instance::TspWindows;
use crate::parts::{MOST_WORDS, few, pending_of, positions_of, time_of};
use crate::ways::{least_leg, ways_within};
use dp_model::{DpModel, Extended, Fingerprint, fold};
use node_sets::{
    clear, contains, is_empty, is_set, is_subset, least, union_with, words_for, write_one,
    write_others, write_split,
};
use pending_rows::{is_row, left, left_after, next_open, parts_of};

/// When the node of an allowed decision is reached, and how many nodes must be visited after it.
#[derive(Clone, Copy)]
struct Reached {
    arrival: u64,
    left: i64,
}

/// Whether each way on from the one state is one from the other, and no later.
fn covers(nodes: usize, a: &[i64], s: &[i64]) -> bool
    requires few { nodes ≤ 300 }
    requires covering { IsTrue (is_state_row nodes a.now) }
    requires state { IsTrue (is_state_row nodes s.now) }
    ensures { result ≡ states.covers nodes (shown (sets.words_for nodes) a.now) (shown (sets.words_for nodes) s.now) }
{
    let pending = pending_rows::covers(nodes, pending_of(nodes, a), pending_of(nodes, s));
    if !pending {
        return false;
    }
    let wide = positions_of(nodes, a);
    let part = positions_of(nodes, s);
    is_subset(part, wide)
}

/// By how much earlier the one state is than the other, where it covers it.
fn gap_between(nodes: usize, a: &[i64], s: &[i64]) -> Option<i64>
    requires few { nodes ≤ 300 }
    requires covering { IsTrue (is_state_row nodes a.now) }
    requires state { IsTrue (is_state_row nodes s.now) }
    ensures { result ≡ gap_of nodes (shown (sets.words_for nodes) a.now) (shown (sets.words_for nodes) s.now) }
{
    if covers(nodes, a, s) {
        Some(time_of(nodes, s) as i64 - time_of(nodes, a) as i64)
    } else {
        None
    }
}

/// The same, where that is at most `most`. A state from which more nodes must be visited covers none from which fewer must.
fn gap_within(
    nodes: usize,
    a: &[i64],
    rank_a: i64,
    s: &[i64],
    rank_s: i64,
    most: i64,
) -> Option<i64>
    requires few { nodes ≤ 300 }
    requires covering { IsTrue (is_state_row nodes a.now) }
    requires state { IsTrue (is_state_row nodes s.now) }
    requires covering_rank { rank_a ≡ pos (count_below nodes (shown (sets.words_for nodes) a.now).pending.must) }
    requires rank { rank_s ≡ pos (count_below nodes (shown (sets.words_for nodes) s.now).pending.must) }
    ensures { result ≡ within most (gap_of nodes (shown (sets.words_for nodes) a.now) (shown (sets.words_for nodes) s.now)) }
{
    if rank_a > rank_s {
        return None;
    }
    let gap = gap_between(nodes, a, s)?;
    if gap <= most { Some(gap) } else { None }
}

/// Whether there is a position, and node 0 is in neither of the other two sets.
fn is_sound(positions: &[i64], must: &[i64], may: &[i64]) -> bool
    requires positions_cells { AreWords positions.now }
    requires must_cells { AreWords must.now }
    requires may_cells { AreWords may.now }
    requires must_some { 1 ≤ length must.now }
    requires may_some { 1 ≤ length may.now }
    ensures { IsTrue result ↔ IsFromHome positions.now must.now may.now }
{
    !is_empty(positions) && !contains(must, 0) && !contains(may, 0)
}

/// Whether a row of the right length is a state.
fn is_state_of(nodes: usize, s: &[i64]) -> bool
    requires some { 1 ≤ nodes }
    requires few { nodes ≤ 300 }
    requires cells { length s.now ≡ 3 * sets.words_for nodes + 1 }
    ensures { result ≡ is_state_row nodes s.now }
{
    let words = words_for(nodes);
    let positions = &s[..words];
    let set = is_set(positions, nodes);
    if !set {
        return false;
    }
    let rest = &s[words..];
    let row = is_row(nodes, rest);
    if !row {
        return false;
    }
    let state = parts_of(nodes, rest);
    is_sound(positions, state.must, state.may)
}

/// The number that a rank stands for.
fn counted(rank: i64) -> usize
    requires { pos 0 ≤ℤ rank }
    ensures { (count : ℕ) → rank ≡ pos count → result ≡ count }
{
    rank as usize
}

impl TspWindows {
    /// The least distance to a node from a position other than it, or none where there is no such position.
    fn leg(&self, s: &[i64], to: usize) -> Option<u32>
        requires state { IsTrue (is_state_row self.now.nodes s.now) }
        requires inside { to < self.now.nodes }
        ensures { result ≡ states.leg (instance_in self.now) (shown (sets.words_for self.now.nodes) s.now) to }
    {
        least_leg(self.nodes, &self.distances, positions_of(self.nodes, s), to)
    }

    /// When a node is reached at the earliest.
    fn arrival(&self, s: &[i64], to: usize) -> u64
        requires state { IsTrue (is_state_row self.now.nodes s.now) }
        requires inside { to < self.now.nodes }
        ensures value { result ≡ states.arrival (instance_in self.now) (shown (sets.words_for self.now.nodes) s.now) to }
        ensures small { result < 2 ^ 62 }
    {
        let way = self.leg(s, to).unwrap_or(0);
        time_of(self.nodes, s) + u64::from(way)
    }

    /// When a node is left at the earliest.
    fn departure(&self, s: &[i64], to: usize) -> u64
        requires state { IsTrue (is_state_row self.now.nodes s.now) }
        requires inside { to < self.now.nodes }
        ensures value { result ≡ states.departure (instance_in self.now) (shown (sets.words_for self.now.nodes) s.now) to }
        ensures small { result < 2 ^ 62 }
    {
        self.arrival(s, to).max(self.windows[to].opening)
    }

    /// The arrival at a node, where it is not too late.
    fn in_time(&self, to: usize, arrival: u64) -> Option<u64>
        requires inside { to < self.now.nodes }
        requires small { arrival < 2 ^ 62 }
        ensures { result ≡ (if nat_le arrival (closing (instance_in self.now) to) then Some arrival else None) }
    {
        if arrival <= self.windows[to].closing {
            Some(arrival)
        } else {
            None
        }
    }

    /// How a node other than 0 that must or may be visited is reached, or none where it is no such node or is not reached in
    /// time. Node 0 never must or may be. The rank is the number of nodes that must be visited.
    #[inline(always)]
    fn visited(&self, s: &[i64], rank: i64, to: usize) -> Option<Reached>
        requires state { IsTrue (is_state_row self.now.nodes s.now) }
        requires rank { rank ≡ pos (count_below self.now.nodes (shown (sets.words_for self.now.nodes) s.now).pending.must) }
        requires inside { to < self.now.nodes }
        ensures allowed { is_some result ≡ states.may_visit (instance_in self.now) (shown (sets.words_for self.now.nodes) s.now) to }
        ensures arrival { IfSome result (λ r. r.arrival ≡ states.arrival (instance_in self.now) (shown (sets.words_for self.now.nodes) s.now) to) }
        ensures small { IfSome result (λ r. r.arrival < 2 ^ 62) }
        ensures left { IfSome result (λ r. r.left ≡ pos (count_below self.now.nodes (states.moved (instance_in self.now) (shown (sets.words_for self.now.nodes) s.now) to).pending.must)) }
    {
        let time = time_of(self.nodes, s);
        if time >= self.too_late[to] {
            return None;
        }
        let left = left_after(self.nodes, pending_of(self.nodes, s), rank, to)?;
        let way = self.leg(s, to)?;
        let arrival = self.in_time(to, time + u64::from(way))?;
        Some(Reached { arrival, left })
    }

    /// When node 0 is reached again, or none where it is another node, a node is left to be visited or it is not reached in
    /// time. The rank is the number of nodes that must be visited.
    #[inline(always)]
    fn returned(&self, s: &[i64], rank: i64, to: usize) -> Option<u64>
        requires state { IsTrue (is_state_row self.now.nodes s.now) }
        requires rank { rank ≡ pos (count_below self.now.nodes (shown (sets.words_for self.now.nodes) s.now).pending.must) }
        requires inside { to < self.now.nodes }
        ensures allowed { is_some result ≡ states.may_return (instance_in self.now) (shown (sets.words_for self.now.nodes) s.now) to }
        ensures arrival { IfSome result (λ at. at ≡ states.arrival (instance_in self.now) (shown (sets.words_for self.now.nodes) s.now) to) }
        ensures small { IfSome result (λ at. at < 2 ^ 62) }
    {
        if to != 0 {
            return None;
        }
        if rank != 0 {
            return None;
        }
        let time = time_of(self.nodes, s);
        match self.leg(s, to) {
            Some(way) => self.in_time(to, time + u64::from(way)),
            None => {
                if self.nodes == 1 {
                    self.in_time(to, time)
                } else {
                    None
                }
            }
        }
    }

    /// How the node of a decision is reached, or none where the decision is not allowed. The rank is the number of nodes that
    /// must be visited.
    #[inline(always)]
    fn reached(&self, k: usize, s: &[i64], rank: i64, to: usize) -> Option<Reached>
        requires layer { k < self.now.nodes }
        requires state { IsTrue (is_state_row self.now.nodes s.now) }
        requires rank { rank ≡ pos (count_below self.now.nodes (shown (sets.words_for self.now.nodes) s.now).pending.must) }
        requires inside { to < self.now.nodes }
        ensures allowed { is_some result ≡ states.may_go (instance_in self.now) k (shown (sets.words_for self.now.nodes) s.now) to }
        ensures arrival { IfSome result (λ r. r.arrival ≡ states.arrival (instance_in self.now) (shown (sets.words_for self.now.nodes) s.now) to) }
        ensures small { IfSome result (λ r. r.arrival < 2 ^ 62) }
        ensures left { IfSome result (λ r. r.left ≡ pos (count_below self.now.nodes (states.moved (instance_in self.now) (shown (sets.words_for self.now.nodes) s.now) to).pending.must)) }
    {
        if k + 1 < self.nodes {
            return self.visited(s, rank, to);
        }
        let arrival = self.returned(s, rank, to)?;
        Some(Reached { arrival, left: 0 })
    }

    /// The first node from one on that must or may be visited, or the number of nodes where there is none.
    #[inline]
    fn next_open(&self, s: &[i64], from: usize) -> usize
        requires state { IsTrue (is_state_row self.now.nodes s.now) }
        requires from { from ≤ self.now.nodes }
        ensures on { from ≤ result }
        ensures within { result ≤ self.now.nodes }
        ensures skipped { (v : ℕ) → from ≤ v → v < result → is_open (shown (sets.words_for self.now.nodes) s.now).pending v ≡ false }
    {
        next_open(self.nodes, pending_of(self.nodes, s), from)
    }

    /// The first node from one on to which a decision may lead, as far as the layer and the sets tell: no decision before it is
    /// allowed. Only node 0 ends the tour.
    #[inline]
    fn next_node(&self, k: usize, s: &[i64], from: usize) -> usize
        requires layer { k < self.now.nodes }
        requires state { IsTrue (is_state_row self.now.nodes s.now) }
        requires from { from ≤ self.now.nodes }
        ensures on { from ≤ result }
        ensures within { result ≤ self.now.nodes }
        ensures skipped { (v : ℕ) → from ≤ v → v < result → states.may_go (instance_in self.now) k (shown (sets.words_for self.now.nodes) s.now) v ≡ false }
    {
        if self.nodes == k + 1 {
            return if from == 0 { 0 } else { self.nodes };
        }
        self.next_open(s, from)
    }

    /// How many nodes must be visited.
    fn left(&self, s: &[i64]) -> i64
        requires { IsTrue (is_state_row self.now.nodes s.now) }
        ensures { result ≡ pos (count_below self.now.nodes (shown (sets.words_for self.now.nodes) s.now).pending.must) }
    {
        left(self.nodes, pending_of(self.nodes, s))
    }

    /// The sum of the least ways to the nodes that must be visited and home, or none where the state is lost. The rank is the
    /// number of nodes that must be visited.
    fn way_left(&self, k: usize, s: &[i64], rank: i64) -> Option<u64>
        requires layer { k < self.now.nodes }
        requires state { IsTrue (is_state_row self.now.nodes s.now) }
        requires rank { rank ≡ pos (count_below self.now.nodes (shown (sets.words_for self.now.nodes) s.now).pending.must) }
        ensures lost { IsNone result → states.is_lost (instance_in self.now) k (shown (sets.words_for self.now.nodes) s.now) ≡ true }
        ensures left { IfSome result (λ way. (states.is_lost (instance_in self.now) k (shown (sets.words_for self.now.nodes) s.now) ≡ false)
            × (way ≡ states.way_left (instance_in self.now) (shown (sets.words_for self.now.nodes) s.now))) }
        ensures small { IfSome result (λ way. way < 2 ^ 62) }
    {
        let state = parts_of(self.nodes, pending_of(self.nodes, s));
        let wanted = counted(rank);
        if wanted + k + 1 > self.nodes {
            return None;
        }
        let home = u64::from(self.nearest[0]);
        if state.time + home > self.windows[0].closing {
            return None;
        }
        let ways = ways_within(&self.nearest, &self.too_late, state.must, state.time)?;
        Some(ways + home)
    }
}

/// Writes the root state.
fn write_root(out: &mut [i64], model: &TspWindows)
    requires { length out.old ≡ 3 * sets.words_for model.now.nodes + 1 }
    ensures { out.new ≡ row_for (sets.words_for model.now.nodes) (states.start (instance_in model.now)) }
{
    let words = words_for(model.nodes);
    let (positions, rest) = out.split_at_mut(words);
    let (must, rest) = rest.split_at_mut(words);
    let (may, time) = rest.split_at_mut(words);
    write_one(positions, 0);
    write_others(must, model.nodes);
    clear(may);
    time[0] = model.windows[0].opening as i64;
}

/// Writes the state after a visit, by when the node is left. The code repeats that a set takes at most 10 words, for
/// the compiler.
#[inline]
fn write_moved(out: &mut [i64], model: &TspWindows, s: &[i64], to: usize, departure: u64)
    requires cells { length out.old ≡ 3 * sets.words_for model.now.nodes + 1 }
    requires state { IsTrue (is_state_row model.now.nodes s.now) }
    requires inside { to < model.now.nodes }
    requires departure { departure ≡ states.departure (instance_in model.now) (shown (sets.words_for model.now.nodes) s.now) to }
    requires small { departure < 2 ^ 62 }
    ensures { out.new ≡ row_for (sets.words_for model.now.nodes) (states.moved (instance_in model.now) (shown (sets.words_for model.now.nodes) s.now) to) }
{
    let words = words_for(model.nodes).min(MOST_WORDS);
    let state = parts_of(model.nodes, pending_of(model.nodes, s));
    let (positions, rest) = out.split_at_mut(words);
    let (must, rest) = rest.split_at_mut(words);
    let (may, time) = rest.split_at_mut(words);
    write_split(positions, must, may, state.must, state.may, to);
    time[0] = departure as i64;
}

/// Makes a state what it has together with another one.
fn write_joined(acc: &mut [i64], nodes: usize, s: &[i64])
    requires few { nodes ≤ 300 }
    requires kept { IsTrue (is_state_row nodes acc.old) }
    requires state { IsTrue (is_state_row nodes s.now) }
    ensures { acc.new ≡ row_for (sets.words_for nodes) (states.joined (shown (sets.words_for nodes) acc.old) (shown (sets.words_for nodes) s.now)) }
{
    let words = words_for(nodes);
    let (positions, pending) = acc.split_at_mut(words);
    union_with(positions, positions_of(nodes, s));
    pending_rows::write_joined(pending, nodes, pending_of(nodes, s));
}

impl DpModel for TspWindows {
    ghost use Rattle.tsp_windows.specs.Instance.{numbers_of};
    ghost use Rattle.tsp_windows.specs.Program.{program};
    ghost use Rattle.tsp_windows.specs.Shown.{instance_in};
    ghost use Rattle.tsp_windows.specs.Laws.Limits.{lawful_numbers, chained_numbers};

    ghost numbers = { λ m. numbers_of (instance_in m) };

    ghost meaning = { program };

    ghost lawful = { λ m. lawful_numbers (instance_in m) m.small m.spelled };

    ghost chained = { λ m. chained_numbers (instance_in m) m.spelled };

    fn vars(&self) -> usize {
        self.nodes
    }

    fn words(&self) -> usize {
        3 * words_for(self.nodes) + 1
    }

    fn choices(&self, _k: usize) -> u32 {
        self.nodes as u32
    }

    fn root(&self, out: &mut [i64]) {
        write_root(out, self);
    }

    fn root_value(&self) -> i64 {
        -(self.windows[0].opening as i64)
    }

    #[inline(always)]
    fn allowed(&self, k: usize, s: &[i64], d: u32) -> bool {
        self.reached(k, s, self.left(s), d as usize).is_some()
    }

    fn step(&self, _k: usize, s: &[i64], d: u32, out: &mut [i64]) {
        let departure = self.departure(s, d as usize);
        write_moved(out, self, s, d as usize, departure);
    }

    fn gain(&self, _k: usize, s: &[i64], d: u32) -> i64 {
        time_of(self.nodes, s) as i64 - self.departure(s, d as usize) as i64
    }

    fn merge_into(&self, _k: usize, acc: &mut [i64], s: &[i64]) {
        write_joined(acc, few(self.nodes), s);
    }

    #[tactic(auto, using(crate::proofs::Merging::any_order_numbers))]
    fn merges_in_any_order(&self) -> bool {
        true
    }

    fn gap(&self, _k: usize, a: &[i64], s: &[i64]) -> Option<i64> {
        gap_between(self.nodes, a, s)
    }

    #[inline]
    fn covers_within(
        &self,
        _k: usize,
        a: &[i64],
        rank_a: i64,
        s: &[i64],
        rank_s: i64,
        most: i64,
    ) -> Option<i64> {
        gap_within(self.nodes, a, rank_a, s, rank_s, most)
    }

    // `covers_within` begins with the ranks, and hashes of tours tell nothing else.
    #[inline(always)]
    fn may_cover(
        &self,
        _k: usize,
        _a: &[i64],
        _of_a: Fingerprint,
        _s: &[i64],
        _of_s: Fingerprint,
        _most: i64,
    ) -> bool {
        true
    }

    fn rough(&self, k: usize, s: &[i64]) -> Option<i64> {
        self.rough_by_rank(k, s, self.left(s))
    }

    fn rough_by_rank(&self, k: usize, s: &[i64], rank: i64) -> Option<i64> {
        if k >= self.nodes {
            return Some(0);
        }
        match self.way_left(k, s, rank) {
            Some(way) => Some(-(way as i64)),
            None => None,
        }
    }

    fn rank(&self, _k: usize, s: &[i64]) -> i64 {
        self.left(s)
    }

    #[inline(always)]
    fn extend(
        &self,
        k: usize,
        s: &[i64],
        rank: i64,
        d: u32,
        _zeros: usize,
        out: &mut [i64],
    ) -> Option<Extended> {
        let to = d as usize;
        let reached = self.reached(k, s, rank, to)?;
        let departure = reached.arrival.max(self.windows[to].opening);
        let gain = time_of(self.nodes, s) as i64 - departure as i64;
        write_moved(out, self, s, to, departure);
        Some(Extended {
            gain,
            rank: reached.left,
        })
    }

    #[inline(always)]
    fn next_choice(&self, k: usize, s: &[i64], from: u32) -> u32 {
        self.next_node(k, s, from as usize) as u32
    }

    fn bucket(&self, _k: usize, s: &[i64]) -> u64 {
        match least(positions_of(self.nodes, s)) {
            Some(position) => position as u64,
            None => 0,
        }
    }

    fn hash(&self, _k: usize, s: &[i64]) -> u64 {
        fold(0, s)
    }

    fn is_state(&self, _k: usize, s: &[i64]) -> bool {
        is_state_of(self.nodes, s)
    }
}
