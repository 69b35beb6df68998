ghost use Rattle.std.specs.Prelude.{◌≡◌, ◌∷◌, [], ◌*◌, ◌<◌, ◌≤◌, ◌^◌, ℕ, nat_le, cond, length, pos, Some, None, IsTrue};
ghost use Rattle.dp_model.specs.Gaps.{within};
ghost use Rattle.knapsack.specs.Program.{left, is_left, item_at, rough_from};
ghost use Rattle.knapsack.specs.Limits.{IsSmallItem};

use crate::filling::filled;
use crate::instance::Knapsack;
use crate::item::Item;
use dp_model::{DpModel, Extended};

/// Writes a state of one cell.
#[inline]
fn write(out: &mut [i64], left: u64)
    requires cell { length out.old ≡ 1 }
    requires fits { left < 2 ^ 63 }
    ensures { out.new ≡ pos left ∷ [] }
{
    out.copy_from_slice(&[left as i64]);
}

/// What copies of an item weigh.
#[inline]
fn weight(item: Item, copies: u32) -> u64
    ensures { result ≡ copies * item.weight }
{
    u64::from(copies) * u64::from(item.weight)
}

/// What copies of an item are worth.
#[inline]
fn profit(item: Item, copies: u32) -> i64
    requires { IsSmallItem item }
    ensures { result ≡ pos (copies * item.profit) }
{
    i64::from(copies) * i64::from(item.profit)
}

/// A gap of 0 where that is at most `most` and the one capacity is no less than the other. The ranks are what is left of them.
fn gap_within(rank_a: i64, rank_s: i64, most: i64) -> Option<i64>
    ensures { (a s : ℕ) → rank_a ≡ pos a → rank_s ≡ pos s → result ≡ within most (cond (nat_le s a) (Some (pos 0)) None) }
{
    if rank_s <= rank_a && most >= 0 {
        Some(0)
    } else {
        None
    }
}

impl Knapsack {
    /// The item that a layer decides.
    #[inline]
    fn item(&self, k: usize) -> Item
        requires { k < length self.now.items.items }
        ensures value { result ≡ item_at self.now.items.items k }
        ensures small { IsSmallItem result }
    {
        self.items[k]
    }

    /// The capacity that a state has left.
    #[inline]
    fn left(&self, s: &[i64]) -> u64
        requires { IsTrue (is_left self.now.capacity s.now) }
        ensures value { result ≡ left s.now }
        ensures small { result < 2 ^ 63 }
    {
        s[0] as u64
    }

    /// The greedy fill of what is left, by the items from the layer on.
    fn fill(&self, k: usize, room: u64) -> u64
        requires { k ≤ length self.now.items.items }
        ensures value { result ≡ rough_from self.now.items.items k room }
        ensures small { result < 2 ^ 63 }
    {
        filled(&self.runs[k], room)
    }

    /// Whether a row of one cell is a capacity that may be left.
    fn may_be_left(&self, s: &[i64]) -> bool
        requires { length s.now ≡ 1 }
        ensures { result ≡ is_left self.now.capacity s.now }
    {
        s[0] >= 0 && s[0] as u64 <= self.capacity
    }
}

#[tactic(auto, using(crate::specs::Laws::Program::round_trip))]
impl DpModel for Knapsack {
    ghost use Rattle.knapsack.specs.Instance.{numbers_of};
    ghost use Rattle.knapsack.specs.Program.{program};
    ghost use Rattle.knapsack.specs.Shown.{instance_in};
    ghost use Rattle.knapsack.specs.Laws.Model.{lawful_numbers, chained_numbers};

    ghost numbers = { λ m. numbers_of (instance_in m) };

    ghost meaning = { program };

    ghost lawful = { λ m. lawful_numbers (instance_in m) m.small };

    ghost chained = { λ m. chained_numbers (instance_in m) };

    fn vars(&self) -> usize {
        self.items.len()
    }

    fn words(&self) -> usize {
        1
    }

    fn choices(&self, k: usize) -> u32 {
        self.item(k).copies + 1
    }

    fn root(&self, out: &mut [i64]) {
        write(out, self.capacity);
    }

    fn root_value(&self) -> i64 {
        0
    }

    fn allowed(&self, k: usize, s: &[i64], d: u32) -> bool {
        weight(self.item(k), d) <= self.left(s)
    }

    fn step(&self, k: usize, s: &[i64], d: u32, out: &mut [i64]) {
        write(out, self.left(s) - weight(self.item(k), d));
    }

    fn gain(&self, k: usize, _s: &[i64], d: u32) -> i64 {
        profit(self.item(k), d)
    }

    fn merge_into(&self, _k: usize, acc: &mut [i64], s: &[i64]) {
        let most = self.left(acc).max(self.left(s));
        write(acc, most);
    }

    fn gap(&self, _k: usize, a: &[i64], s: &[i64]) -> Option<i64> {
        if self.left(a) >= self.left(s) {
            Some(0)
        } else {
            None
        }
    }

    #[inline]
    fn covers_within(
        &self,
        _k: usize,
        _a: &[i64],
        rank_a: i64,
        _s: &[i64],
        rank_s: i64,
        most: i64,
    ) -> Option<i64> {
        gap_within(rank_a, rank_s, most)
    }

    fn rough(&self, k: usize, s: &[i64]) -> Option<i64> {
        Some(self.fill(k, self.left(s)) as i64)
    }

    #[inline]
    fn rough_by_rank(&self, k: usize, _s: &[i64], rank: i64) -> Option<i64> {
        Some(self.fill(k, rank as u64) as i64)
    }

    fn rank(&self, _k: usize, s: &[i64]) -> i64 {
        self.left(s) as i64
    }

    #[inline(always)]
    fn extend(
        &self,
        k: usize,
        _s: &[i64],
        rank: i64,
        d: u32,
        _zeros: usize,
        out: &mut [i64],
    ) -> Option<Extended> {
        let item = self.item(k);
        let rest = (rank as u64).checked_sub(weight(item, d))?;
        write(out, rest);
        Some(Extended {
            gain: profit(item, d),
            rank: rest as i64,
        })
    }

    #[inline]
    fn next_choice(&self, k: usize, s: &[i64], from: u32) -> u32 {
        let choices = self.choices(k);
        if from < choices && self.allowed(k, s, from) {
            from
        } else {
            choices
        }
    }

    fn bucket(&self, _k: usize, _s: &[i64]) -> u64 {
        0
    }

    fn hash(&self, _k: usize, s: &[i64]) -> u64 {
        self.left(s)
    }

    fn is_state(&self, _k: usize, s: &[i64]) -> bool {
        self.may_be_left(s)
    }

    fn merges_in_any_order(&self) -> bool {
        true
    }
}
