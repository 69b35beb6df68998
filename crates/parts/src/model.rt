ghost use Rattle.std.specs.Prelude.{◌≡◌, IsTrue};
ghost use Rattle.std.specs.Arc.{arc_value};
ghost use Rattle.dp_model.specs.Rows.{row_same};

use crate::part::Part;
use dp_model::{DpModel, Extended, Fingerprint, row_same};

#[tactic(auto, using(crate::specs::Laws::state_test, crate::specs::Laws::whole_state))]
impl<M: DpModel> DpModel for Part<M> {
    ghost use Rattle.std.specs.Arc.{arc_value};
    ghost use Rattle.parts.specs.Part.{part_numbers, part_of_numbers};
    ghost use Rattle.parts.specs.Laws.{lawful_part, chained_part};

    ghost numbers = { λ p. part_numbers p.index p.of (M.numbers (arc_value p.model)) };

    ghost meaning = { part_of_numbers M.meaning };

    ghost lawful = { λ p. lawful_part (M.meaning (M.numbers (arc_value p.model))) p.index p.of (M.lawful (arc_value p.model)) };

    ghost chained = { λ p. chained_part (M.meaning (M.numbers (arc_value p.model))) p.index p.of (M.lawful (arc_value p.model)) (M.chained (arc_value p.model)) };

    fn vars(&self) -> usize {
        self.model.vars()
    }

    fn words(&self) -> usize {
        self.model.words()
    }

    fn choices(&self, k: usize) -> u32 {
        self.model.choices(k)
    }

    fn root(&self, out: &mut [i64]) {
        self.model.root(out);
    }

    fn root_value(&self) -> i64 {
        self.model.root_value()
    }

    fn allowed(&self, k: usize, s: &[i64], d: u32) -> bool {
        self.model.allowed(k, s, d) && (k > 0 || d % self.of == self.index)
    }

    fn step(&self, k: usize, s: &[i64], d: u32, out: &mut [i64]) {
        self.model.step(k, s, d, out);
    }

    fn gain(&self, k: usize, s: &[i64], d: u32) -> i64 {
        self.model.gain(k, s, d)
    }

    fn merge_into(&self, k: usize, acc: &mut [i64], s: &[i64]) {
        if k > 0 {
            self.model.merge_into(k, acc, s);
        }
    }

    fn merges_in_any_order(&self) -> bool {
        self.model.merges_in_any_order()
    }

    fn gap(&self, k: usize, a: &[i64], s: &[i64]) -> Option<i64> {
        if k > 0 {
            return self.model.gap(k, a, s);
        }
        if row_same(a, s) { Some(0) } else { None }
    }

    fn rough(&self, k: usize, s: &[i64]) -> Option<i64> {
        self.model.rough(k, s)
    }

    fn rank(&self, k: usize, s: &[i64]) -> i64 {
        self.model.rank(k, s)
    }

    fn bucket(&self, k: usize, s: &[i64]) -> u64 {
        self.model.bucket(k, s)
    }

    fn hash(&self, k: usize, s: &[i64]) -> u64 {
        self.model.hash(k, s)
    }

    fn is_state(&self, k: usize, s: &[i64]) -> bool {
        if k > 0 {
            self.model.is_state(k, s)
        } else {
            row_same(s, self.root.as_slice())
        }
    }

    fn extend(
        &self,
        k: usize,
        s: &[i64],
        rank: i64,
        d: u32,
        zeros: usize,
        out: &mut [i64],
    ) -> Option<Extended> {
        if k == 0 && d % self.of != self.index {
            return None;
        }
        self.model.extend(k, s, rank, d, zeros, out)
    }

    fn covers_within(
        &self,
        k: usize,
        a: &[i64],
        rank_a: i64,
        s: &[i64],
        rank_s: i64,
        most: i64,
    ) -> Option<i64> {
        if k > 0 {
            return self.model.covers_within(k, a, rank_a, s, rank_s, most);
        }
        if row_same(a, s) && most >= 0 {
            Some(0)
        } else {
            None
        }
    }

    fn may_cover(
        &self,
        k: usize,
        a: &[i64],
        of_a: Fingerprint,
        s: &[i64],
        of_s: Fingerprint,
        most: i64,
    ) -> bool {
        k == 0 || self.model.may_cover(k, a, of_a, s, of_s, most)
    }

    fn next_hash(&self, k: usize, s: &[i64], hash: u64, d: u32, next: &[i64]) -> u64 {
        self.model.next_hash(k, s, hash, d, next)
    }

    fn rough_by_rank(&self, k: usize, s: &[i64], rank: i64) -> Option<i64> {
        self.model.rough_by_rank(k, s, rank)
    }

    fn first_live(&self, k: usize) -> usize {
        self.model.first_live(k)
    }

    fn next_choice(&self, k: usize, s: &[i64], from: u32) -> u32 {
        self.model.next_choice(k, s, from)
    }
}
