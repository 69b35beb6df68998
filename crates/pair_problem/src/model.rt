use crate::listing::PairProblem;
use crate::pair_model::PairModel;
use dp_model::{DpModel, Extended, Fingerprint};

impl<P: PairProblem> DpModel for PairModel<P> {
    ghost use Rattle.pair_rows.specs.Laws.Sizes.{lawful_program};
    ghost use Rattle.pair_rows.specs.Laws.Gaps.{is_chained};
    ghost use Rattle.pair_rows.specs.Program.{program_of};

    ghost numbers = { λ m. P.numbers m.problem };

    ghost meaning = { λ list. program_of (P.listed list) };

    ghost lawful = { λ m. lawful_program (P.listed (P.numbers m.problem)) (P.kept m.problem) };

    ghost chained = { λ m. is_chained (P.listed (P.numbers m.problem)) (P.kept m.problem) };

    fn vars(&self) -> usize {
        self.rows.vars()
    }

    fn words(&self) -> usize {
        self.rows.words()
    }

    fn choices(&self, k: usize) -> u32 {
        self.rows.choices(k)
    }

    fn root(&self, out: &mut [i64]) {
        self.rows.root(out)
    }

    fn root_value(&self) -> i64 {
        self.rows.root_value()
    }

    fn allowed(&self, _k: usize, _s: &[i64], _d: u32) -> bool {
        true
    }

    fn step(&self, k: usize, s: &[i64], d: u32, out: &mut [i64]) {
        self.rows.step(k, s, d, out)
    }

    fn gain(&self, k: usize, s: &[i64], d: u32) -> i64 {
        self.rows.gain(k, s, d)
    }

    fn merge_into(&self, k: usize, acc: &mut [i64], s: &[i64]) {
        self.rows.merge_into(k, acc, s)
    }

    fn gap(&self, k: usize, a: &[i64], s: &[i64]) -> Option<i64> {
        self.rows.gap(k, a, s)
    }

    fn rough(&self, k: usize, s: &[i64]) -> Option<i64> {
        self.rows.rough(k, s)
    }

    fn rank(&self, k: usize, s: &[i64]) -> i64 {
        self.rows.rank(k, s)
    }

    fn covers_within(
        &self,
        k: usize,
        a: &[i64],
        rank_a: i64,
        s: &[i64],
        rank_s: i64,
        most: i64,
    ) -> Option<i64> {
        self.rows.covers_within(k, a, rank_a, s, rank_s, most)
    }

    fn may_cover(
        &self,
        k: usize,
        a: &[i64],
        of_a: Fingerprint,
        s: &[i64],
        of_s: Fingerprint,
        most: i64,
    ) -> bool {
        self.rows.may_cover(k, a, of_a, s, of_s, most)
    }

    fn extend(
        &self,
        k: usize,
        s: &[i64],
        rank: i64,
        d: u32,
        zeros: usize,
        out: &mut [i64],
    ) -> Option<Extended> {
        self.rows.extend(k, s, rank, d, zeros, out)
    }

    fn next_hash(&self, k: usize, s: &[i64], hash: u64, d: u32, _next: &[i64]) -> u64 {
        self.rows.next_hash(k, s, hash, d)
    }

    fn rough_by_rank(&self, k: usize, s: &[i64], rank: i64) -> Option<i64> {
        self.rows.rough_by_rank(k, s, rank)
    }

    fn first_live(&self, k: usize) -> usize {
        self.rows.first_live(k)
    }

    fn bucket(&self, _k: usize, _s: &[i64]) -> u64 {
        0
    }

    fn hash(&self, k: usize, s: &[i64]) -> u64 {
        self.rows.hash(k, s)
    }

    fn is_state(&self, k: usize, s: &[i64]) -> bool {
        self.rows.is_state(k, s)
    }

    #[tactic(auto, using(pair_rows::specs::Laws::AnyOrder::any_order))]
    fn merges_in_any_order(&self) -> bool {
        true
    }
}
