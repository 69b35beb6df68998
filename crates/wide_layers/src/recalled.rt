ghost use Rattle.std.specs.Prelude.{◌≡◌};
ghost use Rattle.wide_layers.specs.Pieces.{AllRight};

use crate::hand::Hand;
use crate::piece::Piece;
use dp_model::{DpModel, Extended, Fingerprint};

/// A model that copies candidates which were made before. It answers as the model that it stands on; for the layer below `depth`
/// its `extend` first compares the next candidate, and copies it if the state and the decision are the same.
#[derive(Drop)]
pub struct Recalled<'p, M: DpModel> {
    pub(crate) model: &'p M,
    depth: usize,
    hand: Hand<'p>,
    ghost right: { AllRight (M.meaning (M.numbers model.now)) depth hand.pieces.now },
}

impl<'p, M: DpModel> Recalled<'p, M> {
    /// The model with the candidates of these pieces, which are right, for the layer below the depth.
    pub fn new(model: &'p M, depth: usize, pieces: &'p [Piece]) -> Recalled<'p, M>
        requires { AllRight (M.meaning (M.numbers model.now)) depth pieces.now }
        ensures { result.model.now ≡ model.now }
    {
        Recalled {
            model,
            depth,
            hand: Hand::new(pieces),
        }
    }
}

impl<'p, M: DpModel> DpModel for Recalled<'p, M> {
    ghost numbers = { λ r. M.numbers r.model.now };

    ghost meaning = { M.meaning };

    ghost lawful = { λ r. M.lawful r.model.now };

    ghost chained = { λ r. M.chained r.model.now };

    fn vars(&self) -> usize {
        self.model.vars()
    }

    fn words(&self) -> usize {
        self.model.words()
    }

    fn choices(&self, k: usize) -> u32 {
        self.model.choices(k)
    }

    fn root(&self, out: &mut [i64]) {
        self.model.root(out);
    }

    fn root_value(&self) -> i64 {
        self.model.root_value()
    }

    fn allowed(&self, k: usize, s: &[i64], d: u32) -> bool {
        self.model.allowed(k, s, d)
    }

    fn step(&self, k: usize, s: &[i64], d: u32, out: &mut [i64]) {
        self.model.step(k, s, d, out);
    }

    fn gain(&self, k: usize, s: &[i64], d: u32) -> i64 {
        self.model.gain(k, s, d)
    }

    fn merge_into(&self, k: usize, acc: &mut [i64], s: &[i64]) {
        self.model.merge_into(k, acc, s);
    }

    fn gap(&self, k: usize, a: &[i64], s: &[i64]) -> Option<i64> {
        self.model.gap(k, a, s)
    }

    fn rough(&self, k: usize, s: &[i64]) -> Option<i64> {
        self.model.rough(k, s)
    }

    fn rank(&self, k: usize, s: &[i64]) -> i64 {
        self.model.rank(k, s)
    }

    fn bucket(&self, k: usize, s: &[i64]) -> u64 {
        self.model.bucket(k, s)
    }

    fn hash(&self, k: usize, s: &[i64]) -> u64 {
        self.model.hash(k, s)
    }

    fn is_state(&self, k: usize, s: &[i64]) -> bool {
        self.model.is_state(k, s)
    }

    fn covers_within(
        &self,
        k: usize,
        a: &[i64],
        rank_a: i64,
        s: &[i64],
        rank_s: i64,
        most: i64,
    ) -> Option<i64> {
        self.model.covers_within(k, a, rank_a, s, rank_s, most)
    }

    fn may_cover(
        &self,
        k: usize,
        a: &[i64],
        of_a: Fingerprint,
        s: &[i64],
        of_s: Fingerprint,
        most: i64,
    ) -> bool {
        self.model.may_cover(k, a, of_a, s, of_s, most)
    }

    fn extend(
        &self,
        k: usize,
        s: &[i64],
        rank: i64,
        d: u32,
        zeros: usize,
        out: &mut [i64],
    ) -> Option<Extended> {
        if k == self.depth {
            if let Some(extended) = self.hand.recall(s, d, out) {
                return Some(extended);
            }
        }
        self.model.extend(k, s, rank, d, zeros, out)
    }

    fn next_hash(&self, k: usize, s: &[i64], hash: u64, d: u32, next: &[i64]) -> u64 {
        self.model.next_hash(k, s, hash, d, next)
    }

    fn rough_by_rank(&self, k: usize, s: &[i64], rank: i64) -> Option<i64> {
        self.model.rough_by_rank(k, s, rank)
    }

    fn first_live(&self, k: usize) -> usize {
        self.model.first_live(k)
    }

    fn next_choice(&self, k: usize, s: &[i64], from: u32) -> u32 {
        self.model.next_choice(k, s, from)
    }

    fn merges_in_any_order(&self) -> bool {
        self.model.merges_in_any_order()
    }
}
