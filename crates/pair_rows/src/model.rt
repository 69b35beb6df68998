//! The calls of `DpModel` for the program of the rows. What each call asks and gives is what `DpModel` says.

use crate::hashes::{hash_of, least_distance, next_hash};
use crate::limits::are_within;
use crate::row::{extend_row, is_zero_row, may_be_within, step_gain, write_step};
use crate::rows::PairRows;
use benefit_rows::{gap, gap_within, merge_into, rank};
use dp_model::{Extended, Fingerprint};

impl PairRows {
    ghost use Rattle.std.specs.Prelude.{◌≡◌, ◌+◌, ◌<◌, ◌≤◌, pos, length, take, replicate, false, None, IsSome, IsNone, IfSome, IsTrue, is_some, List, ℤ};
    ghost use Rattle.dp_model.specs.Dp.{IsAllowed};
    ghost use Rattle.dp_model.specs.Gaps.{IsStateOf, within};
    ghost use Rattle.dp_model.specs.Fingerprints.{IsFingerprint};
    ghost use Rattle.pair_rows.specs.Shown.{program_in};

    /// The number of variables.
    pub fn vars(&self) -> usize
        ensures { result ≡ (program_in self.now).vars }
    {
        self.variables
    }

    /// The number of cells of a state.
    pub fn words(&self) -> usize
        ensures { result ≡ (program_in self.now).words }
    {
        self.variables.max(1)
    }

    /// The number of values of variable `k`.
    pub fn choices(&self, k: usize) -> u32
        ensures { result ≡ (program_in self.now).choices k }
    {
        if k == 0 { self.first } else { 2 }
    }

    /// Writes the root state.
    pub fn root(&self, out: &mut [i64])
        requires { length out.old ≡ (program_in self.now).words }
        ensures { out.new ≡ (program_in self.now).root }
    {
        out.copy_from_slice(self.root.as_slice());
    }

    /// The value of the empty prefix.
    pub fn root_value(&self) -> i64
        ensures { result ≡ (program_in self.now).root_value }
    {
        self.root_value
    }

    /// Writes the state that decision `d` leads to.
    pub fn step(&self, k: usize, s: &[i64], d: u32, out: &mut [i64])
        requires state { IsTrue ((program_in self.now).is_state k s.now) }
        requires allowed { IsAllowed (program_in self.now) k s.now d }
        requires cells { length out.old ≡ (program_in self.now).words }
        ensures { out.new ≡ (program_in self.now).step k s.now d }
    {
        let _ = write_step(self.shifts(k, d), k, s, 0, out);
    }

    /// What decision `d` adds to the value.
    pub fn gain(&self, k: usize, s: &[i64], d: u32) -> i64
        requires state { IsTrue ((program_in self.now).is_state k s.now) }
        requires allowed { IsAllowed (program_in self.now) k s.now d }
        ensures { result ≡ (program_in self.now).gain k s.now d }
    {
        step_gain(self.shifts(k, d), self.stakes(k, d), k, s, d)
    }

    /// Merges state `s` into state `acc`.
    pub fn merge_into(&self, k: usize, acc: &mut [i64], s: &[i64])
        requires kept { IsStateOf (program_in self.now) k acc.old }
        requires state { IsStateOf (program_in self.now) k s.now }
        ensures { acc.new ≡ (program_in self.now).merged k acc.old s.now }
    {
        merge_into(&mut acc[k..], &s[k..])
    }

    /// The gap from `a` to `s`.
    pub fn gap(&self, k: usize, a: &[i64], s: &[i64]) -> Option<i64>
        requires covering { IsStateOf (program_in self.now) k a.now }
        requires state { IsStateOf (program_in self.now) k s.now }
        ensures { result ≡ (program_in self.now).gap k a.now s.now }
    {
        Some(gap(&a[k..], &s[k..]))
    }

    /// The rough bound of `s`.
    pub fn rough(&self, k: usize, s: &[i64]) -> Option<i64>
        requires { IsStateOf (program_in self.now) k s.now }
        ensures { result ≡ (program_in self.now).rough k s.now }
    {
        Some(rank(&s[k..]) + self.later[k])
    }

    /// The rank of `s`.
    pub fn rank(&self, k: usize, s: &[i64]) -> i64
        requires { IsStateOf (program_in self.now) k s.now }
        ensures { result ≡ (program_in self.now).rank k s.now }
    {
        rank(&s[k..])
    }

    /// The gap from `a` to `s` if it is at most `most`, by the ranks of both.
    pub fn covers_within(
        &self,
        k: usize,
        a: &[i64],
        rank_a: i64,
        s: &[i64],
        rank_s: i64,
        most: i64,
    ) -> Option<i64>
        requires covering { IsStateOf (program_in self.now) k a.now }
        requires covering_rank { rank_a ≡ (program_in self.now).rank k a.now }
        requires state { IsStateOf (program_in self.now) k s.now }
        requires rank { rank_s ≡ (program_in self.now).rank k s.now }
        ensures { result ≡ within most ((program_in self.now).gap k a.now s.now) }
    {
        gap_within(&a[k..], rank_a, &s[k..], rank_s, most)
    }

    /// Whether there may be a gap from `a` to `s` of at most `most`, by the ranks and the hashes of both.
    pub fn may_cover(
        &self,
        k: usize,
        _a: &[i64],
        of_a: Fingerprint,
        _s: &[i64],
        of_s: Fingerprint,
        most: i64,
    ) -> bool
        requires covering { IsStateOf (program_in self.now) k _a.now }
        requires covering_print { IsFingerprint (program_in self.now) k _a.now of_a }
        requires state { IsStateOf (program_in self.now) k _s.now }
        requires print { IsFingerprint (program_in self.now) k _s.now of_s }
        ensures { result ≡ false → within most ((program_in self.now).gap k _a.now _s.now) ≡ None }
    {
        let distance = least_distance(of_a.hash, of_s.hash);
        may_be_within(of_a.rank, of_s.rank, distance, most)
    }

    /// Takes decision `d` in state `s` in one pass, by the rank of `s`.
    pub fn extend(
        &self,
        k: usize,
        s: &[i64],
        rank: i64,
        d: u32,
        zeros: usize,
        out: &mut [i64],
    ) -> Option<Extended>
        requires layer { k < (program_in self.now).vars }
        requires state { IsTrue ((program_in self.now).is_state k s.now) }
        requires rank { rank ≡ (program_in self.now).rank k s.now }
        requires decision { d < (program_in self.now).choices k }
        requires cells { length out.old ≡ (program_in self.now).words }
        requires zeros { take zeros out.old ≡ replicate zeros (pos 0) }
        ensures allowed { is_some result ≡ (program_in self.now).allowed k s.now d }
        ensures refused { IsNone result → out.new ≡ out.old }
        ensures row { IsSome result → out.new ≡ (program_in self.now).step k s.now d }
        ensures extended { IfSome result (λ e. (e.gain ≡ (program_in self.now).gain k s.now d)
            × (e.rank ≡ (program_in self.now).rank (k + 1) ((program_in self.now).step k s.now d))) }
    {
        let shifts = self.shifts(k, d);
        let stakes = self.stakes(k, d);
        Some(extend_row(shifts, stakes, k, s, rank, d, zeros, out))
    }

    /// The rough bound of `s`, by its rank.
    pub fn rough_by_rank(&self, k: usize, _s: &[i64], rank: i64) -> Option<i64>
        requires state { IsStateOf (program_in self.now) k _s.now }
        requires rank { rank ≡ (program_in self.now).rank k _s.now }
        ensures { result ≡ (program_in self.now).rough k _s.now }
    {
        Some(rank + self.later[k])
    }

    /// The hash of `s`.
    pub fn hash(&self, k: usize, s: &[i64]) -> u64
        requires { IsStateOf (program_in self.now) k s.now }
        ensures { result ≡ (program_in self.now).hash k s.now }
    {
        hash_of(&s[k..])
    }

    /// The hash of the state that decision `d` leads to, by that of `s`.
    pub fn next_hash(&self, k: usize, s: &[i64], hash: u64, d: u32) -> u64
        requires state { IsTrue ((program_in self.now).is_state k s.now) }
        requires hash { hash ≡ (program_in self.now).hash k s.now }
        requires allowed { IsAllowed (program_in self.now) k s.now d }
        ensures { result ≡ (program_in self.now).hash (k + 1) ((program_in self.now).step k s.now d) }
    {
        next_hash(hash, s[k], self.change(k, d))
    }

    /// How many first cells are zero in every state of layer `k`.
    pub fn first_live(&self, k: usize) -> usize
        requires { k ≤ (program_in self.now).vars }
        ensures cells { result ≤ (program_in self.now).words }
        ensures zeros { (s : List ℤ) → IsStateOf (program_in self.now) k s → take result s ≡ replicate result (pos 0) }
    {
        k
    }

    /// Whether the row is a state of layer `k`.
    pub fn is_state(&self, k: usize, s: &[i64]) -> bool
        requires layer { k ≤ (program_in self.now).vars }
        requires cells { length s.now ≡ (program_in self.now).words }
        ensures { result ≡ (program_in self.now).is_state k s.now }
    {
        is_zero_row(&s[..k]) && are_within(&s[k..], self.limits(k))
    }
}
