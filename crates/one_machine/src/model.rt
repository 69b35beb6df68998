ghost use Rattle.std.specs.Prelude.{◌≡◌, ◌≤◌, pos, IsTrue};
ghost use Rattle.dp_model.specs.Gaps.{within};
ghost use Rattle.node_sets.specs.Sets as sets;
ghost use Rattle.node_sets.specs.Sums.{count_below};
ghost use Rattle.pending_rows.specs.Pending.{shown, is_pending_row};
ghost use Rattle.one_machine.specs.Program.{gap_of};

use crate::instance::OneMachine;
use dp_model::{DpModel, Extended, fold};
use node_sets::{first_word, words_for};
use pending_rows::{covers, next_open, parts_of, write_joined, write_start};

/// A gap of 0 where the one state covers the other.
fn gap_between(n: usize, a: &[i64], s: &[i64]) -> Option<i64>
    requires few { n ≤ 1024 }
    requires covering { IsTrue (is_pending_row n a.now) }
    requires state { IsTrue (is_pending_row n s.now) }
    ensures { result ≡ gap_of n (shown (sets.words_for n) a.now) (shown (sets.words_for n) s.now) }
{
    if covers(n, a, s) { Some(0) } else { None }
}

/// The same, where the gap is at most `most`. A state in which more jobs must be taken covers none.
fn gap_within(n: usize, a: &[i64], rank_a: i64, s: &[i64], rank_s: i64, most: i64) -> Option<i64>
    requires few { n ≤ 1024 }
    requires covering { IsTrue (is_pending_row n a.now) }
    requires state { IsTrue (is_pending_row n s.now) }
    requires covering_rank { rank_a ≡ pos (count_below n (shown (sets.words_for n) a.now).must) }
    requires rank { rank_s ≡ pos (count_below n (shown (sets.words_for n) s.now).must) }
    ensures { result ≡ within most (gap_of n (shown (sets.words_for n) a.now) (shown (sets.words_for n) s.now)) }
{
    if most < 0 {
        return None;
    }
    if rank_a > rank_s {
        return None;
    }
    gap_between(n, a, s)
}

impl DpModel for OneMachine {
    ghost use Rattle.one_machine.specs.Instance.{numbers_of};
    ghost use Rattle.one_machine.specs.Program.{program};
    ghost use Rattle.one_machine.specs.Shown.{instance_in};
    ghost use Rattle.one_machine.specs.Laws.Program.{lawful_numbers, chained_numbers};

    ghost numbers = { λ m. numbers_of (instance_in m) };

    ghost meaning = { program };

    ghost lawful = { λ m. lawful_numbers (instance_in m) m.small m.spelled };

    ghost chained = { λ m. chained_numbers (instance_in m) m.spelled };

    fn vars(&self) -> usize {
        self.jobs.len()
    }

    fn words(&self) -> usize {
        2 * words_for(self.jobs.len()) + 1
    }

    fn choices(&self, _k: usize) -> u32 {
        self.jobs.len() as u32
    }

    fn root(&self, out: &mut [i64]) {
        write_start(out, self.jobs.len());
    }

    fn root_value(&self) -> i64 {
        0
    }

    fn allowed(&self, k: usize, s: &[i64], d: u32) -> bool {
        self.rank_after(k, s, self.rank_of(k, s), d as usize)
            .is_some()
    }

    fn step(&self, k: usize, s: &[i64], d: u32, out: &mut [i64]) {
        self.write_taken(k, s, d as usize, out);
    }

    fn gain(&self, k: usize, s: &[i64], d: u32) -> i64 {
        self.gain_of(k, s, d as usize)
    }

    fn merge_into(&self, _k: usize, acc: &mut [i64], s: &[i64]) {
        write_joined(acc, self.jobs.len(), s);
    }

    #[tactic(auto, using(crate::proofs::Merging::any_order_numbers))]
    fn merges_in_any_order(&self) -> bool {
        true
    }

    fn gap(&self, _k: usize, a: &[i64], s: &[i64]) -> Option<i64> {
        gap_between(self.jobs.len(), a, s)
    }

    #[inline]
    fn covers_within(
        &self,
        _k: usize,
        a: &[i64],
        rank_a: i64,
        s: &[i64],
        rank_s: i64,
        most: i64,
    ) -> Option<i64> {
        gap_within(self.jobs.len(), a, rank_a, s, rank_s, most)
    }

    fn rough(&self, k: usize, s: &[i64]) -> Option<i64> {
        Some(self.rough_of(k, s))
    }

    fn rank(&self, k: usize, s: &[i64]) -> i64 {
        self.rank_of(k, s)
    }

    fn bucket(&self, _k: usize, s: &[i64]) -> u64 {
        u64::from(first_word(parts_of(self.jobs.len(), s).must))
    }

    fn hash(&self, _k: usize, s: &[i64]) -> u64 {
        fold(0, s)
    }

    fn is_state(&self, k: usize, s: &[i64]) -> bool {
        self.is_state_of(k, s)
    }

    #[inline(always)]
    fn extend(
        &self,
        k: usize,
        s: &[i64],
        rank: i64,
        d: u32,
        _zeros: usize,
        out: &mut [i64],
    ) -> Option<Extended> {
        let job = d as usize;
        let rank = self.rank_after(k, s, rank, job)?;
        let gain = self.gain_of(k, s, job);
        self.write_taken(k, s, job, out);
        Some(Extended { gain, rank })
    }

    #[inline(always)]
    fn next_choice(&self, _k: usize, s: &[i64], from: u32) -> u32 {
        next_open(self.jobs.len(), s, from as usize) as u32
    }
}
