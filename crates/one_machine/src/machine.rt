//! What the machine does in a state.

ghost use Rattle.std.specs.Prelude.{◌≡◌, ◌+◌, ◌*◌, ◌<◌, ◌≤◌, pos, neg_ℤ, length, is_some, IsTrue, IfSome};
ghost use Rattle.node_sets.specs.Sums.{count_below, sum_below};
ghost use Rattle.node_sets.specs.Sets as sets;
ghost use Rattle.node_sets.specs.Sets.{IsSet, has};
ghost use Rattle.pending_rows.specs.Pending.{shown, row_for, without};
ghost use Rattle.one_machine.specs.OwnWords as words;
ghost use Rattle.one_machine.specs.Program.{may_take, taken, least_cost, is_state_row};

use crate::instance::OneMachine;
use node_sets::Members;
use pending_rows::{is_row, left, left_after, parts_of, write_done};

/// The longest processing time.
pub(crate) const LONGEST: u64 = 100_000;

impl OneMachine {
    /// When a job is completed that begins at a time.
    #[inline]
    pub(crate) fn completion(&self, time: u64, job: usize) -> u64
        requires early { time ≤ 10000000 }
        requires inside { job < length self.now.jobs.items }
        ensures value { result ≡ words.completion self.now.jobs.items time job }
        ensures early { result ≤ 10100000 }
    {
        time + self.jobs[job].processing
    }

    /// What a job costs that begins at a time.
    #[inline]
    pub(crate) fn penalty(&self, time: u64, job: usize) -> u64
        requires early { time ≤ 10000000 }
        requires inside { job < length self.now.jobs.items }
        ensures value { result ≡ words.penalty self.now.jobs.items time job }
        ensures small { result ≤ 1010000000000 }
    {
        let late = self
            .completion(time, job)
            .saturating_sub(self.jobs[job].due);
        self.jobs[job].weight * late
    }

    /// What the members of a set would cost if each began at a time.
    fn penalties(&self, members: &[i64], time: u64) -> u64
        requires early { time ≤ 10000000 }
        requires set { IsSet (length self.now.jobs.items) members.now }
        ensures value { result ≡ sum_below (length self.now.jobs.items) (has members.now) (words.penalty self.now.jobs.items time) }
        ensures small { result ≤ 101000000000000 }
    {
        let mut total = 0;
        let mut rest = Members::of(members);
        'members: while let Some(job) = rest.next() {
            total += self.penalty(time, job);
        }
        total
    }

    /// The time of a state.
    #[inline]
    pub(crate) fn time(&self, _k: usize, s: &[i64]) -> u64
        requires state { IsTrue (is_state_row (length self.now.jobs.items) _k s.now) }
        ensures value { result ≡ (shown (sets.words_for (length self.now.jobs.items)) s.now).time }
        ensures early { result ≤ 10000000 }
    {
        parts_of(self.jobs.len(), s).time
    }

    /// How many jobs must be taken.
    pub(crate) fn rank_of(&self, _k: usize, s: &[i64]) -> i64
        requires state { IsTrue (is_state_row (length self.now.jobs.items) _k s.now) }
        ensures { result ≡ pos (count_below (length self.now.jobs.items) (shown (sets.words_for (length self.now.jobs.items)) s.now).must) }
    {
        left(self.jobs.len(), s)
    }

    /// How many jobs must be taken after a decision, or none where it is not allowed. The rank is their number before.
    #[inline(always)]
    pub(crate) fn rank_after(&self, k: usize, s: &[i64], rank: i64, job: usize) -> Option<i64>
        requires layer { k < length self.now.jobs.items }
        requires state { IsTrue (is_state_row (length self.now.jobs.items) k s.now) }
        requires rank { rank ≡ pos (count_below (length self.now.jobs.items) (shown (sets.words_for (length self.now.jobs.items)) s.now).must) }
        requires inside { job < length self.now.jobs.items }
        ensures allowed { is_some result ≡ may_take (length self.now.jobs.items) k (shown (sets.words_for (length self.now.jobs.items)) s.now) job }
        ensures left { IfSome result (λ left. left ≡ pos (count_below (length self.now.jobs.items) (without (shown (sets.words_for (length self.now.jobs.items)) s.now).must job))) }
    {
        let left = left_after(self.jobs.len(), s, rank, job)?;
        if left as usize + k + 1 > self.jobs.len() {
            return None;
        }
        Some(left)
    }

    /// What the decision adds to the value.
    #[inline]
    pub(crate) fn gain_of(&self, k: usize, s: &[i64], job: usize) -> i64
        requires state { IsTrue (is_state_row (length self.now.jobs.items) k s.now) }
        requires inside { job < length self.now.jobs.items }
        ensures { result ≡ neg_ℤ (pos (words.penalty self.now.jobs.items (shown (sets.words_for (length self.now.jobs.items)) s.now).time job)) }
    {
        -(self.penalty(self.time(k, s), job) as i64)
    }

    /// Writes the state after a job.
    #[inline]
    pub(crate) fn write_taken(&self, k: usize, s: &[i64], job: usize, out: &mut [i64])
        requires state { IsTrue (is_state_row (length self.now.jobs.items) k s.now) }
        requires inside { job < length self.now.jobs.items }
        requires cells { length out.old ≡ 2 * sets.words_for (length self.now.jobs.items) + 1 }
        ensures { out.new ≡ row_for (sets.words_for (length self.now.jobs.items)) (taken self.now.jobs.items (shown (sets.words_for (length self.now.jobs.items)) s.now) job) }
    {
        let completed = self.completion(self.time(k, s), job);
        write_done(out, self.jobs.len(), s, job, completed);
    }

    /// What all jobs that must be taken would cost if each began now, negated.
    pub(crate) fn rough_of(&self, k: usize, s: &[i64]) -> i64
        requires state { IsTrue (is_state_row (length self.now.jobs.items) k s.now) }
        ensures { result ≡ neg_ℤ (pos (least_cost self.now.jobs.items (shown (sets.words_for (length self.now.jobs.items)) s.now))) }
    {
        let time = self.time(k, s);
        -(self.penalties(parts_of(self.jobs.len(), s).must, time) as i64)
    }

    /// Whether a row of the right length is a state of the layer.
    pub(crate) fn is_state_of(&self, k: usize, s: &[i64]) -> bool
        requires layer { k ≤ length self.now.jobs.items }
        requires cells { length s.now ≡ 2 * sets.words_for (length self.now.jobs.items) + 1 }
        ensures { result ≡ is_state_row (length self.now.jobs.items) k s.now }
    {
        let row = is_row(self.jobs.len(), s);
        if !row {
            return false;
        }
        let time = parts_of(self.jobs.len(), s).time;
        if time > LONGEST * k as u64 {
            return false;
        }
        left(self.jobs.len(), s) as usize + k <= self.jobs.len()
    }
}
