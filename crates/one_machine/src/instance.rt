ghost use Rattle.std.specs.Prelude.{◌≡◌, ℕ, ◌≤◌, length, IsTrue};
ghost use Rattle.one_machine.specs.Instance.{job_at, is_small, numbers_of, instance_of};

use crate::job::Job;

/// One machine with weighted tardiness within the limits: at most 100 jobs, processing times and weights of at most
/// 100,000, and due times of at most 10^9.
#[derive(Debug, Drop)]
pub struct OneMachine {
    pub(crate) jobs: Vec<Job>,
    ghost small: { IsTrue (is_small jobs.items) },
    ghost spelled: { instance_of (numbers_of jobs.items) ≡ jobs.items },
    ghost few: { length jobs.items ≤ 100 },
    ghost brief: { (d : ℕ) → (job_at jobs.items d).processing ≤ 100000 },
    ghost light: { (d : ℕ) → (job_at jobs.items d).weight ≤ 100000 },
}

impl OneMachine {
    /// The problem of jobs within the limits.
    pub(crate) fn new(jobs: Vec<Job>) -> OneMachine
        requires { IsTrue (is_small jobs.items) }
        ensures { result.jobs.items ≡ jobs.items }
    {
        OneMachine { jobs }
    }
}
