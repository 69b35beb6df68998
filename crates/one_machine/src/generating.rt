//! Instances that are drawn from a seed.

ghost use Rattle.std.specs.Prelude.{◌≡◌, ◌<◌, ◌≤◌, ◌^◌, true, IfOk};
ghost use Rattle.one_machine.specs.Instance.{is_small_job};
ghost use Rattle.one_machine.specs.Shown.{instance_in};
ghost use Rattle.one_machine.specs.Generating.{job_drawn, after_job, generated};

use crate::instance::OneMachine;
use crate::job::Job;
use draws::Draws;
use std::alloc::{AllocError, Global};

/// Draws one of `n` jobs: a processing time and a weight from 1 to 10, and a due time below `10 * n`.
fn draw_job(draws: &mut Draws, n: u32) -> Job
    requires some { 1 ≤ n }
    requires few { n ≤ 100 }
    ensures job { result ≡ job_drawn n draws.old }
    ensures following { draws.new ≡ after_job draws.old }
    ensures small { is_small_job result ≡ true }
{
    let processing = 1 + u64::from(draws.draw()) % 10;
    let weight = 1 + u64::from(draws.draw()) % 10;
    let due = u64::from(draws.draw()) % (10 * u64::from(n));
    Job {
        processing,
        weight,
        due,
    }
}

/// Draws an instance of `n` jobs, 0 to 100, from a seed below 2^31. Fails only for want of memory.
pub fn generate(alloc: Global, n: u32, seed: u32) -> Result<OneMachine, AllocError>
    requires size { n ≤ 100 }
    requires seed { seed < 2 ^ 31 }
    ensures { IfOk result (λ m. instance_in m ≡ generated n seed) }
{
    let mut draws = Draws::from_seed(seed);
    let mut jobs = Vec::with_capacity(alloc, n as usize)?;
    for _ in 0..n {
        let job = draw_job(&mut draws, n);
        jobs.push(job)?;
    }
    Ok(OneMachine::new(jobs))
}
