ghost use Rattle.std.specs.Prelude.{◌≡◌, ◌-◌, ◌^◌, ◌+◌, ◌<◌, ◌≤◌, length, true, OnOk};
ghost use Rattle.std.specs.List.{list_all};
ghost use Rattle.tokens.specs.Grammar.{Reads, times};
ghost use Rattle.one_machine.specs.Instance.{is_small_job};
ghost use Rattle.one_machine.specs.Shown.{instance_in};
ghost use Rattle.one_machine.specs.Texts.{job_after, instance_text};

use crate::instance::OneMachine;
use crate::job::Job;
use crate::machine::LONGEST;
use std::alloc::Global;
use tokens::{Comment, ReadModelError, Tokens};

const MOST_JOBS: u64 = 100;

const GREATEST_WEIGHT: u64 = 100_000;

const LATEST_DUE: u64 = 1_000_000_000;

/// Reads a job after others.
#[tactic(auto, unfolding(crate::specs::Texts::job_after))]
fn next_job(tokens: &mut Tokens, jobs: &mut Vec<Job>) -> Result<(), ReadModelError>
    requires { list_all is_small_job jobs.old.items ≡ true }
    ensures reads { Reads (λ _. (jobs.new.items, tokens.new)) result (job_after jobs.old.items tokens.old) }
    ensures one { OnOk result (length jobs.new.items ≡ length jobs.old.items + 1) }
    ensures small { OnOk result (list_all is_small_job jobs.new.items ≡ true) }
{
    let processing = tokens.next_natural(0, LONGEST)?;
    let weight = tokens.next_natural(0, GREATEST_WEIGHT)?;
    let due = tokens.next_natural(0, LATEST_DUE)?;
    jobs.push(Job {
        processing,
        weight,
        due,
    })?;
    Ok(())
}

/// Reads this many jobs after others.
#[tactic(auto, using(tokens::proofs::Chains::times_steps))]
fn next_jobs(count: u64, tokens: &mut Tokens, jobs: &mut Vec<Job>) -> Result<(), ReadModelError>
    requires { list_all is_small_job jobs.old.items ≡ true }
    ensures reads { Reads (λ _. (jobs.new.items, tokens.new)) result (times job_after count jobs.old.items tokens.old) }
    ensures count { OnOk result (length jobs.new.items ≡ length jobs.old.items + count) }
    ensures small { OnOk result (list_all is_small_job jobs.new.items ≡ true) }
{
    for _ in 0..count {
        next_job(tokens, jobs)?;
    }
    Ok(())
}

/// Reads a problem: how many jobs, 0 to 100, and for each its processing time and its weight, from 0 to 100,000, and its due
/// time, from 0 to 10^9. Line ends do not matter.
///
/// The first fault in reading order is answered, with its place: `EndOfText` where a number is missing, `NotAscii` and
/// `NotNumber` for a token that is none, `OutOfRange` for a number outside the limits, and `Trailing` or `NotAscii` for a
/// token after the last job. `OutOfMemory` where there was no memory for the problem.
#[tactic(auto, unfolding(crate::specs::Texts::instance_at, crate::specs::Instance::is_small), using(tokens::proofs::Chains::part_fails))]
pub fn read(alloc: Global, bytes: &[u8]) -> Result<OneMachine, ReadModelError>
    requires { length bytes.now < 2 ^ 32 - 1 }
    ensures { Reads instance_in result (instance_text bytes.now) }
{
    let mut tokens = Tokens::new(bytes, Comment::Never);
    let count = tokens.next_natural(0, MOST_JOBS)?;
    let mut jobs = Vec::with_capacity(alloc, count as usize)?;
    next_jobs(count, &mut tokens, &mut jobs)?;
    tokens.finish()?;
    Ok(OneMachine::new(jobs))
}
