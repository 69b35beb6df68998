ghost use Rattle.std.specs.Prelude.{◌≡◌, ◌++◌, ◌≤◌, ◌^◌, length, Ok, IfOk, OnOk, true};
ghost use Rattle.std.specs.List.{flat_map};
ghost use Rattle.one_machine.specs.Instance.{is_small_job};
ghost use Rattle.one_machine.specs.Shown.{instance_in};
ghost use Rattle.one_machine.specs.Texts.{line_of, text_of, instance_text};
ghost use Rattle.std.specs.List.{list_all};

use crate::instance::OneMachine;
use crate::job::Job;
use std::alloc::{AllocError, Global};
use tokens::{push_number, push_text};

/// Appends the line of a job.
fn push_job(out: &mut Vec<u8>, job: Job) -> Result<(), AllocError>
    requires { is_small_job job ≡ true }
    ensures { OnOk result (out.new.items ≡ out.old.items ++ line_of job) }
{
    push_number(out, job.processing as i64)?;
    push_text(out, " ")?;
    push_number(out, job.weight as i64)?;
    push_text(out, " ")?;
    push_number(out, job.due as i64)?;
    push_text(out, "\n")
}

/// Appends the lines of the jobs.
fn push_jobs(out: &mut Vec<u8>, jobs: &[Job]) -> Result<(), AllocError>
    requires { list_all is_small_job jobs.now ≡ true }
    ensures { OnOk result (out.new.items ≡ out.old.items ++ flat_map line_of jobs.now) }
{
    for job in jobs {
        push_job(out, *job)?;
    }
    Ok(())
}

/// The canonical text: how many jobs, then a line for each with its processing time, its weight and its due time. `read`
/// reads the same problem from it.
pub fn print(alloc: Global, model: &OneMachine) -> Result<Vec<u8>, AllocError>
    ensures text { IfOk result (λ text. text.items ≡ text_of (instance_in model.now)) }
    ensures short { IfOk result (λ text. length text.items ≤ 2 ^ 30) }
    ensures reads_back { IfOk result (λ text. instance_text text.items ≡ Ok (instance_in model.now)) }
{
    let text = printed(alloc, model)?;
    Ok(text)
}

/// Makes the canonical text.
fn printed(alloc: Global, model: &OneMachine) -> Result<Vec<u8>, AllocError>
    ensures { IfOk result (λ text. text.items ≡ text_of (instance_in model.now)) }
{
    let mut out = Vec::new(alloc);
    push_number(&mut out, model.jobs.len() as i64)?;
    push_text(&mut out, "\n")?;
    push_jobs(&mut out, &model.jobs)?;
    Ok(out)
}
