//! The children of a finished subproblem as its record has them.

ghost use Rattle.std.specs.Prelude.{◌≡◌, ◌++◌, [], map, IfOk, OnOk};
ghost use Rattle.journal_bytes.specs.Views.{child_view};
ghost use Rattle.journal_replay.specs.Following.{child_recorded, recorded_beside, recorded_children};
ghost use Rattle.board.specs.Contents.{contents};

use board::Fate;
use dp_model::{OutOfMemory, Sub};
use journal_file::Child;
use std::alloc::{AllocFailed, Global};

/// A child that enters, with the ticket that it replaces.
fn child(alloc: Global, sub: &Sub, replaced: Option<u64>) -> Result<Child, OutOfMemory>
    ensures { IfOk result (λ c. child_view c ≡ child_recorded replaced sub.now.subproblem) }
{
    Ok(Child {
        replaced,
        bound: sub.bound,
        decisions: Vec::from_slice(alloc, sub.decisions.as_slice())?,
    })
}

/// Adds a child where it enters.
fn push_child(
    alloc: Global,
    sub: &Sub,
    fate: &Fate,
    children: &mut Vec<Child>,
) -> Result<(), OutOfMemory>
    ensures { OnOk result (map child_view children.new.items ≡ map child_view children.old.items ++ recorded_beside sub.now.subproblem fate.now []) }
{
    let child = match fate {
        Fate::Replaced { old, .. } => child(alloc, sub, Some(*old))?,
        Fate::Entered { .. } => child(alloc, sub, None)?,
        Fate::Below | Fate::Kept { .. } | Fate::Dominated { .. } => return Ok(()),
    };
    match children.push(child) {
        Ok(()) => Ok(()),
        Err(AllocFailed { .. }) => Err(OutOfMemory),
    }
}

/// The children that enter by their fates, in order.
pub fn children_of(alloc: Global, subs: &[Sub], fates: &[Fate]) -> Result<Vec<Child>, OutOfMemory>
    ensures { IfOk result (λ v. map child_view v.items ≡ recorded_children (contents subs.now) fates.now) }
{
    let mut children = Vec::new(alloc);
    for (sub, fate) in subs.iter().zip(fates) {
        push_child(alloc, sub, fate, &mut children)?;
    }
    Ok(children)
}
