//! The children of a record.

ghost use Rattle.std.specs.Prelude.{◌≡◌, ◌&&◌, length, nat_lt, IfOk, IsTrue, option_map, map};
ghost use Rattle.dp_model.specs.Decisions.{begins};
ghost use Rattle.journal_bytes.specs.Views.{child_view};
ghost use Rattle.journal_replay.specs.Accepting.{may_replace};
ghost use Rattle.journal_replay.specs.Places.{AddGives, ChildGives};
ghost use Rattle.journal_replay.specs.Replay.{with_sub};

use crate::state::State;
use crate::walking::prefix_sub;
use dp_model::{DpModel, OutOfMemory, Sub};
use journal_bytes::Child;
use std::alloc::Global;

/// Whether the decisions properly extend a prefix.
fn extends(prefix: &[u32], decisions: &[u32]) -> bool
    ensures { result ≡ (nat_lt (length prefix.now) (length decisions.now) && begins prefix.now decisions.now) }
{
    prefix.len() < decisions.len() && decisions.starts_with(prefix)
}

/// A child of a record as a subproblem, or `None` exactly where it is no child of the prefix or the size of its bound is greater
/// than 2^62. `spare` is written over.
fn child_sub<M: DpModel>(
    alloc: Global,
    model: &M,
    prefix: &[u32],
    child: &Child,
    spare: &mut [i64],
) -> Result<Option<Sub>, OutOfMemory>
    requires cells { length spare.old ≡ (M.meaning (M.numbers model.now)).words }
    ensures { IfOk result (λ sub. ChildGives (M.meaning (M.numbers model.now)) prefix.now (child_view child.now) (option_map (λ s. s.subproblem) sub)) }
{
    let decisions = child.decisions.as_slice();
    if !extends(prefix, decisions) {
        return Ok(None);
    }
    prefix_sub(alloc, model, decisions, child.bound, spare)
}

/// Lists a subproblem under the next ticket, in the place of the one with the replaced ticket. Answers false exactly where that
/// is not listed, or not with the depth and state.
fn list_child(state: &mut State, replaced: Option<u64>, sub: Sub) -> Result<bool, OutOfMemory>
    ensures may { IfOk result (λ listed. listed ≡ may_replace replaced sub.subproblem state.old.listed) }
    ensures listed { IfOk result (λ listed. IsTrue listed → state.new ≡ with_sub state.old replaced sub.subproblem) }
{
    if let Some(ticket) = replaced {
        if !state.has_like(ticket, &sub) {
            return Ok(false);
        }
        let _gone = state.take_out(ticket);
    }
    state.add(sub)?;
    Ok(true)
}

/// Adds the children of a prefix one after another. Answers false exactly where one of them may not be added.
pub fn add_children<M: DpModel>(
    alloc: Global,
    model: &M,
    prefix: &[u32],
    children: &[Child],
    state: &mut State,
    spare: &mut [i64],
) -> Result<bool, OutOfMemory>
    requires cells { length spare.old ≡ (M.meaning (M.numbers model.now)).words }
    ensures { IfOk result (AddGives (M.meaning (M.numbers model.now)) prefix.now state.old (map child_view children.now) state.new) }
{
    for child in children {
        let Some(sub) = child_sub(alloc, model, prefix, child, spare)? else {
            return Ok(false);
        };
        if !list_child(state, child.replaced, sub)? {
            return Ok(false);
        }
    }
    Ok(true)
}
