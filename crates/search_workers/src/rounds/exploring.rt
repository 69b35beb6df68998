//! Rounds, and the search that they make.

ghost use Rattle.std.specs.Prelude.{◌≡◌, ◌+◌, ◌≤◌, true, false, [], None, Some, length, IsSome, OnOk, IfOk, IfErr, option_map};
ghost use Rattle.dp_model.specs.Subproblem.{IsOwn};
ghost use Rattle.turn.specs.History.{HasMoved};
ghost use Rattle.board_laws.specs.Board.{full_slots, slot_at};
ghost use Rattle.board_laws.specs.GoodBoard.{IsGood};
ghost use Rattle.kept_board.specs.Moves.{IsMove};
ghost use Rattle.kept_board.specs.View.{tag_of};
ghost use Rattle.board.specs.Contents.{contents};
ghost use Rattle.search_workers.specs.Branched.{IsBranched};
ghost use Rattle.search_workers.specs.Later.{IsLater, NoRoundFollows, IsComplete};
ghost use Rattle.search_workers.specs.Offered.{IsOffered};
ghost use Rattle.search_workers.specs.Prepared.{IsPreparedDesk};
ghost use Rattle.search_workers.specs.Stopped.{refused_by, IsRefused};
ghost use Rattle.search_workers.specs.Taken.{AreOfDiagrams};
ghost use Rattle.search_workers.specs.UnderWay.{IsRoundUnderWay, HasFinished, handed_back};

use super::compiling::{relax, restrict};
use crate::branched::Branched;
use crate::desk::Desk;
use board::Taken;
use disk::Disk;
use dp_model::DpModel;
use kept_board::{Kept, KeptError};
use std::alloc::Global;

/// Does rounds until nothing is open, a cause is held or the budget is used up. Board and model are of one instance, the
/// board has a slot and nothing is out, and the desk was prepared for the model and the width of the board's settings.
///
/// Where memory is refused, the search is halted for want of memory, and where a call of the disk fails, it is halted for the
/// journal. Then what was out is handed back, so that nothing is out at the end either. Where the first board was a good one, the
/// budget and the tickets suffice for every prefix and no cause is held at the end, nothing is open then.
pub fn explore<M: DpModel, D: Disk>(
    alloc: Global,
    kept: &mut Kept<M, D>,
    desk: &mut Desk,
    model: &M,
)
    requires numbers { kept.old.board.numbers ≡ M.numbers model.now }
    requires some { 1 ≤ length kept.old.board.board.slots }
    requires idle { full_slots kept.old.board.board.slots ≡ [] }
    requires prepared { IsPreparedDesk (M.meaning (M.numbers model.now)) kept.old.board.board.settings.width desk.old }
    ensures tag { tag_of kept.new ≡ tag_of kept.old }
    ensures moved { HasMoved (IsMove D.Disk M.meaning) kept.old kept.new }
    ensures later { IsLater (M.meaning (M.numbers model.now)) kept.old.board.board kept.new.board.board }
    ensures ended { NoRoundFollows kept.new.board.board }
    ensures complete { IsGood (M.meaning (M.numbers model.now)) kept.old.board.first → IsComplete (M.meaning (M.numbers model.now)) kept.new.board.board }
    ensures prepared { IsPreparedDesk (M.meaning (M.numbers model.now)) kept.old.board.board.settings.width desk.new }
{
    'rounds: while round(alloc, kept, desk, model) {}
    // What every board keeps of its counts and tickets.
    let _ = kept.board().taken();
    kept.board().facts();
}

/// A round of worker 0. Says whether it finished what it took; if not, no round can follow.
fn round<M: DpModel, D: Disk>(
    alloc: Global,
    kept: &mut Kept<M, D>,
    desk: &mut Desk,
    model: &M,
) -> bool
    requires numbers { kept.old.board.numbers ≡ M.numbers model.now }
    requires some { 1 ≤ length kept.old.board.board.slots }
    requires idle { full_slots kept.old.board.board.slots ≡ [] }
    requires prepared { IsPreparedDesk (M.meaning (M.numbers model.now)) kept.old.board.board.settings.width desk.old }
    ensures tag { tag_of kept.new ≡ tag_of kept.old }
    ensures moved { HasMoved (IsMove D.Disk M.meaning) kept.old kept.new }
    ensures later { IsLater (M.meaning (M.numbers model.now)) kept.old.board.board kept.new.board.board }
    ensures taken { result ≡ true → kept.old.board.board.taken + 1 ≤ kept.new.board.board.taken }
    ensures budget { result ≡ true → kept.new.board.board.taken ≤ kept.new.board.board.settings.budget }
    ensures ended { result ≡ false → NoRoundFollows kept.new.board.board }
    ensures prepared { IsPreparedDesk (M.meaning (M.numbers model.now)) kept.old.board.board.settings.width desk.new }
{
    if !take_one(kept, desk, model) {
        return false;
    }
    match go_on(alloc, kept, desk, model) {
        Ok(()) => {
            // No more are taken than the budget: rounds come to an end.
            let _ = kept.board().taken();
            true
        }
        Err(error) => {
            give_up(kept, error);
            false
        }
    }
}

/// Worker 0 asks for a subproblem. Says whether it got one, which lies on the desk then.
fn take_one<M: DpModel, D: Disk>(kept: &mut Kept<M, D>, desk: &mut Desk, model: &M) -> bool
    requires numbers { kept.old.board.numbers ≡ M.numbers model.now }
    requires some { 1 ≤ length kept.old.board.board.slots }
    requires idle { full_slots kept.old.board.board.slots ≡ [] }
    requires prepared { IsPreparedDesk (M.meaning (M.numbers model.now)) kept.old.board.board.settings.width desk.old }
    ensures taken { result ≡ true → IsRoundUnderWay (M.meaning (M.numbers model.now)) kept.old.board.board kept.new.board.board desk.new.taken.subproblem }
    ensures kept { result ≡ false → kept.new.board.board ≡ kept.old.board.board }
    ensures ended { result ≡ false → NoRoundFollows kept.old.board.board }
    ensures tag { tag_of kept.new ≡ tag_of kept.old }
    ensures moved { HasMoved (IsMove D.Disk M.meaning) kept.old kept.new }
    ensures prepared { IsPreparedDesk (M.meaning (M.numbers model.now)) kept.old.board.board.settings.width desk.new }
{
    let answer = kept.take(0, &mut desk.taken);
    // What every board keeps of what is out.
    kept.board().facts();
    match answer {
        Taken::Sub => true,
        Taken::WaitForOthers | Taken::Finished | Taken::Halted(_) => false,
    }
}

/// Finishes the subproblem on the desk with the children that it is branched into. No cause is held.
///
/// # Errors
///
/// A step was refused, for want of memory, or by the disk; then the search is halted for the journal. The subproblem is out still.
fn go_on<M: DpModel, D: Disk>(
    alloc: Global,
    kept: &mut Kept<M, D>,
    desk: &mut Desk,
    model: &M,
) -> Result<(), KeptError>
    requires numbers { kept.old.board.numbers ≡ M.numbers model.now }
    requires out { option_map (λ o. o.subproblem) (slot_at kept.old.board.board 0) ≡ Some desk.old.taken.subproblem }
    requires own { IsOwn (M.meaning (M.numbers model.now)) desk.old.taken.subproblem }
    requires going { kept.old.board.board.cause ≡ None }
    requires prepared { IsPreparedDesk (M.meaning (M.numbers model.now)) kept.old.board.board.settings.width desk.old }
    ensures finished { OnOk result (HasFinished (M.meaning (M.numbers model.now)) kept.old.board.board kept.new.board.board) }
    ensures refused { IfErr result (λ error. IsRefused (M.meaning (M.numbers model.now)) kept.old.board.board error kept.new.board.board) }
    ensures tag { tag_of kept.new ≡ tag_of kept.old }
    ensures moved { HasMoved (IsMove D.Disk M.meaning) kept.old kept.new }
    ensures prepared { IsPreparedDesk (M.meaning (M.numbers model.now)) kept.old.board.board.settings.width desk.new }
{
    let branched = branch_on(alloc, kept, desk, model)?;
    finish_one(alloc, kept, desk, branched)
}

/// Branches on the subproblem on the desk: the solutions that its diagrams find are offered, and its children are made. No cause is
/// held.
///
/// # Errors
///
/// As `go_on` says.
fn branch_on<M: DpModel, D: Disk>(
    alloc: Global,
    kept: &mut Kept<M, D>,
    desk: &mut Desk,
    model: &M,
) -> Result<Branched, KeptError>
    requires numbers { kept.old.board.numbers ≡ M.numbers model.now }
    requires own { IsOwn (M.meaning (M.numbers model.now)) desk.old.taken.subproblem }
    requires going { kept.old.board.board.cause ≡ None }
    requires prepared { IsPreparedDesk (M.meaning (M.numbers model.now)) kept.old.board.board.settings.width desk.old }
    ensures diagrams { IfOk result (λ b. AreOfDiagrams (M.meaning (M.numbers model.now)) desk.old.space.width desk.old.kind desk.old.taken.subproblem.decisions b.threshold (contents b.children.items)) }
    ensures branched { IfOk result (λ b. IsBranched (M.meaning (M.numbers model.now)) kept.new.board.board desk.old.taken.subproblem.decisions b.threshold (contents b.children.items)) }
    ensures offered { OnOk result (IsOffered (M.meaning (M.numbers model.now)) kept.old.board.board kept.new.board.board) }
    ensures refused { IfErr result (λ error. IsRefused (M.meaning (M.numbers model.now)) kept.old.board.board error kept.new.board.board) }
    ensures tag { tag_of kept.new ≡ tag_of kept.old }
    ensures moved { HasMoved (IsMove D.Disk M.meaning) kept.old kept.new }
    ensures taken { desk.new.taken.subproblem ≡ desk.old.taken.subproblem }
    ensures prepared { IsPreparedDesk (M.meaning (M.numbers model.now)) kept.old.board.board.settings.width desk.new }
{
    let restricted = restrict(alloc, kept, &mut desk.space, &desk.taken, model)?;
    if !restricted.reduced {
        return Ok(Branched {
            threshold: restricted.threshold,
            children: Vec::new(alloc),
            on_desk: false,
        });
    }
    let threshold = relax(
        alloc,
        kept,
        &mut desk.space,
        &mut desk.cutset,
        &desk.taken,
        desk.kind,
        model,
    )?;
    let children = desk.cutset.subs(alloc)?;
    Ok(Branched {
        threshold,
        children,
        on_desk: true,
    })
}

/// Finishes the subproblem on the desk with the children that it was branched into. No cause is held.
///
/// # Errors
///
/// As `go_on` says.
fn finish_one<M: DpModel, D: Disk>(
    alloc: Global,
    kept: &mut Kept<M, D>,
    desk: &mut Desk,
    mut branched: Branched,
) -> Result<(), KeptError>
    requires out { option_map (λ o. o.subproblem) (slot_at kept.old.board.board 0) ≡ Some desk.old.taken.subproblem }
    requires branched { IsBranched (M.meaning kept.old.board.numbers) kept.old.board.board desk.old.taken.subproblem.decisions branched.threshold (contents branched.children.items) }
    requires going { kept.old.board.board.cause ≡ None }
    requires prepared { IsPreparedDesk (M.meaning kept.old.board.numbers) kept.old.board.board.settings.width desk.old }
    ensures finished { OnOk result (HasFinished (M.meaning kept.old.board.numbers) kept.old.board.board kept.new.board.board) }
    ensures refused { IfErr result (λ error. kept.new.board.board ≡ refused_by error kept.old.board.board) }
    ensures tag { tag_of kept.new ≡ tag_of kept.old }
    ensures moved { HasMoved (IsMove D.Disk M.meaning) kept.old kept.new }
    ensures prepared { IsPreparedDesk (M.meaning kept.old.board.numbers) kept.old.board.board.settings.width desk.new }
{
    let finished = kept.finish(
        alloc,
        0,
        branched.threshold,
        &mut branched.children,
        &mut desk.fates,
    );
    desk.fates.clear();
    finished
}

/// Hands the subproblem of worker 0 back after a step was refused. For want of memory it halts the search first; where the disk failed
/// the search is halted already.
fn give_up<M: DpModel, D: Disk>(kept: &mut Kept<M, D>, error: KeptError)
    requires full { IsSome (slot_at kept.old.board.board 0) }
    requires halted { error ≡ KeptError.Journal → IsSome kept.old.board.board.cause }
    ensures step { kept.new.board.board ≡ handed_back error kept.old.board.board }
    ensures tag { tag_of kept.new ≡ tag_of kept.old }
    ensures moved { HasMoved (IsMove D.Disk M.meaning) kept.old kept.new }
{
    match error {
        KeptError::OutOfMemory => {
            kept.halt_memory();
            kept.give_back(0);
        }
        KeptError::Journal => kept.give_back(0),
    }
}
