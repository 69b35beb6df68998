//! What a worker does with the board while it holds the turn: each function makes one move, or none.

ghost use Rattle.std.specs.Prelude.{◌≡◌, ◌≢◌, ◌⊎◌, ℕ, ◌<◌, true, false, [], None, Some, option_map, IsSome, IfOk, OnOk, IfErr, MatchBool};
ghost use Rattle.board_laws.specs.Board.{incumbent_value, reach, slot_at};
ghost use Rattle.board_laws.specs.Steps.{given_back, halted};
ghost use Rattle.board_laws.specs.declared.cause.Cause.TheVariants.{Journal, Memory};
ghost use Rattle.dp_model.specs.Numbers.{AtMost, OptionAtMost};
ghost use Rattle.dp_model.specs.Prefixes.{IsSolution, value_of};
ghost use Rattle.kept_board.specs.Moves.{IsMove};
ghost use Rattle.board.specs.Contents.{contents};
ghost use Rattle.board.specs.Moves.{out_at};
ghost use Rattle.search_workers.specs.FinishLater.{MayFinishLater};
ghost use Rattle.search_workers.specs.Prepared.{CanHold};
ghost use Rattle.disk.specs.Counts.{Rose};
ghost use Rattle.search_workers.specs.Later.{NoRoundFollows};
ghost use Rattle.search_workers.specs.Ready.{IfOver, TakenOut};
ghost use Rattle.search_workers.specs.Stopped.{IsLeftOut, IsWhy, IsSameOrHalted};
ghost use Rattle.search_workers.specs.Worth.{is_worth};

use super::stopped::Stopped;
use super::worth::is_worth_writing;
use board::{Cause, Fate, Taken};
use disk::Disk;
use dp_model::{DpModel, Sub};
use kept_board::Kept;
use std::alloc::Global;

/// The answer to a worker that asked for a subproblem, and the reach at that time.
#[derive(Clone, Copy, Debug)]
pub struct Asked {
    pub taken: Taken,
    /// The ticket of the subproblem, or `None` if the worker got none.
    pub ticket: Option<u64>,
    pub reach: Option<i64>,
}

/// Takes for a worker that has nothing out.
pub fn take<M: DpModel, D: Disk>(
    kept: &mut Kept<M, D>,
    who: u32,
    into: &mut Sub,
    model: &M,
) -> Asked
    requires numbers { kept.old.board.numbers ≡ M.numbers model.now }
    requires within { who < kept.old.board.board.settings.workers }
    requires nothing_out { out_at kept.old.board.board who ≡ None }
    requires room { CanHold (M.meaning (M.numbers model.now)) into.old }
    ensures ended { IfOver result.taken (NoRoundFollows kept.new.board.board) }
    ensures reach { result.reach ≡ reach kept.new.board.board }
    ensures waits { result.taken ≡ Taken.WaitForOthers → (kept.new.board.board.open_ones ≡ []) × (kept.new.board.board.cause ≡ None) }
    ensures ticket { result.ticket ≡ option_map (λ o. o.ticket) (slot_at kept.new.board.board who) }
    ensures out { TakenOut (M.meaning (M.numbers model.now)) result.taken (out_at kept.new.board.board who) into.new.subproblem }
    ensures room { CanHold (M.meaning (M.numbers model.now)) into.new }
    ensures moves { (kept.new ≡ kept.old) ⊎ IsMove D.Disk M.meaning kept.old kept.new who }
{
    // What every board keeps of its slots.
    kept.board().facts();
    let taken = kept.take(who, into);
    // What every board keeps of what is out.
    kept.board().facts();
    let ticket = kept.board().slot_ticket(who);
    let reach = kept.board().reach();
    Asked {
        taken,
        ticket,
        reach,
    }
}

/// Offers a solution. Gives the reach that is left: the solution's value is at most the incumbent's, and this is at most the reach.
///
/// # Errors
///
/// `GaveBack` where the search was halted for the journal; `Refused` where the record of a better solution was not added.
pub fn improve<M: DpModel, D: Disk>(
    alloc: Global,
    kept: &mut Kept<M, D>,
    who: u32,
    decisions: &[u32],
) -> Result<Option<i64>, Stopped>
    requires within { who < kept.old.board.board.settings.workers }
    ensures reach { IfOk result (λ r. r ≡ reach kept.new.board.board) }
    ensures above { OnOk result (OptionAtMost (incumbent_value kept.new.board.board) (reach kept.new.board.board)) }
    ensures better { OnOk result (IsSolution (M.meaning kept.old.board.numbers) decisions.now → AtMost (value_of (M.meaning kept.old.board.numbers) decisions.now) (incumbent_value kept.new.board.board)) }
    ensures out { OnOk result (out_at kept.new.board.board who ≡ out_at kept.old.board.board who) }
    ensures stopped { IfErr result (λ stopped. IsLeftOut stopped (out_at kept.old.board.board who) (out_at kept.new.board.board who)) }
    ensures why { IfErr result (λ stopped. IsWhy D.Disk who stopped kept.old kept.new) }
    ensures moves { (kept.new ≡ kept.old) ⊎ IsMove D.Disk M.meaning kept.old kept.new who }
{
    if has_failed(kept) {
        hand_back(kept, who);
        return Err(Stopped::GaveBack);
    }
    match kept.improve(alloc, decisions) {
        Ok(_) => {
            // What every board keeps of its distance.
            kept.board().facts();
            Ok(kept.board().reach())
        }
        Err(error) => Err(Stopped::Refused(error)),
    }
}

/// Finishes what the worker has out with these children.
///
/// # Errors
///
/// `GaveBack` where the search was halted for the journal; `Refused` where memory was, or the record was not added. The children stay.
pub fn finish<M: DpModel, D: Disk>(
    alloc: Global,
    kept: &mut Kept<M, D>,
    who: u32,
    threshold: Option<i64>,
    subs: &mut Vec<Sub>,
    fates: &mut Vec<Fate>,
) -> Result<(), Stopped>
    requires may { MayFinishLater (M.meaning kept.old.board.numbers) kept.old.board.board.settings (out_at kept.old.board.board who) (incumbent_value kept.old.board.board) threshold (contents subs.old.items) }
    ensures out { OnOk result (out_at kept.new.board.board who ≡ None) }
    ensures emptied { OnOk result (subs.new.items ≡ []) }
    ensures stopped { IfErr result (λ stopped. IsLeftOut stopped (out_at kept.old.board.board who) (out_at kept.new.board.board who) × (subs.new ≡ subs.old)) }
    ensures why { IfErr result (λ stopped. IsWhy D.Disk who stopped kept.old kept.new) }
    ensures moves { (kept.new ≡ kept.old) ⊎ IsMove D.Disk M.meaning kept.old kept.new who }
{
    if has_failed(kept) {
        kept.give_back(who);
        return Err(Stopped::GaveBack);
    }
    match kept.finish(alloc, who, threshold, subs, fates) {
        Ok(()) => Ok(()),
        Err(error) => Err(Stopped::Refused(error)),
    }
}

/// Writes a snapshot where one is due and worth its bytes, unless the search is halted for the journal. The board stays as it is,
/// unless the disk fails.
pub fn snapshot<M: DpModel, D: Disk>(alloc: Global, kept: &mut Kept<M, D>)
    ensures same { IsSameOrHalted D.Disk kept.old kept.new }
    ensures out { (who : ℕ) → out_at kept.new.board.board who ≡ out_at kept.old.board.board who }
    ensures stopped { kept.old.board.board.cause ≡ Some Journal → kept.new ≡ kept.old }
    ensures spared { is_worth kept.old ≡ false → kept.new ≡ kept.old }
    ensures moves { (who : ℕ) → (kept.new ≡ kept.old) ⊎ IsMove D.Disk M.meaning kept.old kept.new who }
{
    if has_failed(kept) || !kept.snapshot_due() || !is_worth_writing(kept) {
        return;
    }
    // Without memory the search goes on, and where the disk failed it is halted.
    let _ = kept.snapshot(alloc);
}

/// Hands back what the worker has out where a cause is held, else halts the search for want of memory. Says whether it handed back.
pub fn give_back<M: DpModel, D: Disk>(kept: &mut Kept<M, D>, who: u32) -> bool
    requires full { IsSome (out_at kept.old.board.board who) }
    ensures ended { result ≡ true → NoRoundFollows kept.new.board.board }
    ensures halts { result ≡ false → (kept.old.board.board.cause ≡ None) × (kept.new.board.board ≡ halted kept.old.board.board Memory) }
    ensures out { MatchBool result (out_at kept.new.board.board who ≡ None) (out_at kept.new.board.board who ≡ out_at kept.old.board.board who) }
    ensures moves { (kept.new ≡ kept.old) ⊎ IsMove D.Disk M.meaning kept.old kept.new who }
{
    if kept.board().cause().is_some() {
        kept.give_back(who);
        return true;
    }
    kept.halt_memory();
    false
}

/// Hands back what the worker has out, where it has something out. A cause is held.
fn hand_back<M: DpModel, D: Disk>(kept: &mut Kept<M, D>, who: u32)
    requires halted { IsSome kept.old.board.board.cause }
    requires within { who < kept.old.board.board.settings.workers }
    ensures step { kept.new.board.board ≡ given_back kept.old.board.board who }
    ensures out { out_at kept.new.board.board who ≡ None }
    ensures moves { (kept.new ≡ kept.old) ⊎ IsMove D.Disk M.meaning kept.old kept.new who }
{
    // What every board keeps of its slots.
    kept.board().facts();
    if kept.board().slot_ticket(who).is_some() {
        kept.give_back(who);
    }
}

/// Whether the search is halted for the journal.
fn has_failed<M: DpModel, D: Disk>(kept: &Kept<M, D>) -> bool
    ensures failed { result ≡ true → kept.now.board.board.cause ≡ Some Journal }
    ensures rose { result ≡ true → Rose (D.faults kept.now.made) (D.faults kept.now.disk) }
    ensures going { result ≡ false → kept.now.board.board.cause ≢ Some Journal }
{
    match kept.board().cause() {
        Some(Cause::Journal) => true,
        Some(Cause::Memory | Cause::Budget) | None => false,
    }
}
