//! What one worker does.

ghost use Rattle.std.specs.Prelude.{◌≡◌, true, false, None, OnOk, IfOk, IfErr};
ghost use Rattle.turn.specs.Order.{NoLess};
ghost use Rattle.turn.specs.Seats.{first_of, seen_of, out_of};
ghost use Rattle.board.specs.Contents.{contents};
ghost use Rattle.dp_model.specs.Subproblem.{IsOwn};
ghost use Rattle.search_workers.specs.Collected.{HoldsDiagram};
ghost use Rattle.search_workers.specs.Prepared.{HasDeskRoom, IsPreparedDesk};
ghost use Rattle.search_workers.specs.FinishLater.{MayFinishLater};
ghost use Rattle.search_workers.specs.Ready.{IsWorker, IsReadySeat, IsOut};
ghost use Rattle.search_workers.specs.Seen.{reach_seen};
ghost use Rattle.search_workers.specs.Taken.{AreOfDiagrams};
ghost use Rattle.search_workers.specs.Stopped.{IsLeftOut, HasLeft, WasStopped, HasEndedAt};

use super::crew::Crew;
use super::filling::fill_desk;
use super::gate::{Gate, Step};
use super::holding_finish::finish_one;
use super::holding_give_back::give_up;
use super::holding_snapshot::snapshot_one;
use super::holding_take::take_one;
use super::offering::{relax_one, restrict_one};
use super::stopped::Stopped;
use crate::branched::Branched;
use crate::collecting::collect_from;
use crate::desk::Desk;
use board::Taken;
use disk::Disk;
use dp_model::DpModel;
use kept_board::{Kept, KeptError};
use std::alloc::Global;
use std::sync::Wait;
use std::thread::Threads;
use turn::{Seat, Turn};

/// Does rounds until nothing is open or out, a cause is held or the budget is used up, and passes the gate after each step. Each step
/// of the board is one holding of the turn, and diagrams are compiled outside the turn. Once a subproblem is finished, the worker holds
/// again and writes a snapshot where one is due and worth its bytes.
///
/// The seat is one of the turn's with nothing out, its number is below the workers of the settings, the turn's instance is the model's,
/// and the desk was prepared for the model and the width of the settings. It may wait for other workers.
pub fn work<M: DpModel, D: Disk + Send, G: Gate + Sync, R: Threads + Wait + Sync>(
    rt: &R,
    alloc: Global,
    turn: &Turn<Kept<M, D>>,
    seat: &mut Seat<Kept<M, D>>,
    desk: &mut Desk,
    model: &M,
    gate: &G,
)
    requires numbers { (first_of turn.now).board.numbers ≡ M.numbers model.now }
    requires ready { IsReadySeat turn.now seat.old }
    requires prepared { IsPreparedDesk (M.meaning (M.numbers model.now)) (first_of turn.now).board.board.settings.width desk.old }
    ensures ready { IsReadySeat turn.now seat.new }
    ensures ended { HasEndedAt turn.now seat.new }
    ensures number { seat.new.number ≡ seat.old.number }
    ensures prepared { IsPreparedDesk (M.meaning (M.numbers model.now)) (first_of turn.now).board.board.settings.width desk.new }
{
    let crew = Crew {
        rt,
        alloc,
        turn,
        model,
        gate,
    };
    for _ in rt.forever() {
        if !round(&crew, seat, desk) {
            return;
        }
    }
    unreachable!()
}

/// A round. Says whether another one may follow.
fn round<M: DpModel, D: Disk + Send, G: Gate + Sync, R: Threads + Wait + Sync>(
    crew: &Crew<'_, M, D, G, R>,
    seat: &mut Seat<Kept<M, D>>,
    desk: &mut Desk,
) -> bool
    requires numbers { (first_of crew.now.turn.now).board.numbers ≡ M.numbers crew.now.model.now }
    requires ready { IsReadySeat crew.now.turn.now seat.old }
    requires prepared { IsPreparedDesk (M.meaning (M.numbers crew.now.model.now)) (first_of crew.now.turn.now).board.board.settings.width desk.old }
    ensures ready { IsReadySeat crew.now.turn.now seat.new }
    ensures ended { result ≡ false → HasEndedAt crew.now.turn.now seat.new }
    ensures number { seat.new.number ≡ seat.old.number }
    ensures prepared { IsPreparedDesk (M.meaning (M.numbers crew.now.model.now)) (first_of crew.now.turn.now).board.board.settings.width desk.new }
{
    let who = seat.number();
    let asked = take_one(crew.rt, crew.turn, seat, &mut desk.taken, crew.model);
    match asked.taken {
        Taken::Sub => {
            desk.ticket = asked.ticket;
            crew.gate.pass(who, Step::Taken);
            go_on(crew, seat, desk, asked.reach)
        }
        Taken::WaitForOthers => {
            crew.gate.pass(who, Step::Waiting);
            crew.turn.wait_turn(crew.rt, seat);
            true
        }
        Taken::Finished | Taken::Halted(_) => false,
    }
}

/// The rest of a round, once a subproblem was taken: it is finished, and a snapshot is written where one is due and worth its bytes.
/// Says whether it was finished; if not it was given back.
fn go_on<M: DpModel, D: Disk + Send, G: Gate + Sync, R: Threads + Wait + Sync>(
    crew: &Crew<'_, M, D, G, R>,
    seat: &mut Seat<Kept<M, D>>,
    desk: &mut Desk,
    reach: Option<i64>,
) -> bool
    requires numbers { (first_of crew.now.turn.now).board.numbers ≡ M.numbers crew.now.model.now }
    requires worker { IsWorker crew.now.turn.now seat.old }
    requires left { HasLeft crew.now.turn.now seat.old }
    requires reach { reach ≡ reach_seen crew.now.turn.now seat.old }
    requires out { IsOut (M.meaning (M.numbers crew.now.model.now)) (out_of seat.old) desk.old.taken.subproblem }
    requires prepared { IsPreparedDesk (M.meaning (M.numbers crew.now.model.now)) (first_of crew.now.turn.now).board.board.settings.width desk.old }
    ensures ready { IsReadySeat crew.now.turn.now seat.new }
    ensures ended { result ≡ false → HasEndedAt crew.now.turn.now seat.new }
    ensures number { seat.new.number ≡ seat.old.number }
    ensures prepared { IsPreparedDesk (M.meaning (M.numbers crew.now.model.now)) (first_of crew.now.turn.now).board.board.settings.width desk.new }
{
    let who = seat.number();
    match expand(crew, seat, desk, reach) {
        Ok(()) => {
            crew.gate.pass(who, Step::Finished);
            snapshot_one(crew.rt, crew.alloc, crew.turn, seat);
            true
        }
        Err(Stopped::GaveBack) => {
            crew.gate.pass(who, Step::GaveBack);
            false
        }
        Err(Stopped::Refused(error)) => {
            give_up(crew.rt, crew.turn, seat, error);
            crew.gate.pass(who, Step::GaveBack);
            false
        }
    }
}

/// Finishes what was taken with its children.
///
/// # Errors
///
/// It was given back in a holding that found the search halted for the journal, or a step was refused and it is out still.
fn expand<M: DpModel, D: Disk + Send, G: Gate + Sync, R: Threads + Wait + Sync>(
    crew: &Crew<'_, M, D, G, R>,
    seat: &mut Seat<Kept<M, D>>,
    desk: &mut Desk,
    reach: Option<i64>,
) -> Result<(), Stopped>
    requires numbers { (first_of crew.now.turn.now).board.numbers ≡ M.numbers crew.now.model.now }
    requires worker { IsWorker crew.now.turn.now seat.old }
    requires left { HasLeft crew.now.turn.now seat.old }
    requires reach { reach ≡ reach_seen crew.now.turn.now seat.old }
    requires out { IsOut (M.meaning (M.numbers crew.now.model.now)) (out_of seat.old) desk.old.taken.subproblem }
    requires prepared { IsPreparedDesk (M.meaning (M.numbers crew.now.model.now)) (first_of crew.now.turn.now).board.board.settings.width desk.old }
    ensures worker { IsWorker crew.now.turn.now seat.new }
    ensures number { seat.new.number ≡ seat.old.number }
    ensures ok { OnOk result (out_of seat.new ≡ None) }
    ensures stopped { IfErr result (λ stopped. IsLeftOut stopped (out_of seat.old) (out_of seat.new)) }
    ensures why { IfErr result (WasStopped D.Disk M.meaning crew.now.turn.now seat.old seat.new) }
    ensures prepared { IsPreparedDesk (M.meaning (M.numbers crew.now.model.now)) (first_of crew.now.turn.now).board.board.settings.width desk.new }
{
    let mut branched = branch(crew, seat, desk, reach)?;
    let finished = finish_one(
        crew.rt,
        crew.alloc,
        crew.turn,
        seat,
        branched.threshold,
        &mut branched.children,
        &mut desk.fates,
    );
    if finished.is_ok() && branched.on_desk {
        collect_from(crew.alloc, desk, crew.model);
    }
    desk.fates.clear();
    finished
}

/// Compiles the relaxed diagram of a subproblem that has no children, where the desk has a book for it. Says whether it did.
fn fill_for_book<M: DpModel, D: Disk + Send, G, R: Threads + Sync>(
    crew: &Crew<'_, M, D, G, R>,
    desk: &mut Desk,
    threshold: Option<i64>,
) -> bool
    requires own { IsOwn (M.meaning (M.numbers crew.now.model.now)) desk.old.taken.subproblem }
    requires room { HasDeskRoom (M.meaning (M.numbers crew.now.model.now)) (first_of crew.now.turn.now).board.board.settings.width desk.old }
    ensures holds { result ≡ true → HoldsDiagram (M.meaning (M.numbers crew.now.model.now)) desk.new.space desk.new.cutset }
    ensures room { HasDeskRoom (M.meaning (M.numbers crew.now.model.now)) (first_of crew.now.turn.now).board.board.settings.width desk.new }
    ensures rest { desk.new ≡ record desk.old { space = desk.new.space; cutset = desk.new.cutset; cut = desk.new.cut } }
{
    if desk.book.is_none() {
        return false;
    }
    fill_desk(crew, desk, threshold);
    true
}

/// Branches on what was taken, outside the turn: the solutions that its diagrams find are offered, and its children are made.
///
/// # Errors
///
/// As `expand` says.
fn branch<M: DpModel, D: Disk + Send, G: Gate + Sync, R: Threads + Wait + Sync>(
    crew: &Crew<'_, M, D, G, R>,
    seat: &mut Seat<Kept<M, D>>,
    desk: &mut Desk,
    reach: Option<i64>,
) -> Result<Branched, Stopped>
    requires numbers { (first_of crew.now.turn.now).board.numbers ≡ M.numbers crew.now.model.now }
    requires worker { IsWorker crew.now.turn.now seat.old }
    requires left { HasLeft crew.now.turn.now seat.old }
    requires reach { reach ≡ reach_seen crew.now.turn.now seat.old }
    requires out { IsOut (M.meaning (M.numbers crew.now.model.now)) (out_of seat.old) desk.old.taken.subproblem }
    requires prepared { IsPreparedDesk (M.meaning (M.numbers crew.now.model.now)) (first_of crew.now.turn.now).board.board.settings.width desk.old }
    ensures worker { IsWorker crew.now.turn.now seat.new }
    ensures number { seat.new.number ≡ seat.old.number }
    ensures no_less { NoLess (seen_of seat.old) (seen_of seat.new) }
    ensures out { OnOk result (out_of seat.new ≡ out_of seat.old) }
    ensures diagrams { IfOk result (λ b. AreOfDiagrams (M.meaning (M.numbers crew.now.model.now)) desk.old.space.width desk.old.kind desk.old.taken.subproblem.decisions b.threshold (contents b.children.items)) }
    ensures holds { IfOk result (λ b. b.on_desk ≡ true → HoldsDiagram (M.meaning (M.numbers crew.now.model.now)) desk.new.space desk.new.cutset) }
    ensures branched { IfOk result (λ b. MayFinishLater (M.meaning (M.numbers crew.now.model.now)) (first_of crew.now.turn.now).board.board.settings (out_of seat.new) (seen_of seat.new) b.threshold (contents b.children.items)) }
    ensures stopped { IfErr result (λ stopped. IsLeftOut stopped (out_of seat.old) (out_of seat.new)) }
    ensures why { IfErr result (WasStopped D.Disk M.meaning crew.now.turn.now seat.old seat.new) }
    ensures prepared { IsPreparedDesk (M.meaning (M.numbers crew.now.model.now)) (first_of crew.now.turn.now).board.board.settings.width desk.new }
{
    let restricted = restrict_one(crew, seat, desk, reach)?;
    if !restricted.reduced {
        return Ok(Branched {
            threshold: reach,
            children: Vec::new(crew.alloc),
            on_desk: fill_for_book(crew, desk, restricted.reach),
        });
    }
    relax_one(crew, seat, desk, restricted.reach)?;
    match desk.cutset.subs(crew.alloc) {
        Ok(children) => Ok(Branched {
            threshold: restricted.reach,
            children,
            on_desk: desk.book.is_some(),
        }),
        Err(_) => Err(Stopped::Refused(KeptError::OutOfMemory)),
    }
}
