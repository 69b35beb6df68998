//! What a worker does with the solutions of its diagrams, and the children that are left.

ghost use Rattle.std.specs.Prelude.{◌≡◌, false, [], is_some, IsSome, OnOk, IfOk, IfErr};
ghost use Rattle.turn.specs.Order.{NoLess};
ghost use Rattle.turn.specs.Seats.{first_of, seen_of, out_of};
ghost use Rattle.dp_model.specs.Numbers.{OptionAtMost};
ghost use Rattle.dp_model.specs.Reached.{reached};
ghost use Rattle.dp_model.specs.Subproblem.{IsOwn};
ghost use Rattle.dp_laws.specs.Children.{found_value};
ghost use Rattle.dp_laws.specs.Diagrams.Cutsets.{found_in};
ghost use Rattle.dp_laws.specs.Restricted.Beams.{beam, wide};
ghost use Rattle.dp_laws.specs.Rules.Compiling.{relaxed};
ghost use Rattle.board_laws.specs.GoodBoard.{IncumbentHolds};
ghost use Rattle.search_workers.specs.Branched.{AreBranched};
ghost use Rattle.search_workers.specs.Collected.{HoldsDiagram};
ghost use Rattle.search_workers.specs.Offered.{beam_value, found_solution};
ghost use Rattle.search_workers.specs.Prepared.{HasDeskRoom};
ghost use Rattle.search_workers.specs.Ready.{IsWorker};
ghost use Rattle.search_workers.specs.Seen.{reach_seen};
ghost use Rattle.search_workers.specs.Taken.{taken_from};
ghost use Rattle.search_workers.specs.Stopped.{IsLeftOut, HasLeft, WasStopped};

use super::crew::Crew;
use super::filling::fill_desk;
use super::gate::{Gate, Step};
use super::holding_improve::improve_one;
use super::stopped::Stopped;
use crate::desk::Desk;
use disk::Disk;
use dp_model::{DpModel, Found};
use kept_board::Kept;
use restricted_dd::compile;
use std::sync::Wait;
use std::thread::Threads;
use turn::Seat;

/// What the restricted diagram of a subproblem leaves.
#[derive(Clone, Copy, Debug)]
pub struct Restricted {
    /// Whether the width took something from a layer.
    pub reduced: bool,
    /// The reach by what the seat has seen by then.
    pub reach: Option<i64>,
}

/// Offers a feasible solution with its value, where there is one, and then passes the gate. Gives the reach by what the seat has seen
/// by then, which is no less than the value of the solution.
///
/// # Errors
///
/// As `improve_one` says, and then it passes no gate.
fn offer_one<M: DpModel, D: Disk + Send, G: Gate, R: Wait>(
    crew: &Crew<'_, M, D, G, R>,
    seat: &mut Seat<Kept<M, D>>,
    found: Option<Found<'_>>,
    reach: Option<i64>,
) -> Result<Option<i64>, Stopped>
    requires worker { IsWorker crew.now.turn.now seat.old }
    requires left { HasLeft crew.now.turn.now seat.old }
    requires reach { reach ≡ reach_seen crew.now.turn.now seat.old }
    requires held { IncumbentHolds (M.meaning (first_of crew.now.turn.now).board.numbers) (found_solution found) }
    ensures worker { IsWorker crew.now.turn.now seat.new }
    ensures number { seat.new.number ≡ seat.old.number }
    ensures left { OnOk result (HasLeft crew.now.turn.now seat.new) }
    ensures out { OnOk result (out_of seat.new ≡ out_of seat.old) }
    ensures reach { IfOk result (λ reach. reach ≡ reach_seen crew.now.turn.now seat.new) }
    ensures no_less { NoLess (seen_of seat.old) (seen_of seat.new) }
    ensures found { OnOk result (OptionAtMost (found_value (found_solution found.entry)) (reach_seen crew.now.turn.now seat.new)) }
    ensures stopped { IfErr result (λ stopped. IsLeftOut stopped (out_of seat.old) (out_of seat.new)) }
    ensures why { IfErr result (WasStopped D.Disk M.meaning crew.now.turn.now seat.old seat.new) }
{
    let Some(found) = found else {
        return Ok(reach);
    };
    let reach = improve_one(crew.rt, crew.alloc, crew.turn, seat, found.decisions)?;
    crew.gate.pass(seat.number(), Step::Improved);
    Ok(reach)
}

/// Compiles the restricted diagram of the subproblem on the desk outside the turn, with the reach by what the seat has seen as
/// threshold, and offers its beam. Where the width took nothing from it, the subproblem has no children.
///
/// # Errors
///
/// As `improve_one` says.
pub fn restrict_one<M: DpModel, D: Disk + Send, G: Gate, R: Wait>(
    crew: &Crew<'_, M, D, G, R>,
    seat: &mut Seat<Kept<M, D>>,
    desk: &mut Desk,
    reach: Option<i64>,
) -> Result<Restricted, Stopped>
    requires numbers { (first_of crew.now.turn.now).board.numbers ≡ M.numbers crew.now.model.now }
    requires worker { IsWorker crew.now.turn.now seat.old }
    requires left { HasLeft crew.now.turn.now seat.old }
    requires reach { reach ≡ reach_seen crew.now.turn.now seat.old }
    requires own { IsOwn (M.meaning (M.numbers crew.now.model.now)) desk.old.taken.subproblem }
    requires room { HasDeskRoom (M.meaning (M.numbers crew.now.model.now)) (first_of crew.now.turn.now).board.board.settings.width desk.old }
    ensures worker { IsWorker crew.now.turn.now seat.new }
    ensures number { seat.new.number ≡ seat.old.number }
    ensures left { OnOk result (HasLeft crew.now.turn.now seat.new) }
    ensures out { OnOk result (out_of seat.new ≡ out_of seat.old) }
    ensures reach { IfOk result (λ r. r.reach ≡ reach_seen crew.now.turn.now seat.new) }
    ensures no_less { NoLess (seen_of seat.old) (seen_of seat.new) }
    ensures reduced { IfOk result (λ r. r.reduced ≡ is_some (wide (M.meaning (M.numbers crew.now.model.now)) desk.old.taken.subproblem.decisions desk.old.space.width reach)) }
    ensures beam { OnOk result (OptionAtMost (beam_value (beam (M.meaning (M.numbers crew.now.model.now)) desk.old.taken.subproblem.decisions desk.old.space.width reach)) (reach_seen crew.now.turn.now seat.new)) }
    ensures whole { IfOk result (λ r. r.reduced ≡ false → AreBranched (M.meaning (M.numbers crew.now.model.now)) (first_of crew.now.turn.now).board.board.settings.width (reach_seen crew.now.turn.now seat.new) desk.old.taken.subproblem.decisions reach []) }
    ensures stopped { IfErr result (λ stopped. IsLeftOut stopped (out_of seat.old) (out_of seat.new)) }
    ensures why { IfErr result (WasStopped D.Disk M.meaning crew.now.turn.now seat.old seat.new) }
    ensures room { HasDeskRoom (M.meaning (M.numbers crew.now.model.now)) (first_of crew.now.turn.now).board.board.settings.width desk.new }
    ensures width { desk.new.space.width ≡ desk.old.space.width }
    ensures rest { desk.new ≡ record desk.old { space = desk.new.space } }
{
    let compiled = compile(&mut desk.space, crew.model, &desk.taken, reach);
    let reduced = compiled.reduced;
    let reach = offer_one(crew, seat, compiled.found, reach)?;
    Ok(Restricted { reduced, reach })
}

/// Compiles the relaxed diagram of the subproblem on the desk, with the reach by what the seat has seen as threshold, fills the list of
/// the desk with its children, as `fill_desk` does, and offers the solution that it finds.
///
/// # Errors
///
/// As `improve_one` says.
pub fn relax_one<M: DpModel, D: Disk + Send, G: Gate, R: Threads + Wait + Sync>(
    crew: &Crew<'_, M, D, G, R>,
    seat: &mut Seat<Kept<M, D>>,
    desk: &mut Desk,
    reach: Option<i64>,
) -> Result<(), Stopped>
    requires numbers { (first_of crew.now.turn.now).board.numbers ≡ M.numbers crew.now.model.now }
    requires worker { IsWorker crew.now.turn.now seat.old }
    requires left { HasLeft crew.now.turn.now seat.old }
    requires reach { reach ≡ reach_seen crew.now.turn.now seat.old }
    requires own { IsOwn (M.meaning (M.numbers crew.now.model.now)) desk.old.taken.subproblem }
    requires room { HasDeskRoom (M.meaning (M.numbers crew.now.model.now)) (first_of crew.now.turn.now).board.board.settings.width desk.old }
    ensures worker { IsWorker crew.now.turn.now seat.new }
    ensures number { seat.new.number ≡ seat.old.number }
    ensures left { OnOk result (HasLeft crew.now.turn.now seat.new) }
    ensures out { OnOk result (out_of seat.new ≡ out_of seat.old) }
    ensures no_less { NoLess (seen_of seat.old) (seen_of seat.new) }
    ensures subs { OnOk result (desk.new.cutset.subs ≡ taken_from (M.meaning (M.numbers crew.now.model.now)) (relaxed (M.meaning (M.numbers crew.now.model.now)) (reached (M.meaning (M.numbers crew.now.model.now)) desk.old.taken.subproblem.decisions) desk.old.space.width reach) desk.old.kind) }
    ensures found { OnOk result (OptionAtMost (found_value (found_in (M.meaning (M.numbers crew.now.model.now)) (relaxed (M.meaning (M.numbers crew.now.model.now)) (reached (M.meaning (M.numbers crew.now.model.now)) desk.old.taken.subproblem.decisions) desk.old.space.width reach))) (reach_seen crew.now.turn.now seat.new)) }
    ensures branched { OnOk result (AreBranched (M.meaning (M.numbers crew.now.model.now)) (first_of crew.now.turn.now).board.board.settings.width (reach_seen crew.now.turn.now seat.new) desk.old.taken.subproblem.decisions reach desk.new.cutset.subs) }
    ensures holds { IsSome desk.old.book → HoldsDiagram (M.meaning (M.numbers crew.now.model.now)) desk.new.space desk.new.cutset }
    ensures stopped { IfErr result (λ stopped. IsLeftOut stopped (out_of seat.old) (out_of seat.new)) }
    ensures why { IfErr result (WasStopped D.Disk M.meaning crew.now.turn.now seat.old seat.new) }
    ensures room { HasDeskRoom (M.meaning (M.numbers crew.now.model.now)) (first_of crew.now.turn.now).board.board.settings.width desk.new }
    ensures rest { desk.new ≡ record desk.old { space = desk.new.space; cutset = desk.new.cutset; cut = desk.new.cut } }
{
    fill_desk(crew, desk, reach);
    let _ = offer_one(crew, seat, desk.cutset.found(), reach)?;
    Ok(())
}
