//! The relaxed diagram of the subproblem on a desk.

ghost use Rattle.std.specs.Prelude.{◌≡◌, IsSome};
ghost use Rattle.turn.specs.Seats.{first_of};
ghost use Rattle.dp_model.specs.Reached.{reached};
ghost use Rattle.dp_model.specs.Subproblem.{IsOwn};
ghost use Rattle.dp_model.specs.declared.cut_kind.CutKind.TheVariants.{LastExactLayer};
ghost use Rattle.dp_laws.specs.Diagrams.Cutsets.{found_in};
ghost use Rattle.dp_laws.specs.Rules.Compiling.{relaxed};
ghost use Rattle.layer_build.specs.Layers.{IsPreparedFor};
ghost use Rattle.relaxed_dd.specs.Cut.{HasCutRoom};
ghost use Rattle.search_workers.specs.Collected.{HoldsDiagram};
ghost use Rattle.search_workers.specs.Prepared.{HasDeskRoom, HoldsChildren};
ghost use Rattle.search_workers.specs.Taken.{taken_from};

use super::crew::Crew;
use crate::desk::Desk;
use crate::rounds::fill_with;
use disk::Disk;
use dp_model::{DpModel, Sub};
use exact_cutset::{Children, cut_children};
use layer_build::Workspace;
use relaxed_dd::{CutRows, compile_lean};
use std::thread::Threads;
use wide_layers::Expander;

/// Fills `cutset` from the relaxed diagram of a subproblem, with the children of its last exact layer and the solution that it finds. The
/// rows of a layer are let go once the next one is made, and `cut` has those of the last exact layer. The expander may take memory.
fn fill_lean<M: DpModel, R: Threads + Sync>(
    space: &mut Workspace,
    cut: &mut CutRows,
    cutset: &mut Children,
    taken: &Sub,
    threshold: Option<i64>,
    model: &M,
    expander: &mut Expander<'_, R>,
)
    requires own { IsOwn (M.meaning (M.numbers model.now)) taken.now.subproblem }
    requires prepared { IsPreparedFor (M.meaning (M.numbers model.now)) space.old }
    requires room { HasCutRoom (M.meaning (M.numbers model.now)) space.old.width cut.old }
    requires cutset { HoldsChildren (M.meaning (M.numbers model.now)) space.old.width LastExactLayer cutset.old }
    ensures subs { cutset.new.subs ≡ taken_from (M.meaning (M.numbers model.now)) (relaxed (M.meaning (M.numbers model.now)) (reached (M.meaning (M.numbers model.now)) taken.now.subproblem.decisions) space.old.width threshold) LastExactLayer }
    ensures found { cutset.new.found ≡ found_in (M.meaning (M.numbers model.now)) (relaxed (M.meaning (M.numbers model.now)) (reached (M.meaning (M.numbers model.now)) taken.now.subproblem.decisions) space.old.width threshold) }
    ensures prepared { IsPreparedFor (M.meaning (M.numbers model.now)) space.new }
    ensures width { space.new.width ≡ space.old.width }
    ensures room { HasCutRoom (M.meaning (M.numbers model.now)) space.old.width cut.new }
    ensures cutset { HoldsChildren (M.meaning (M.numbers model.now)) space.old.width LastExactLayer cutset.new }
{
    compile_lean(space, model, taken, threshold, cut, expander);
    cut_children(model, space, cut, cutset);
}

/// Compiles the relaxed diagram of the subproblem on the desk outside the turn, its layers in as many parts as the desk says, and fills
/// the list of the desk with its children and with the solution that it finds. The rows of all layers are held for a book and for children
/// of the frontier alone.
pub fn fill_desk<M: DpModel, D: Disk + Send, G, R: Threads + Sync>(
    crew: &Crew<'_, M, D, G, R>,
    desk: &mut Desk,
    threshold: Option<i64>,
)
    requires own { IsOwn (M.meaning (M.numbers crew.now.model.now)) desk.old.taken.subproblem }
    requires room { HasDeskRoom (M.meaning (M.numbers crew.now.model.now)) (first_of crew.now.turn.now).board.board.settings.width desk.old }
    ensures subs { desk.new.cutset.subs ≡ taken_from (M.meaning (M.numbers crew.now.model.now)) (relaxed (M.meaning (M.numbers crew.now.model.now)) (reached (M.meaning (M.numbers crew.now.model.now)) desk.old.taken.subproblem.decisions) desk.old.space.width threshold) desk.old.kind }
    ensures found { desk.new.cutset.found ≡ found_in (M.meaning (M.numbers crew.now.model.now)) (relaxed (M.meaning (M.numbers crew.now.model.now)) (reached (M.meaning (M.numbers crew.now.model.now)) desk.old.taken.subproblem.decisions) desk.old.space.width threshold) }
    ensures holds { IsSome desk.old.book → HoldsDiagram (M.meaning (M.numbers crew.now.model.now)) desk.new.space desk.new.cutset }
    ensures room { HasDeskRoom (M.meaning (M.numbers crew.now.model.now)) (first_of crew.now.turn.now).board.board.settings.width desk.new }
    ensures rest { desk.new ≡ record desk.old { space = desk.new.space; cutset = desk.new.cutset; cut = desk.new.cut } }
{
    let mut expander = desk.parts.expander(crew.rt, crew.alloc);
    if desk.needs_cut_alone() {
        fill_lean(
            &mut desk.space,
            &mut desk.cut,
            &mut desk.cutset,
            &desk.taken,
            threshold,
            crew.model,
            &mut expander,
        );
    } else {
        fill_with(
            &mut desk.space,
            &mut desk.cutset,
            &desk.taken,
            threshold,
            desk.kind,
            crew.model,
            &mut expander,
        );
    }
}
