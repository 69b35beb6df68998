//! The diagrams of a round.

ghost use Rattle.std.specs.Prelude.{◌≡◌, false, [], None, is_some, IfOk, OnOk, IfErr};
ghost use Rattle.board_laws.specs.Board.{reach};
ghost use Rattle.dp_model.specs.Numbers.{OptionAtMost};
ghost use Rattle.dp_model.specs.Reached.{reached};
ghost use Rattle.dp_model.specs.Subproblem.{IsOwn};
ghost use Rattle.dp_laws.specs.Children.{found_value};
ghost use Rattle.dp_laws.specs.Diagrams.Cutsets.{children_at, found_in};
ghost use Rattle.dp_laws.specs.Restricted.Beams.{beam, wide};
ghost use Rattle.dp_laws.specs.Rules.Compiling.{relaxed};
ghost use Rattle.turn.specs.History.{HasMoved};
ghost use Rattle.exact_cutset.specs.Prepared.{IsListPreparedFor};
ghost use Rattle.layer_build.specs.Layers.{IsPreparedFor};
ghost use Rattle.kept_board.specs.Moves.{IsMove};
ghost use Rattle.kept_board.specs.View.{tag_of};
ghost use Rattle.relaxed_dd.specs.Shown.{layers_of, width_of, IsDiagramOf};
ghost use Rattle.search_workers.specs.Branched.{IsBranched};
ghost use Rattle.search_workers.specs.Collected.{HoldsDiagram};
ghost use Rattle.search_workers.specs.Offered.{beam_value, IsOffered};
ghost use Rattle.search_workers.specs.Prepared.{HoldsChildren};
ghost use Rattle.search_workers.specs.Stopped.{IsRefused};
ghost use Rattle.search_workers.specs.Taken.{kind_taken, taken_from};

use super::offering::offer;
use disk::Disk;
use dp_model::{CutKind, DpModel, Sub};
use exact_cutset::{Children, children};
use journal_bytes::BODY_LIMIT;
use kept_board::{Kept, KeptError};
use layer_build::Workspace;
use relaxed_dd::{Diagram, compile, compile_with, shown};
use std::alloc::Global;
use std::thread::Threads;
use wide_layers::Expander;

/// What the restricted diagram of a subproblem leaves.
#[derive(Clone, Copy, Debug)]
pub struct Restricted {
    /// The threshold that it was compiled with.
    pub threshold: Option<i64>,
    /// Whether the width took something from a layer.
    pub reduced: bool,
}

/// Compiles the restricted diagram of a subproblem with the reach as threshold, and offers its beam. Where the width took nothing
/// from it, the subproblem has no children. No cause is held.
///
/// # Errors
///
/// As `offer` says.
pub fn restrict<M: DpModel, D: Disk>(
    alloc: Global,
    kept: &mut Kept<M, D>,
    space: &mut Workspace,
    taken: &Sub,
    model: &M,
) -> Result<Restricted, KeptError>
    requires numbers { kept.old.board.numbers ≡ M.numbers model.now }
    requires going { kept.old.board.board.cause ≡ None }
    requires own { IsOwn (M.meaning (M.numbers model.now)) taken.now.subproblem }
    requires prepared { IsPreparedFor (M.meaning (M.numbers model.now)) space.old }
    requires width { space.old.width ≡ kept.old.board.board.settings.width }
    ensures threshold { IfOk result (λ r. r.threshold ≡ reach kept.old.board.board) }
    ensures reduced { IfOk result (λ r. r.reduced ≡ is_some (wide (M.meaning (M.numbers model.now)) taken.now.subproblem.decisions space.old.width r.threshold)) }
    ensures beam { IfOk result (λ r. OptionAtMost (beam_value (beam (M.meaning (M.numbers model.now)) taken.now.subproblem.decisions space.old.width r.threshold)) (reach kept.new.board.board)) }
    ensures whole { IfOk result (λ r. r.reduced ≡ false → IsBranched (M.meaning (M.numbers model.now)) kept.new.board.board taken.now.subproblem.decisions r.threshold []) }
    ensures offered { OnOk result (IsOffered (M.meaning (M.numbers model.now)) kept.old.board.board kept.new.board.board) }
    ensures refused { IfErr result (λ error. IsRefused (M.meaning (M.numbers model.now)) kept.old.board.board error kept.new.board.board) }
    ensures tag { tag_of kept.new ≡ tag_of kept.old }
    ensures moved { HasMoved (IsMove D.Disk M.meaning) kept.old kept.new }
    ensures prepared { IsPreparedFor (M.meaning (M.numbers model.now)) space.new }
    ensures width { space.new.width ≡ space.old.width }
{
    let threshold = kept.board().reach();
    let compiled = restricted_dd::compile(space, model, taken, threshold);
    let reduced = compiled.reduced;
    offer(alloc, kept, compiled.found)?;
    Ok(Restricted { threshold, reduced })
}

/// Compiles the relaxed diagram of a subproblem with the reach as threshold, offers the solution that it finds, and fills `cutset`
/// with its children. Gives the threshold. No cause is held.
///
/// # Errors
///
/// As `offer` says.
pub fn relax<M: DpModel, D: Disk>(
    alloc: Global,
    kept: &mut Kept<M, D>,
    space: &mut Workspace,
    cutset: &mut Children,
    taken: &Sub,
    kind: CutKind,
    model: &M,
) -> Result<Option<i64>, KeptError>
    requires numbers { kept.old.board.numbers ≡ M.numbers model.now }
    requires going { kept.old.board.board.cause ≡ None }
    requires own { IsOwn (M.meaning (M.numbers model.now)) taken.now.subproblem }
    requires prepared { IsPreparedFor (M.meaning (M.numbers model.now)) space.old }
    requires width { space.old.width ≡ kept.old.board.board.settings.width }
    requires cutset { HoldsChildren (M.meaning (M.numbers model.now)) space.old.width kind cutset.old }
    ensures threshold { IfOk result (λ t. t ≡ reach kept.old.board.board) }
    ensures subs { IfOk result (λ threshold. cutset.new.subs ≡ taken_from (M.meaning (M.numbers model.now)) (relaxed (M.meaning (M.numbers model.now)) (reached (M.meaning (M.numbers model.now)) taken.now.subproblem.decisions) space.old.width threshold) kind) }
    ensures found { IfOk result (λ threshold. OptionAtMost (found_value (found_in (M.meaning (M.numbers model.now)) (relaxed (M.meaning (M.numbers model.now)) (reached (M.meaning (M.numbers model.now)) taken.now.subproblem.decisions) space.old.width threshold))) (reach kept.new.board.board)) }
    ensures branched { IfOk result (λ threshold. IsBranched (M.meaning (M.numbers model.now)) kept.new.board.board taken.now.subproblem.decisions threshold cutset.new.subs) }
    ensures offered { OnOk result (IsOffered (M.meaning (M.numbers model.now)) kept.old.board.board kept.new.board.board) }
    ensures refused { IfErr result (λ error. IsRefused (M.meaning (M.numbers model.now)) kept.old.board.board error kept.new.board.board) }
    ensures tag { tag_of kept.new ≡ tag_of kept.old }
    ensures moved { HasMoved (IsMove D.Disk M.meaning) kept.old kept.new }
    ensures prepared { IsPreparedFor (M.meaning (M.numbers model.now)) space.new }
    ensures width { space.new.width ≡ space.old.width }
    ensures cutset { HoldsChildren (M.meaning (M.numbers model.now)) space.old.width kind cutset.new }
{
    let threshold = kept.board().reach();
    fill(space, cutset, taken, threshold, kind, model);
    offer(alloc, kept, cutset.found())?;
    Ok(threshold)
}

/// Fills `cutset` from the relaxed diagram of a subproblem, with its children of the kind and the solution that it finds. Where a
/// record that names all children of the frontier would be too large, it takes those of the last exact layer instead. It takes no
/// memory.
fn fill<M: DpModel>(
    space: &mut Workspace,
    cutset: &mut Children,
    taken: &Sub,
    threshold: Option<i64>,
    kind: CutKind,
    model: &M,
)
    requires own { IsOwn (M.meaning (M.numbers model.now)) taken.now.subproblem }
    requires prepared { IsPreparedFor (M.meaning (M.numbers model.now)) space.old }
    requires cutset { HoldsChildren (M.meaning (M.numbers model.now)) space.old.width kind cutset.old }
    ensures subs { cutset.new.subs ≡ taken_from (M.meaning (M.numbers model.now)) (relaxed (M.meaning (M.numbers model.now)) (reached (M.meaning (M.numbers model.now)) taken.now.subproblem.decisions) space.old.width threshold) kind }
    ensures found { cutset.new.found ≡ found_in (M.meaning (M.numbers model.now)) (relaxed (M.meaning (M.numbers model.now)) (reached (M.meaning (M.numbers model.now)) taken.now.subproblem.decisions) space.old.width threshold) }
    ensures holds { HoldsDiagram (M.meaning (M.numbers model.now)) space.new cutset.new }
    ensures prepared { IsPreparedFor (M.meaning (M.numbers model.now)) space.new }
    ensures width { space.new.width ≡ space.old.width }
    ensures cutset { HoldsChildren (M.meaning (M.numbers model.now)) space.old.width kind cutset.new }
{
    compile(space, model, taken, threshold);
    take_children(model, &shown(space), kind, cutset);
}

/// Fills `cutset` as `fill` does, whatever expands the layers of the diagram. The expander may take memory.
pub fn fill_with<M: DpModel, R: Threads + Sync>(
    space: &mut Workspace,
    cutset: &mut Children,
    taken: &Sub,
    threshold: Option<i64>,
    kind: CutKind,
    model: &M,
    expander: &mut Expander<'_, R>,
)
    requires own { IsOwn (M.meaning (M.numbers model.now)) taken.now.subproblem }
    requires prepared { IsPreparedFor (M.meaning (M.numbers model.now)) space.old }
    requires cutset { HoldsChildren (M.meaning (M.numbers model.now)) space.old.width kind cutset.old }
    ensures subs { cutset.new.subs ≡ taken_from (M.meaning (M.numbers model.now)) (relaxed (M.meaning (M.numbers model.now)) (reached (M.meaning (M.numbers model.now)) taken.now.subproblem.decisions) space.old.width threshold) kind }
    ensures found { cutset.new.found ≡ found_in (M.meaning (M.numbers model.now)) (relaxed (M.meaning (M.numbers model.now)) (reached (M.meaning (M.numbers model.now)) taken.now.subproblem.decisions) space.old.width threshold) }
    ensures holds { HoldsDiagram (M.meaning (M.numbers model.now)) space.new cutset.new }
    ensures prepared { IsPreparedFor (M.meaning (M.numbers model.now)) space.new }
    ensures width { space.new.width ≡ space.old.width }
    ensures cutset { HoldsChildren (M.meaning (M.numbers model.now)) space.old.width kind cutset.new }
{
    compile_with(space, model, taken, threshold, expander);
    take_children(model, &shown(space), kind, cutset);
}

/// Fills `cutset` with the children of a diagram, and with the solution that it finds.
fn take_children<M: DpModel>(model: &M, diagram: &Diagram, kind: CutKind, cutset: &mut Children)
    requires diagram { IsDiagramOf (M.meaning (M.numbers model.now)) diagram.now }
    requires prepared { IsListPreparedFor (M.meaning (M.numbers model.now)) (width_of diagram.now) kind cutset.old }
    ensures places { cutset.new.places ≡ children_at (M.meaning (M.numbers model.now)) (layers_of diagram.now) (kind_taken (M.meaning (M.numbers model.now)) (layers_of diagram.now) kind) }
    ensures subs { cutset.new.subs ≡ taken_from (M.meaning (M.numbers model.now)) (layers_of diagram.now) kind }
    ensures found { cutset.new.found ≡ found_in (M.meaning (M.numbers model.now)) (layers_of diagram.now) }
    ensures prepared { IsListPreparedFor (M.meaning (M.numbers model.now)) (width_of diagram.now) kind cutset.new }
{
    match kind {
        CutKind::LastExactLayer => children(model, diagram, kind, cutset),
        CutKind::Frontier => take_frontier(model, diagram, cutset),
    }
}

/// The same for the kind of the frontier.
fn take_frontier<M: DpModel>(model: &M, diagram: &Diagram, cutset: &mut Children)
    requires diagram { IsDiagramOf (M.meaning (M.numbers model.now)) diagram.now }
    requires prepared { IsListPreparedFor (M.meaning (M.numbers model.now)) (width_of diagram.now) CutKind.Frontier cutset.old }
    ensures places { cutset.new.places ≡ children_at (M.meaning (M.numbers model.now)) (layers_of diagram.now) (kind_taken (M.meaning (M.numbers model.now)) (layers_of diagram.now) CutKind.Frontier) }
    ensures subs { cutset.new.subs ≡ taken_from (M.meaning (M.numbers model.now)) (layers_of diagram.now) CutKind.Frontier }
    ensures found { cutset.new.found ≡ found_in (M.meaning (M.numbers model.now)) (layers_of diagram.now) }
    ensures prepared { IsListPreparedFor (M.meaning (M.numbers model.now)) (width_of diagram.now) CutKind.Frontier cutset.new }
{
    children(model, diagram, CutKind::Frontier, cutset);
    if cutset.size() >= BODY_LIMIT {
        children(model, diagram, CutKind::LastExactLayer, cutset);
    }
}
