//! The children of a diagram.

ghost use Rattle.std.specs.Prelude.{◌≡◌, ◌<◌, ◌≤◌, [], Some, is_some, length, map, option_map, true, vec_capacity};
ghost use Rattle.dp_model.specs.declared.cut_kind.CutKind.TheVariants.{LastExactLayer};
ghost use Rattle.dp_laws.specs.Diagrams.Nodes.{node_at};
ghost use Rattle.dp_laws.specs.Diagrams.Cutsets.{children_at, children_of, found_in, last_exact_at, places_where, child_from};
ghost use Rattle.layer_build.specs.Layers.{diagram_of};
ghost use Rattle.relaxed_dd.specs.Cut.{AreCutOf};
ghost use Rattle.relaxed_dd.specs.Shown.{layers_of, width_of, layer_in, IsDiagramOf, IsRelaxed};
ghost use Rattle.exact_cutset.specs.Prepared.{IsListPreparedFor};
ghost use Rattle.exact_cutset.specs.Ready.{IsChildReadyAt, IsCut, CutIsReady, bound_at, with_bounded};
ghost use Rattle.exact_cutset.specs.Rows.{HasRows, HasRowsAt};

use crate::bounding::bound_of;
use crate::filled::Children;
use crate::finding::find;
use crate::frontier::take_frontier;
use crate::listed::Listed;
use crate::rows::{Rows, row_of};
use dp_model::{CutKind, DpModel};
use layer_build::Workspace;
use relaxed_dd::{CutRows, Diagram};

/// Puts a node with its row in as a child where it has a bound, and tells whether it has.
pub(crate) fn offer<M: DpModel>(
    model: &M,
    space: &Workspace,
    depth: usize,
    node: usize,
    row: &[i64],
    out: &mut Listed,
) -> bool
    requires first { (diagram_of space.now).first ≤ depth }
    requires depth { depth ≤ out.old.vars }
    requires words { out.old.words ≡ (M.meaning (M.numbers model.now)).words }
    requires ready { IsChildReadyAt (M.meaning (M.numbers model.now)) depth (node_at (diagram_of space.now) depth node) }
    requires row { option_map (λ n. n.row) (node_at (diagram_of space.now) depth node) ≡ Some row.now }
    requires room { length out.old.places < out.old.room }
    ensures kept { out.new ≡ with_bounded (diagram_of space.now) depth node (bound_at (M.meaning (M.numbers model.now)) (diagram_of space.now) depth node) out.old }
    ensures told { result ≡ is_some (bound_at (M.meaning (M.numbers model.now)) (diagram_of space.now) depth node) }
{
    let Some(bound) = bound_of(model, space, depth, node, row) else {
        return false;
    };
    out.keep(space, depth, node, row, bound);
    true
}

/// Puts in the nodes of a layer that have a bound, in order.
fn take_layer<M: DpModel>(
    model: &M,
    space: &Workspace,
    rows: Rows<'_>,
    depth: usize,
    out: &mut Listed,
)
    requires cut { IsCut (M.meaning (M.numbers model.now)) (diagram_of space.now) depth out.old.room }
    requires rows { HasRowsAt space.now depth rows }
    requires vars { out.old.vars ≡ (M.meaning (M.numbers model.now)).vars }
    requires words { out.old.words ≡ (M.meaning (M.numbers model.now)).words }
    requires no_places { out.old.places ≡ [] }
    requires no_subs { out.old.subs ≡ [] }
    ensures { out.new ≡ record out.old {
      places = places_where (λ node. true) (M.meaning (M.numbers model.now)) depth 0 (layer_in (diagram_of space.now) depth);
      subs = map (child_from (diagram_of space.now)) (places_where (λ node. true) (M.meaning (M.numbers model.now)) depth 0 (layer_in (diagram_of space.now) depth));
    } }
{
    let nodes = space.nodes(depth);
    'nodes: for node in 0..nodes {
        let row = row_of(space, rows, depth, node);
        offer(model, space, depth, node, row, out);
    }
}

/// Puts in the nodes of the last exact layer.
fn take_last_exact<M: DpModel>(model: &M, space: &Workspace, rows: Rows<'_>, out: &mut Listed)
    requires cut { CutIsReady (M.meaning (M.numbers model.now)) (diagram_of space.now) out.old.room (diagram_of space.now).first_reduced }
    requires rows { HasRows space.now rows }
    requires vars { out.old.vars ≡ (M.meaning (M.numbers model.now)).vars }
    requires words { out.old.words ≡ (M.meaning (M.numbers model.now)).words }
    requires no_places { out.old.places ≡ [] }
    requires no_subs { out.old.subs ≡ [] }
    ensures { out.new ≡ record out.old {
      places = last_exact_at (M.meaning (M.numbers model.now)) (diagram_of space.now) (diagram_of space.now).first_reduced;
      subs = map (child_from (diagram_of space.now)) (last_exact_at (M.meaning (M.numbers model.now)) (diagram_of space.now) (diagram_of space.now).first_reduced);
    } }
{
    let Some(reduced) = space.first_reduced() else {
        return;
    };
    take_layer(model, space, rows, reduced - 1, out);
}

/// Puts in the children of either kind.
fn take_kind<M: DpModel>(
    model: &M,
    diagram: &Diagram,
    kind: CutKind,
    above: &mut Vec<bool>,
    here: &mut Vec<bool>,
    out: &mut Listed,
)
    requires diagram { IsDiagramOf (M.meaning (M.numbers model.now)) diagram.now }
    requires prepared { IsListPreparedFor (M.meaning (M.numbers model.now)) (width_of diagram.now) kind out.old }
    requires no_places { out.old.places ≡ [] }
    requires no_subs { out.old.subs ≡ [] }
    requires above_room { out.old.wide ≤ vec_capacity above.old }
    requires here_room { out.old.wide ≤ vec_capacity here.old }
    ensures children { out.new ≡ record out.old {
      places = children_at (M.meaning (M.numbers model.now)) (layers_of diagram.now) kind;
      subs = children_of (M.meaning (M.numbers model.now)) (layers_of diagram.now) kind;
    } }
    ensures above_room { out.old.wide ≤ vec_capacity above.new }
    ensures here_room { out.old.wide ≤ vec_capacity here.new }
{
    match kind {
        CutKind::LastExactLayer => take_last_exact(model, diagram.space(), Rows::Held, out),
        CutKind::Frontier => take_frontier(model, diagram, above, here, out),
    }
}

/// Fills the list with the children of either kind and with the solution.
pub(crate) fn take<M: DpModel>(
    model: &M,
    diagram: &Diagram,
    kind: CutKind,
    above: &mut Vec<bool>,
    here: &mut Vec<bool>,
    out: &mut Listed,
)
    requires diagram { IsDiagramOf (M.meaning (M.numbers model.now)) diagram.now }
    requires prepared { IsListPreparedFor (M.meaning (M.numbers model.now)) (width_of diagram.now) kind out.old }
    requires above_room { out.old.wide ≤ vec_capacity above.old }
    requires here_room { out.old.wide ≤ vec_capacity here.old }
    ensures children { out.new ≡ record out.old {
      places = children_at (M.meaning (M.numbers model.now)) (layers_of diagram.now) kind;
      subs = children_of (M.meaning (M.numbers model.now)) (layers_of diagram.now) kind;
      found = found_in (M.meaning (M.numbers model.now)) (layers_of diagram.now);
    } }
    ensures above_room { out.old.wide ≤ vec_capacity above.new }
    ensures here_room { out.old.wide ≤ vec_capacity here.new }
{
    out.clear();
    take_kind(model, diagram, kind, above, here, out);
    find(model, diagram.space(), out);
}

/// Fills the list with the children of the last exact layer, whose rows are copied, and with the solution.
pub(crate) fn take_copied<M: DpModel>(model: &M, space: &Workspace, cut: &CutRows, out: &mut Listed)
    requires diagram { IsRelaxed (M.meaning (M.numbers model.now)) space.now.width (diagram_of space.now) }
    requires cut { AreCutOf (diagram_of space.now) cut.now }
    requires prepared { IsListPreparedFor (M.meaning (M.numbers model.now)) space.now.width LastExactLayer out.old }
    ensures { out.new ≡ record out.old {
      places = children_at (M.meaning (M.numbers model.now)) (diagram_of space.now) LastExactLayer;
      subs = children_of (M.meaning (M.numbers model.now)) (diagram_of space.now) LastExactLayer;
      found = found_in (M.meaning (M.numbers model.now)) (diagram_of space.now);
    } }
{
    out.clear();
    take_last_exact(model, space, Rows::Copied(cut), out);
    find(model, space, out);
}

/// Fills `out` with the children of a diagram and with the solution that it finds.
///
/// The children of the last exact layer are the nodes just above the first layer that was reduced; where no layer was reduced
/// there are none. Those of the frontier are the exact nodes below the prefix with an arc to an inexact node, but for those
/// whose kept decisions lead through another such node. Of either kind they have a suffix and a rough bound, and the bound of
/// each is its value and the lesser of the two. They stand by depth, and within a depth in the order of their layer. The
/// solution is the first exact node of the last layer. It takes no memory.
pub fn children<M: DpModel>(model: &M, diagram: &Diagram, kind: CutKind, out: &mut Children)
    requires diagram { IsDiagramOf (M.meaning (M.numbers model.now)) diagram.now }
    requires prepared { IsListPreparedFor (M.meaning (M.numbers model.now)) (width_of diagram.now) kind out.old }
    ensures places { out.new.places ≡ children_at (M.meaning (M.numbers model.now)) (layers_of diagram.now) kind }
    ensures subs { out.new.subs ≡ children_of (M.meaning (M.numbers model.now)) (layers_of diagram.now) kind }
    ensures found { out.new.found ≡ found_in (M.meaning (M.numbers model.now)) (layers_of diagram.now) }
    ensures prepared { (other : CutKind) → IsListPreparedFor (M.meaning (M.numbers model.now)) (width_of diagram.now) other out.old → IsListPreparedFor (M.meaning (M.numbers model.now)) (width_of diagram.now) other out.new }
{
    out.fill(model, diagram, kind);
}

/// Fills `out` with the children of the last exact layer of the diagram that lies in the workspace, and with the solution that it finds,
/// as `children` does. The rows of that layer are copied, so that the workspace need hold none.
pub fn cut_children<M: DpModel>(model: &M, space: &Workspace, cut: &CutRows, out: &mut Children)
    requires diagram { IsRelaxed (M.meaning (M.numbers model.now)) space.now.width (diagram_of space.now) }
    requires cut { AreCutOf (diagram_of space.now) cut.now }
    requires prepared { IsListPreparedFor (M.meaning (M.numbers model.now)) space.now.width LastExactLayer out.old }
    ensures places { out.new.places ≡ children_at (M.meaning (M.numbers model.now)) (diagram_of space.now) LastExactLayer }
    ensures subs { out.new.subs ≡ children_of (M.meaning (M.numbers model.now)) (diagram_of space.now) LastExactLayer }
    ensures found { out.new.found ≡ found_in (M.meaning (M.numbers model.now)) (diagram_of space.now) }
    ensures prepared { (other : CutKind) → IsListPreparedFor (M.meaning (M.numbers model.now)) space.now.width other out.old → IsListPreparedFor (M.meaning (M.numbers model.now)) space.now.width other out.new }
{
    out.fill_copied(model, space, cut);
}
