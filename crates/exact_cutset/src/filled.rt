ghost use Rattle.std.specs.Prelude.{◌≡◌, ◌<◌, ◌≤◌, Some, length, option_map, slice_get, IfOk};
ghost use Rattle.dp_model.specs.declared.cut_kind.CutKind.TheVariants.{LastExactLayer};
ghost use Rattle.dp_laws.specs.Children.{children_size};
ghost use Rattle.dp_laws.specs.Diagrams.Cutsets.{children_at, children_of, found_in};
ghost use Rattle.layer_build.specs.Finding.{IsFound};
ghost use Rattle.layer_build.specs.Layers.{diagram_of};
ghost use Rattle.relaxed_dd.specs.Cut.{AreCutOf};
ghost use Rattle.relaxed_dd.specs.Shown.{layers_of, width_of, IsDiagramOf, IsRelaxed};
ghost use Rattle.exact_cutset.specs.Prepared.{IsListPreparedFor};
ghost use Rattle.exact_cutset.specs.Seen.{subproblems};

use crate::listed::Listed;
use crate::taking::{take, take_copied};
use dp_model::{CutKind, DpModel, Found, OutOfMemory, Sub};
use layer_build::Workspace;
use relaxed_dd::{CutRows, Diagram};
use std::alloc::Global;
use std::marker::Model;

/// The children of a diagram, in order, and the solution that it finds. Its memory is made once and used again.
#[derive(Debug, Drop)]
pub struct Children {
    pub(crate) list: Listed,
    // for each node of the layer above, and of the layer that is looked at, whether a child may still stand below it
    pub(crate) above: Vec<bool>,
    pub(crate) here: Vec<bool>,
}

impl Model for Children {
    ghost use Rattle.std.specs.Prelude.{◌≤◌, vec_capacity};
    ghost use Rattle.exact_cutset.specs.Seen.{ChildrenView};

    ghost Value = { ChildrenView };

    ghost view = { λ c. c.list };

    ghost invariant = { λ c. (c.list.wide ≤ vec_capacity c.above) × (c.list.wide ≤ vec_capacity c.here) };
}

impl Children {
    /// Fills the list with the children of a diagram and with the solution that it finds.
    pub(crate) fn fill<M: DpModel>(&mut self, model: &M, diagram: &Diagram, kind: CutKind)
        requires diagram { IsDiagramOf (M.meaning (M.numbers model.now)) diagram.now }
        requires prepared { IsListPreparedFor (M.meaning (M.numbers model.now)) (width_of diagram.now) kind self.old }
        ensures { self.new ≡ record self.old {
          places = children_at (M.meaning (M.numbers model.now)) (layers_of diagram.now) kind;
          subs = children_of (M.meaning (M.numbers model.now)) (layers_of diagram.now) kind;
          found = found_in (M.meaning (M.numbers model.now)) (layers_of diagram.now);
        } }
    {
        take(
            model,
            diagram,
            kind,
            &mut self.above,
            &mut self.here,
            &mut self.list,
        );
    }

    /// Fills the list with the children of the last exact layer, whose rows are copied, and with the solution that the diagram finds.
    pub(crate) fn fill_copied<M: DpModel>(&mut self, model: &M, space: &Workspace, cut: &CutRows)
        requires diagram { IsRelaxed (M.meaning (M.numbers model.now)) space.now.width (diagram_of space.now) }
        requires cut { AreCutOf (diagram_of space.now) cut.now }
        requires prepared { IsListPreparedFor (M.meaning (M.numbers model.now)) space.now.width LastExactLayer self.old }
        ensures { self.new ≡ record self.old {
          places = children_at (M.meaning (M.numbers model.now)) (diagram_of space.now) LastExactLayer;
          subs = children_of (M.meaning (M.numbers model.now)) (diagram_of space.now) LastExactLayer;
          found = found_in (M.meaning (M.numbers model.now)) (diagram_of space.now);
        } }
    {
        take_copied(model, space, cut, &mut self.list);
    }

    /// How many children there are.
    pub fn len(&self) -> usize
        ensures { result ≡ length self.now.places }
    {
        self.list.len()
    }

    /// The bytes of the journal's record of all children: 12 for itself, and for each child 20 and 4 for each of its decisions.
    pub fn size(&self) -> u64
        ensures { result ≡ children_size self.now.subs }
    {
        self.list.size()
    }

    /// The depth and the place of a child's node in the diagram.
    pub fn node(&self, i: usize) -> (usize, usize)
        requires { i < length self.now.places }
        ensures { option_map (λ c. (c.depth, c.place)) (slice_get self.now.places i) ≡ Some result }
    {
        self.list.node(i)
    }

    /// A bound on the completions of a child.
    pub fn bound(&self, i: usize) -> i64
        requires { i < length self.now.places }
        ensures { option_map (λ c. c.bound) (slice_get self.now.places i) ≡ Some result }
    {
        self.list.bound(i)
    }

    /// The solution that the diagram finds, or none where its last layer has no exact node.
    pub fn found(&self) -> Option<Found<'_>>
        ensures { IsFound self.now.found result }
    {
        self.list.found()
    }

    /// The children as subproblems of their own, in order.
    pub fn subs(&self, alloc: Global) -> Result<Vec<Sub>, OutOfMemory>
        ensures { IfOk result (λ subs. subproblems subs.items ≡ self.now.subs) }
    {
        self.list.subs(alloc)
    }
}
