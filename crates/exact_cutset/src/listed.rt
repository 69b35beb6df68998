ghost use Rattle.std.specs.Prelude.{◌≡◌, ◌<◌, ◌≤◌, [], None, Some, length, option_map, slice_get, IfOk};
ghost use Rattle.dp_laws.specs.Children.{children_size};
ghost use Rattle.dp_laws.specs.Diagrams.Nodes.{node_at};
ghost use Rattle.layer_build.specs.Finding.{IsFound};
ghost use Rattle.layer_build.specs.Layers.{diagram_of};
ghost use Rattle.relaxed_dd.specs.Shown.{last_of};
ghost use Rattle.exact_cutset.specs.Seen.{MayKeep, IsExactNode, with_child, with_solution, subproblems};

use crate::appending::{append_path, append_row};
use crate::child::Child;
use crate::making::make_subs;
use dp_model::{Found, OutOfMemory, Sub};
use layer_build::Workspace;
use std::alloc::Global;
use std::marker::Model;

/// The bytes of a journal record of children, but for the children.
const HEAD_BYTES: u64 = 12;

/// The bytes of a child in such a record, but for its decisions.
const CHILD_BYTES: u64 = 20;

/// The bytes of a decision in such a record.
const DECISION_BYTES: u64 = 4;

/// Children in memory, in order, and the solution that is found. There is room for `room` children, and for marks of the `wide`
/// nodes of a layer.
#[derive(Debug, Drop)]
pub(crate) struct Listed {
    pub(crate) width: usize,
    pub(crate) words: usize,
    pub(crate) vars: usize,
    pub(crate) wide: usize,
    pub(crate) room: usize,
    pub(crate) places: Vec<Child>,
    // the rows of the children and their decisions, one after another
    pub(crate) rows: Vec<i64>,
    pub(crate) paths: Vec<u32>,
    pub(crate) found: Option<i64>,
    // the decisions of the solution, and those of one child
    pub(crate) decisions: Vec<u32>,
    pub(crate) path: Vec<u32>,
}

impl Model for Listed {
    ghost use Rattle.std.specs.Prelude.{map, vec_capacity};
    ghost use Rattle.exact_cutset.specs.Seen.{ChildrenView};

    ghost Value = { ChildrenView };

    ghost use Rattle.exact_cutset.specs.Stored.{child_place, shown_subs, shown_solution, HasChildren};

    ghost view = { λ c. record {
      places = map child_place c.places.items;
      subs = shown_subs c.words c.places.items c.rows.items c.paths.items;
      found = shown_solution c.found c.decisions.items;
      width = c.width;
      vars = c.vars;
      words = c.words;
      wide = c.wide;
      room = c.room;
    } };

    ghost invariant = { λ c. HasChildren c.words c.vars c.room c.places.items (vec_capacity c.places) c.rows.items (vec_capacity c.rows) c.paths.items (vec_capacity c.paths) c.decisions.items c.path.items };
}

impl Listed {
    /// Takes out all children, and the solution.
    pub(crate) fn clear(&mut self)
        ensures { self.new ≡ record self.old { places = []; subs = []; found = None } }
    {
        self.places.clear();
        self.rows.clear();
        self.paths.clear();
        self.found = None;
    }

    /// Puts a node in as the last child, with its row.
    pub(crate) fn keep(
        &mut self,
        space: &Workspace,
        depth: usize,
        node: usize,
        row: &[i64],
        bound: i64,
    )
        requires first { (diagram_of space.now).first ≤ depth }
        requires depth { depth ≤ self.old.vars }
        requires node { MayKeep self.old.words (node_at (diagram_of space.now) depth node) }
        requires row { option_map (λ n. n.row) (node_at (diagram_of space.now) depth node) ≡ Some row.now }
        requires room { length self.old.places < self.old.room }
        ensures { self.new ≡ with_child (diagram_of space.now) (record { depth = depth; place = node; bound = bound }) self.old }
    {
        let value = space.value(depth, node);
        append_row(&mut self.rows, row);
        append_path(&mut self.paths, &mut self.path, space, depth, node);
        let child = Child::at(depth, node, value, bound);
        self.places.push_reserved(child);
    }

    /// Puts in an exact node of the last layer as the solution.
    pub(crate) fn keep_solution(&mut self, space: &Workspace, node: usize)
        requires depth { last_of (diagram_of space.now) ≡ self.old.vars }
        requires node { IsExactNode (node_at (diagram_of space.now) self.old.vars node) }
        ensures { self.new ≡ with_solution (diagram_of space.now) node self.old }
    {
        space.path(self.vars, node, &mut self.decisions);
        self.found = Some(space.value(self.vars, node));
    }

    /// How many children there are.
    pub(crate) fn len(&self) -> usize
        ensures { result ≡ length self.now.places }
    {
        self.places.len()
    }

    /// The bytes of the journal's record of all children.
    pub(crate) fn size(&self) -> u64
        ensures { result ≡ children_size self.now.subs }
    {
        HEAD_BYTES
            + CHILD_BYTES * self.places.len() as u64
            + DECISION_BYTES * self.paths.len() as u64
    }

    /// The depth and the place of a child's node in the diagram.
    pub(crate) fn node(&self, i: usize) -> (usize, usize)
        requires { i < length self.now.places }
        ensures { option_map (λ c. (c.depth, c.place)) (slice_get self.now.places i) ≡ Some result }
    {
        let child = self.places[i];
        (child.depth, child.node)
    }

    /// A bound on the completions of a child.
    pub(crate) fn bound(&self, i: usize) -> i64
        requires { i < length self.now.places }
        ensures { option_map (λ c. c.bound) (slice_get self.now.places i) ≡ Some result }
    {
        self.places[i].bound
    }

    /// The solution that the diagram finds, or none where its last layer has no exact node.
    pub(crate) fn found(&self) -> Option<Found<'_>>
        ensures { IsFound self.now.found result }
    {
        let value = self.found?;
        Some(Found {
            value,
            decisions: self.decisions.as_slice(),
        })
    }

    /// The children as subproblems of their own, in order.
    pub(crate) fn subs(&self, alloc: Global) -> Result<Vec<Sub>, OutOfMemory>
        ensures { IfOk result (λ subs. subproblems subs.items ≡ self.now.subs) }
    {
        make_subs(
            alloc,
            self.words,
            self.places.as_slice(),
            self.rows.as_slice(),
            self.paths.as_slice(),
        )
    }
}
