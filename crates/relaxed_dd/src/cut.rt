//! The rows of a diagram's last exact layer, which outlive those of the diagram.

ghost use Rattle.std.specs.Prelude.{◌≡◌, ◌+◌, ◌<◌, ◌≤◌, ◌++◌, [], ◌∷◌, Some, IfOk, length, slice_get, vec_capacity};
ghost use Rattle.dp_model.specs.declared.limits.TheConstants.{MOST_WIDTH};
ghost use Rattle.layer_build.specs.Layers.{IsWidth};
ghost use Rattle.relaxed_dd.specs.Cut.{IsWideEnough, HasCutRoom};

use dp_model::{DpModel, OutOfMemory};
use std::alloc::Global;
use std::marker::Model;

/// The rows of the nodes of a diagram's last exact layer, copied one after another. Their memory is made once and used again.
#[derive(Debug, Drop)]
pub struct CutRows {
    words: usize,
    // for how many rows there is room, and how many there are
    room: usize,
    len: usize,
    cells: Vec<i64>,
}

impl Model for CutRows {
    ghost use Rattle.std.specs.Prelude.{vec_capacity};
    ghost use Rattle.relaxed_dd.specs.Cut.{CutView, HasRoomFor, rows_in};

    ghost Value = { CutView };

    ghost view = { λ c. record {
      words = c.words;
      rows = rows_in c.words c.len c.cells.items;
      room = c.room;
    } };

    ghost invariant = { λ c. HasRoomFor c.words c.room c.len c.cells.items (vec_capacity c.cells) };
}

/// How many nodes a layer above the last one has at most: as many as the width, and the one below the first as many as choices.
pub fn widest_layer<M: DpModel>(model: &M, width: usize) -> usize
    ensures enough { IsWideEnough (M.meaning (M.numbers model.now)) width (M.meaning (M.numbers model.now)).vars result }
    ensures few { width ≤ MOST_WIDTH → result ≤ MOST_WIDTH }
{
    let mut widest = width;
    'layers: for k in 0..model.vars() {
        widest = widest.max(model.choices(k) as usize);
    }
    widest
}

/// Puts a row after the others, for which there is room.
fn append(cells: &mut Vec<i64>, row: &[i64])
    requires { length cells.old.items + length row.now ≤ vec_capacity cells.old }
    ensures items { cells.new.items ≡ cells.old.items ++ row.now }
    ensures room { vec_capacity cells.old ≤ vec_capacity cells.new }
{
    let _ = cells.extend_from_slice(row);
}

impl CutRows {
    /// Room for the rows of any layer above the last one, in diagrams of the model and the width.
    pub fn prepare<M: DpModel>(
        alloc: Global,
        model: &M,
        width: usize,
    ) -> Result<CutRows, OutOfMemory>
        requires { IsWidth (M.meaning (M.numbers model.now)) width }
        ensures { IfOk result (λ c. HasCutRoom (M.meaning (M.numbers model.now)) width c) }
    {
        let words = model.words();
        let room = widest_layer(model, width);
        Ok(CutRows {
            words,
            room,
            len: 0,
            cells: Vec::with_capacity(alloc, room * words)?,
        })
    }

    /// The row of the layer's node at the place.
    pub fn row(&self, node: usize) -> &[i64]
        requires { node < length self.now.rows }
        ensures { slice_get self.now.rows node ≡ Some result.now }
    {
        let at = node * self.words;
        &self.cells[at..at + self.words]
    }

    /// Forgets all rows.
    pub(crate) fn clear(&mut self)
        ensures { self.new ≡ record self.old { rows = [] } }
    {
        self.len = 0;
        self.cells.clear();
    }

    /// Puts a row after the others.
    pub(crate) fn keep(&mut self, row: &[i64])
        requires words { length row.now ≡ self.old.words }
        requires room { length self.old.rows < self.old.room }
        ensures { self.new ≡ record self.old { rows = self.old.rows ++ row.now ∷ [] } }
    {
        append(&mut self.cells, row);
        self.len += 1;
    }
}
