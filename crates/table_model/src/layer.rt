ghost use Rattle.std.specs.Prelude.{◌≡◌, ℕ, ◌<◌, ◌≤◌, length, map, None, slice_index_or};
ghost use Rattle.table_model.specs.Table.{cell_at, gap_at, merge_at, rough_at, transition_at};

use crate::transition::Transition;
use std::marker::Model;

/// A layer of a table, with a row for each of its states.
#[derive(Debug, Drop)]
pub struct Layer {
    pub(crate) states: u32,
    /// How many decisions there are, and 0 at the last layer.
    pub(crate) choices: u32,
    pub(crate) gap: Vec<Vec<Option<i64>>>,
    pub(crate) merge: Vec<Vec<u32>>,
    pub(crate) rough: Vec<Option<i64>>,
    pub(crate) next: Vec<Vec<Option<u32>>>,
    pub(crate) gain: Vec<Vec<Option<i64>>>,
}

impl Model for Layer {
    ghost use Rattle.std.specs.Prelude.{map};
    ghost use Rattle.table_model.specs.Table.{LayerTable};

    ghost Value = { LayerTable };

    ghost view = { λ l. record {
      states = l.states;
      choices = l.choices;
      gap = map (λ r. r.items) l.gap.items;
      merge = map (λ r. r.items) l.merge.items;
      rough = l.rough.items;
      next = map (λ r. r.items) l.next.items;
      gain = map (λ r. r.items) l.gain.items;
    } };
}

/// The cell of a row, and `outside` after its end.
fn cell_of_row<T: Copy + Drop>(row: &[T], j: usize, outside: T) -> T
    ensures { result ≡ slice_index_or row.now j outside }
{
    if j < row.len() { row[j] } else { outside }
}

/// A cell of a table, and `outside` where there is none.
fn cell_at<T: Copy + Drop>(rows: &[Vec<T>], i: usize, j: usize, outside: T) -> T
    ensures { result ≡ cell_at (map (λ r. r.items) rows.now) outside i j }
{
    if i < rows.len() {
        let row = &rows[i];
        cell_of_row(row.as_slice(), j, outside)
    } else {
        outside
    }
}

impl Layer {
    /// The gap of a state to another.
    pub(crate) fn gap(&self, a: usize, s: usize) -> Option<i64>
        ensures { result ≡ gap_at self.now a s }
    {
        cell_at(self.gap.as_slice(), a, s, None)
    }

    /// The state that stands for two.
    pub(crate) fn merged(&self, x: usize, s: usize) -> u32
        ensures { result ≡ merge_at self.now x s }
    {
        cell_at(self.merge.as_slice(), x, s, 0)
    }

    /// The rough bound of a state.
    pub(crate) fn rough(&self, s: usize) -> Option<i64>
        ensures { result ≡ rough_at self.now s }
    {
        cell_of_row(self.rough.as_slice(), s, None)
    }

    /// The state that a decision leads to.
    pub(crate) fn next(&self, s: usize, d: usize) -> Option<u32>
        ensures { result ≡ cell_at self.now.next None s d }
    {
        cell_at(self.next.as_slice(), s, d, None)
    }

    /// What a decision gains.
    pub(crate) fn gain(&self, s: usize, d: usize) -> Option<i64>
        ensures { result ≡ cell_at self.now.gain None s d }
    {
        cell_at(self.gain.as_slice(), s, d, None)
    }

    /// What a decision makes of a state, where it is allowed.
    pub(crate) fn transition(&self, s: usize, d: usize) -> Option<Transition>
        ensures { result ≡ transition_at self.now s d }
    {
        let next = self.next(s, d)?;
        let gain = self.gain(s, d)?;
        Some(Transition { next, gain })
    }
}
