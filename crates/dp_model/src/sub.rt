ghost use Rattle.std.specs.Prelude.{◌≡◌, ℕ, pos, ◌≤◌, [], length, replicate, IfOk};

use std::alloc::{AllocError, Global};
use std::marker::Model;

/// A subproblem: a prefix of decisions with its state, its value and a bound on its completions.
#[derive(Debug, Drop)]
pub struct Sub {
    /// The decisions of the prefix.
    pub decisions: Vec<u32>,
    /// The state that the prefix reaches.
    pub row: Vec<i64>,
    /// The value of the prefix.
    pub value: i64,
    /// A bound on the values of its completions.
    pub bound: i64,
}

impl Model for Sub {
    ghost use Rattle.std.specs.Prelude.{vec_capacity};
    ghost use Rattle.dp_model.specs.Subproblem.{SubView};

    ghost Value = { SubView };

    ghost view = { λ s. record {
      subproblem = record { decisions = s.decisions.items; row = s.row.items; value = s.value; bound = s.bound };
      room = vec_capacity s.decisions;
    } };
}

impl Sub {
    /// A subproblem without decisions, with room for `vars` decisions. Its state is `words` zeros, and its value and its bound are
    /// 0. Fails only for want of memory.
    pub fn blank(alloc: Global, vars: usize, words: usize) -> Result<Sub, AllocError>
        ensures room { IfOk result (λ s. s.room ≡ vars) }
        ensures decisions { IfOk result (λ s. s.subproblem.decisions ≡ []) }
        ensures row { IfOk result (λ s. s.subproblem.row ≡ replicate words (pos 0)) }
        ensures numbers { IfOk result (λ s. (s.subproblem.value ≡ pos 0) × (s.subproblem.bound ≡ pos 0)) }
    {
        let decisions = Vec::with_capacity(alloc, vars)?;
        let row = vec![in alloc; 0i64; words]?;
        Ok(Sub {
            decisions,
            row,
            value: 0,
            bound: 0,
        })
    }

    /// Becomes a copy of `other`, in its own memory. It has room for the decisions of `other`, and its row has as many cells as
    /// that of `other`. It takes no memory.
    pub fn copy_from(&mut self, other: &Sub)
        requires room { length other.now.subproblem.decisions ≤ self.old.room }
        requires cells { length other.now.subproblem.row ≡ length self.old.subproblem.row }
        ensures copied { self.new.subproblem ≡ other.now.subproblem }
        ensures room { self.old.room ≤ self.new.room }
    {
        self.decisions.clear();
        let _ = self.decisions.extend_from_slice(other.decisions.as_slice());
        self.row.copy_from_slice(other.row.as_slice());
        self.value = other.value;
        self.bound = other.bound;
    }
}
