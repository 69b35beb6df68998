//! Finding the subproblem with a depth and a state.

ghost use Rattle.std.specs.Prelude.{◌≡◌, ℕ, true, false, MatchOption};
ghost use Rattle.dp_model.specs.Folds.{fold_of};
ghost use Rattle.fringe.specs.Slots.{AreIndexed, is_same_in, in_slot};

use crate::index::Index;
use crate::listed::Listed;
use crate::slots::is_same_in;

/// The slot of the subproblem with the depth and the state, or `None` exactly if there is none. `fold` is the fold of both.
pub fn slot_of_same(
    slots: &[Option<Listed>],
    index: &Index,
    fold: u64,
    depth: usize,
    row: &[i64],
) -> Option<u32>
    requires fold { fold ≡ fold_of depth row.now }
    requires entered { AreIndexed slots.now index.now.nodes }
    ensures { MatchOption result ((s : ℕ) → is_same_in depth row.now (in_slot slots.now s) ≡ false) (λ s. is_same_in depth row.now (in_slot slots.now s) ≡ true) }
{
    let mut at = index.last(fold);
    while 0 < at {
        let node = index.node(at - 1);
        if is_same_in(slots, node.slot, depth, row) {
            return Some(node.slot);
        }
        at = node.next as usize;
    }
    None
}
