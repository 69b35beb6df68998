//! The parts of a state.

ghost use Rattle.std.specs.Prelude.{◌≡◌, ◌≤◌, IsTrue};
ghost use Rattle.node_sets.specs.Sets as sets;
ghost use Rattle.node_sets.specs.Sets.{IsSet};
ghost use Rattle.pending_rows.specs.Pending as rows;
ghost use Rattle.pending_rows.specs.Pending.{is_pending_row, latest};
ghost use Rattle.tsp_windows.specs.States as states;
ghost use Rattle.tsp_windows.specs.States.{shown, is_state_row};

use node_sets::words_for;
use pending_rows::parts_of;

/// The most nodes of a problem.
pub(crate) const MOST_NODES: usize = 300;

/// The words of a set of that many nodes.
pub(crate) const MOST_WORDS: usize = 10;

/// The number of nodes. The code repeats its bound, so that the compiler keeps loops over at most ten words short.
#[inline]
pub(crate) fn few(nodes: usize) -> usize
    requires { nodes ≤ 300 }
    ensures { result ≡ nodes }
{
    nodes.min(MOST_NODES)
}

/// The set of the nodes where a tour may stand.
#[inline]
pub(crate) fn positions_of(nodes: usize, s: &[i64]) -> &[i64]
    requires few { nodes ≤ 300 }
    requires state { IsTrue (is_state_row nodes s.now) }
    ensures row { result.now ≡ states.positions_of (sets.words_for nodes) s.now }
    ensures set { IsSet nodes result.now }
{
    &s[..words_for(nodes)]
}

/// The row of what must and may still be visited, and the time.
#[inline]
pub(crate) fn pending_of(nodes: usize, s: &[i64]) -> &[i64]
    requires few { nodes ≤ 300 }
    requires state { IsTrue (is_state_row nodes s.now) }
    ensures row { result.now ≡ states.pending_of (sets.words_for nodes) s.now }
    ensures pending { IsTrue (is_pending_row nodes result.now) }
    ensures shown { rows.shown (sets.words_for nodes) result.now ≡ (shown (sets.words_for nodes) s.now).pending }
{
    &s[words_for(nodes)..]
}

/// The time of a state.
#[inline]
pub(crate) fn time_of(nodes: usize, s: &[i64]) -> u64
    requires few { nodes ≤ 300 }
    requires state { IsTrue (is_state_row nodes s.now) }
    ensures value { result ≡ (shown (sets.words_for nodes) s.now).pending.time }
    ensures early { result ≤ latest }
{
    parts_of(nodes, pending_of(nodes, s)).time
}
