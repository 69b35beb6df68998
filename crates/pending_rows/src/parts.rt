//! The parts of a row.

ghost use Rattle.std.specs.Prelude.{◌≡◌, ◌≤◌, IsTrue};
ghost use Rattle.node_sets.specs.Sets as sets;
ghost use Rattle.node_sets.specs.Sets.{IsSet};
ghost use Rattle.pending_rows.specs.Pending.{must_of, may_of, shown, is_pending_row, latest};

use node_sets::words_for;

/// What must and what may still be done, and the time.
#[derive(Clone, Copy)]
pub struct Parts<'a> {
    pub must: &'a [i64],
    pub may: &'a [i64],
    pub time: u64,
}

/// The parts of a row that is a state.
#[inline]
pub fn parts_of(n: usize, s: &[i64]) -> Parts<'_>
    requires few { n ≤ 1024 }
    requires state { IsTrue (is_pending_row n s.now) }
    ensures must { result.must.now ≡ must_of (sets.words_for n) s.now }
    ensures may { result.may.now ≡ may_of (sets.words_for n) s.now }
    ensures time { result.time ≡ (shown (sets.words_for n) s.now).time }
    ensures must_set { IsSet n result.must.now }
    ensures may_set { IsSet n result.may.now }
    ensures early { result.time ≤ latest }
{
    let words = words_for(n);
    Parts {
        must: &s[..words],
        may: &s[words..2 * words],
        time: s[2 * words] as u64,
    }
}
