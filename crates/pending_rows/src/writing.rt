//! Rows that are written.

ghost use Rattle.std.specs.Prelude.{◌≡◌, ◌+◌, ◌*◌, ◌<◌, ◌≤◌, length, IsTrue};
ghost use Rattle.node_sets.specs.Sets as sets;
ghost use Rattle.pending_rows.specs.Pending.{start, done, joined, shown, row_for, is_pending_row, latest};

use crate::parts::parts_of;
use node_sets::{clear, join, remove, words_for, write_below};

/// Writes the start: all numbers below `n` must be done, at time 0.
pub fn write_start(out: &mut [i64], n: usize)
    requires few { n ≤ 1024 }
    requires cells { length out.old ≡ 2 * sets.words_for n + 1 }
    ensures { out.new ≡ row_for (sets.words_for n) (start n) }
{
    let words = words_for(n);
    let (must, rest) = out.split_at_mut(words);
    let (may, time) = rest.split_at_mut(words);
    write_below(must, n);
    clear(may);
    time[0] = 0;
}

/// Writes the state in which a number is done, at a time.
#[inline]
pub fn write_done(out: &mut [i64], n: usize, s: &[i64], number: usize, time: u64)
    requires few { n ≤ 1024 }
    requires cells { length out.old ≡ 2 * sets.words_for n + 1 }
    requires state { IsTrue (is_pending_row n s.now) }
    requires inside { number < n }
    requires early { time ≤ latest }
    ensures { out.new ≡ row_for (sets.words_for n) (done (shown (sets.words_for n) s.now) number time) }
{
    let words = words_for(n);
    out.copy_from_slice(s);
    let (must, rest) = out.split_at_mut(words);
    let (may, last) = rest.split_at_mut(words);
    remove(must, number);
    remove(may, number);
    last[0] = time as i64;
}

/// Makes a state what it has together with another one.
#[inline]
pub fn write_joined(acc: &mut [i64], n: usize, s: &[i64])
    requires few { n ≤ 1024 }
    requires kept { IsTrue (is_pending_row n acc.old) }
    requires state { IsTrue (is_pending_row n s.now) }
    ensures { acc.new ≡ row_for (sets.words_for n) (joined (shown (sets.words_for n) acc.old) (shown (sets.words_for n) s.now)) }
{
    let words = words_for(n);
    let state = parts_of(n, s);
    let earlier = parts_of(n, acc).time.min(state.time);
    let (must, rest) = acc.split_at_mut(words);
    let (may, time) = rest.split_at_mut(words);
    join(must, may, state.must, state.may);
    time[0] = earlier as i64;
}
