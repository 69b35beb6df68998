//! The words of a row.

ghost use Rattle.std.specs.Prelude.{◌≡◌, ◌<◌, length, pos, slice_set};
ghost use Rattle.node_sets.specs.Sets as sets;
ghost use Rattle.node_sets.specs.Sets.{AreWords};

// The word at an index.
#[inline]
#[tactic(auto, unfolding(crate::specs::Sets::row_word))]
pub fn word(row: &[i64], i: usize) -> u32
    requires cells { AreWords row.now }
    requires within { i < length row.now }
    ensures { result ≡ sets.row_word row.now i }
{
    row[i] as u32
}

// Writes a word at an index.
#[inline]
pub fn put(row: &mut [i64], i: usize, word: u32)
    requires { i < length row.old }
    ensures { row.new ≡ slice_set row.old i (pos word) }
{
    row[i] = i64::from(word);
}
