//! Sets made of two.

ghost use Rattle.std.specs.Prelude.{◌≡◌, ◌&&◌, ◌||◌, not, length};
ghost use Rattle.node_sets.specs.Sets.{AreWords, HasMembers, has, row_of};

use crate::pairing::Pairing;
use crate::word::{put, word};

/// Adds the members of `other`.
pub fn union_with(row: &mut [i64], other: &[i64])
    requires cells { AreWords row.old }
    requires other_cells { AreWords other.now }
    requires same { length row.old ≡ length other.now }
    ensures cells { AreWords row.new }
    ensures members { HasMembers row.new (λ v. has row.old v || has other.now v) }
    ensures row { row.new ≡ row_of (length row.old) (λ v. has row.old v || has other.now v) }
{
    for i in 0..row.len() {
        let word = Pairing::Union.words(word(row, i), word(other, i));
        put(row, i, word);
    }
}

/// Keeps in `must` only the members of both must sets, and makes `may` every other member of the four sets.
pub fn join(must: &mut [i64], may: &mut [i64], other_must: &[i64], other_may: &[i64])
    requires must_cells { AreWords must.old }
    requires may_cells { AreWords may.old }
    requires other_must_cells { AreWords other_must.now }
    requires other_may_cells { AreWords other_may.now }
    requires may_same { length must.old ≡ length may.old }
    requires other_must_same { length must.old ≡ length other_must.now }
    requires other_may_same { length must.old ≡ length other_may.now }
    ensures must { must.new ≡ row_of (length must.old) (λ v. has must.old v && has other_must.now v) }
    ensures may { may.new ≡ row_of (length must.old) (λ v. ((has must.old v || has may.old v) || (has other_must.now v || has other_may.now v)) && not (has must.old v && has other_must.now v)) }
{
    'words: for i in 0..must.len() {
        let mine = word(must, i);
        let others = word(other_must, i);
        let both = mine & others;
        let all = mine | word(may, i) | others | word(other_may, i);
        put(must, i, both);
        put(may, i, all & !both);
    }
}
